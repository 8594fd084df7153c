// The calls of the viewer's C host. None asks anything of its caller: each says what it returns, and what every lent room then holds,
// for all input. The crate chamrolak_c exports them, and include/chamrolak.h has them for C: their parameters are C's, slice by slice, and
// `Tables`, `Given` and `Rooms` are made of them here.
#![tactic(auto)]

ghost use Rattle.std.specs.Prelude.{Err, List, ◌≡◌, ℕ, length};
ghost use Rattle.rules.specs.Tables.{Tables as Lists};
ghost use Rattle.rules.specs.Check.{check};
ghost use Rattle.rules.specs.Answers.{drive_reply, parse_reply};
ghost use Rattle.rooms.specs.Lent.{Same, world_of};
ghost use Rattle.moves.specs.Serving.{Serves};
ghost use Rattle.refine.specs.Theorem.{ran_of};
ghost use Rattle.tables.specs.Places.{call_tables};
ghost use Rattle.chamrolak.specs.Exit.{returned_of, lent, limits_in, Leaves};
ghost use Rattle.chamrolak.specs.Reached.{Counted, Fitting, call_in, given_of, rooms_in, lent_in};

use driver::{depth_of, drive};
use model::St;
use moves::Given;
use records::Actions;
use report::{number_of, put_report, value_of};
use rooms::Rooms;
use rules::Refusal;
use shapes::tokens::tokens_fit;
use tables::Tables;
use words::Word;

// What a call returns: the number of document 01's answer or refusal, and its place or first field. 0 is the number of tables that
// pass. Kept as numbers, and no `Result`: the C interface.
#[repr(C)]
#[derive(Clone, Copy)]
pub struct Returned {
    pub number: u32,
    pub value: u32,
}

// A refusal as the numbers that a call returns.
impl From<Refusal> for Returned {
    ghost from_gives = { λ refusal r. r ≡ returned_of (Err refusal) };

    fn from(refusal: Refusal) -> Returned {
        Returned {
            number: refusal.number,
            value: refusal.place,
        }
    }
}

// The check of a call's tables: 10 to 17 with its place, or 0. It writes nothing.
pub fn chamrolak_check(
    sizes: &[u8],
    actions: &[u8],
    gotos: &[u8],
    productions: &[u8],
    rights: &[u8],
    items: &[u8],
    sets: &[u8],
) -> Returned
    ensures { result ≡ returned_of (check (call_tables sizes.now actions.now gotos.now productions.now rights.now items.now sets.now)) }
{
    let tables = Tables::new(sizes, actions, gotos, productions, rights, items, sets);
    match checker::check(&tables) {
        Ok(()) => Returned {
            number: 0,
            value: 0,
        },
        Err(refusal) => Returned::from(refusal),
    }
}

// A call, its numbers read off its slices.
fn given<'a>(
    sizes: &[u8],
    actions: &'a [u8],
    gotos: &'a [u8],
    productions: &'a [u8],
    tokens: &'a [u8],
    origin: u32,
    depth: usize,
) -> Given<'a>
    ensures { result ≡ given_of sizes.now actions.entry gotos.entry productions.entry tokens.entry origin depth }
{
    Given {
        actions,
        gotos,
        productions,
        tokens,
        states: u16::word(sizes, 0) as usize,
        kinds: u16::word(sizes, 2) as usize,
        nonterminals: u16::word(sizes, 4) as usize,
        recovers: u16::word(sizes, 10) == 1,
        count: tokens.len() / 12,
        origin,
        depth,
    }
}

// The run: the byte model's, whatever tables the call serves.
fn run_all(g: &Given, rooms: &mut Rooms, budget: u32) -> St
    requires { Fitting g.now (rooms_in rooms.old) }
    ensures same { Same rooms.old rooms.new }
    ensures by_index { (T : Lists) → Serves (call_in T g.now (rooms_in rooms.old)) g.now → world_of rooms.new result ≡
        ran_of T g.now.tokens.now g.now.origin (rooms_in rooms.old) budget }
    ensures counted { Counted result }
{
    drive(g, rooms, budget)
}

// The run with its report.
fn answer_all(g: &Given, rooms: &mut Rooms, report: &mut [u8], budget: u32) -> Returned
    requires { Fitting g.now (rooms_in rooms.old) × (length report.old ≡ 64) }
    ensures same { Same rooms.old rooms.new }
    ensures answer { (T : Lists) → Serves (call_in T g.now (rooms_in rooms.old)) g.now →
        Leaves T (drive_reply T g.now.tokens.now g.now.origin (limits_in (lent_in rooms.old report.old) budget)) result
        (lent_in rooms.old report.old) (lent_in rooms.new report.new) }
{
    let st = run_all(g, rooms, budget);
    let actions = Actions {
        bytes: g.actions,
        states: g.states,
        kinds: g.kinds,
    };
    put_report(
        actions,
        report,
        st.answer,
        st.units as u32,
        st.nodes as u32,
        st.children as u32,
        st.records as u32,
    );
    Returned {
        number: number_of(st.answer),
        value: value_of(st.answer),
    }
}

// The run without the check, for a host that has checked its tables once: 18 with nothing touched, or the answer. It is safe on any
// bytes; what the theory says of runs holds where the check passes.
pub fn chamrolak_drive(
    sizes: &[u8],
    actions: &[u8],
    gotos: &[u8],
    productions: &[u8],
    tokens: &[u8],
    origin: u32,
    budget: u32,
    stack: &mut [u8],
    scratch: &mut [u8],
    nodes: &mut [u8],
    children: &mut [u8],
    records: &mut [u8],
    report: &mut [u8; 64],
) -> Returned
    ensures { (rights items sets : List ℕ) → Leaves (call_tables sizes.now actions.now gotos.now productions.now rights items sets) (drive_reply (call_tables sizes.now actions.now gotos.now productions.now rights items sets) tokens.now origin (limits_in (lent stack.old scratch.old nodes.old children.old records.old report.old) budget)) result (lent stack.old scratch.old nodes.old children.old records.old report.old) (lent stack.new scratch.new nodes.new children.new records.new report.new) }
{
    if !tokens_fit(tokens) {
        return Returned {
            number: 18,
            value: 0,
        };
    }
    let depth = depth_of(stack.len(), scratch.len());
    let g = given(sizes, actions, gotos, productions, tokens, origin, depth);
    let mut rooms = Rooms {
        stack,
        scratch,
        nodes,
        children,
        records,
    };
    answer_all(&g, &mut rooms, report, budget)
}

// The whole of document 01 in one call: the check, 18, the run.
pub fn chamrolak_parse(
    sizes: &[u8],
    actions: &[u8],
    gotos: &[u8],
    productions: &[u8],
    rights: &[u8],
    items: &[u8],
    sets: &[u8],
    tokens: &[u8],
    origin: u32,
    budget: u32,
    stack: &mut [u8],
    scratch: &mut [u8],
    nodes: &mut [u8],
    children: &mut [u8],
    records: &mut [u8],
    report: &mut [u8; 64],
) -> Returned
    ensures { Leaves (call_tables sizes.now actions.now gotos.now productions.now rights.now items.now sets.now) (parse_reply (call_tables sizes.now actions.now gotos.now productions.now rights.now items.now sets.now) tokens.now origin (limits_in (lent stack.old scratch.old nodes.old children.old records.old report.old) budget)) result (lent stack.old scratch.old nodes.old children.old records.old report.old) (lent stack.new scratch.new nodes.new children.new records.new report.new) }
{
    let tables = Tables::new(sizes, actions, gotos, productions, rights, items, sets);
    match checker::check(&tables) {
        Ok(()) => chamrolak_drive(
            sizes,
            actions,
            gotos,
            productions,
            tokens,
            origin,
            budget,
            stack,
            scratch,
            nodes,
            children,
            records,
            report,
        ),
        Err(refusal) => Returned::from(refusal),
    }
}
