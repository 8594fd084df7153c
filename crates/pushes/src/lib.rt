// Shift and reduce: the entry goes on the stack, with its node and its child entries, if the rooms have place for them.
// Each function is the definition of the same name of the byte model. A step that a limit stops writes nothing.
#![tactic(auto)]

ghost use Rattle.std.specs.Prelude.{List, ◌≡◌, ℕ, ◌+◌, ◌*◌, ◌≤◌, ◌<◌, ◌^◌, length};
ghost use Rattle.rules.specs.Tables.{target, goto, left};
ghost use Rattle.model.specs.Model.{Call, token_entry, shifted, shift, end_below, empty_spot, production_entry, reduced, reduce_over, reduce};
ghost use Rattle.moves.specs.Serving.{Reads, Goes, world};
ghost use Rattle.rooms.specs.Lent.{Same, world_of};
ghost use Rattle.moves.specs.Bounds.{Small, Safe};

use model::{Mode, St};
use moves::{Given, arrive, ended, grown, lookahead};
use rooms::{Rooms, copy_nodes, put_entry, put_node, symbol_at, token_at, top_at};
use rules::{Answer, Cell, Entry, ProdNo, StateNo, What};
use tables::{cell_in, left, size};

// "Each stack entry is a token, a mark or a production, with its span": here the lookahead.
#[tactic(auto, unfolding(model::specs::Model::token_entry))]
fn token_entry(g: &Given, st: St, to: StateNo) -> Entry
    requires { (st.next + 1 < 2 ^ 32) × (st.nodes < 2 ^ 32) }
    ensures { (C : Call) → Reads C g.now → result ≡ token_entry C st to }
{
    let token = token_at(g.tokens, st.next);
    Entry {
        what: What::Read(st.next as u32),
        start: token.start,
        end: token.end,
        first: st.next as u32,
        after: st.next as u32 + 1,
        state: to,
        node: st.nodes as u32,
    }
}

#[tactic(auto, unfolding(model::specs::Model::shifted, model::specs::Model::push))]
fn shifted(g: &Given, rooms: &mut Rooms, st: St, to: StateNo) -> St
    requires { Safe g.now rooms.old.stack.now st × (st.next < g.now.count) × (st.height + 2 ≤ g.now.depth) ×
        (32 * st.nodes + 32 ≤ length rooms.old.nodes.now) }
    ensures same { Same rooms.old rooms.new }
    ensures untouched { (rooms.new.scratch.now ≡ rooms.old.scratch.now) ×
        (rooms.new.children.now ≡ rooms.old.children.now) × (rooms.new.records.now ≡ rooms.old.records.now) }
    ensures shifts { (C : Call) → Reads C g.now → world_of rooms.new result ≡ shifted C (world_of rooms.old st) to }
{
    let e = token_entry(g, st, to);
    put_entry(rooms.stack, st.height, e);
    put_node(rooms.nodes, st.nodes, e, 0, 0);
    arrive(
        g,
        grown(st, st.height + 1, 0, 0, st.next + 1, Mode::Main),
        to.0,
    )
}

// "20 depth, .., 22 nodes, .. tested in that order: .. before what that look pushes."
#[tactic(auto, using(moves::specs::Serving::depth_fits_law, moves::specs::Serving::too_deep), unfolding(model::specs::Model::shift))]
pub fn shift(g: &Given, rooms: &mut Rooms, st: St, to: StateNo) -> St
    requires { Safe g.now rooms.old.stack.now st × (st.next < g.now.count) }
    ensures same { Same rooms.old rooms.new }
    ensures untouched { (rooms.new.scratch.now ≡ rooms.old.scratch.now) ×
        (rooms.new.children.now ≡ rooms.old.children.now) × (rooms.new.records.now ≡ rooms.old.records.now) }
    ensures shifts { (C : Call) → Reads C g.now → world_of rooms.new result ≡ shift C (world_of rooms.old st) to }
{
    if g.depth < st.height + 2 {
        return ended(st, Answer::OutOfDepth);
    }
    if rooms.nodes.len() / 32 < st.nodes + 1 {
        return ended(st, Answer::OutOfNodes);
    }
    shifted(g, rooms, st, to)
}

// The state that a cell goes to.
pub fn target(cell: Cell) -> u32
    ensures { result ≡ target cell }
{
    match cell {
        Cell::Shift(s) => s.0,
        _ => 0,
    }
}

// "Goto cells, by state and nonterminal": where the left side of a production leads from a state.
#[tactic(auto, using(moves::specs::Serving::goto_is, moves::specs::Serving::left_is))]
pub fn goto_state(g: &Given, top: u32, p: ProdNo) -> u32
    requires { Small g.now }
    ensures { (C : Call) → Goes C g.now → result ≡ target (goto C.tables top (left C.tables p.0)) }
{
    let side = left(g.productions, p.0 as usize);
    target(cell_in(g.gotos, g.states, g.nonterminals, top as usize, side))
}

// "the top symbol's end, else the start location"
#[tactic(auto, unfolding(model::specs::Model::end_below))]
pub fn end_below(origin: u32, stack: &[u8], rest: usize) -> u32
    requires { 32 * rest ≤ length stack.now }
    ensures { (C : Call) → C.origin ≡ origin → result ≡ end_below C stack.now rest }
{
    if rest == 0 {
        return origin;
    }
    symbol_at(stack, rest - 1).end
}

// "An empty one sits at the lookahead's start, else the top symbol's end, else the start location (our rule)."
#[tactic(auto, unfolding(model::specs::Model::empty_spot))]
fn empty_spot(g: &Given, stack: &[u8], st: St, rest: usize) -> u32
    requires { (st.next < 2 ^ 32) × (32 * rest ≤ length stack.now) }
    ensures { (C : Call) (scratch nodes children records : List ℕ) → Reads C g.now → result ≡
        empty_spot C (world stack.now scratch nodes children records st) rest }
{
    match lookahead(g, st) {
        Some(token) => token.start,
        None => end_below(g.origin, stack, rest),
    }
}

// "An empty .. production holds the lookahead's index twice".
// "A reduced symbol spans its first symbol's start to its last one's end."
#[tactic(auto, unfolding(model::specs::Model::production_entry))]
fn production_entry(g: &Given, stack: &[u8], st: St, p: ProdNo, k: usize, rest: usize) -> Entry
    requires { Safe g.now stack.now st × (rest + k ≡ st.height) }
    ensures { (C : Call) (scratch nodes children records : List ℕ) → Reads C g.now → Goes C g.now → result ≡
        production_entry C (world stack.now scratch nodes children records st) p.0 k rest }
{
    let (start, end, first, after) = if k == 0 {
        let spot = empty_spot(g, stack, st, rest);
        (spot, spot, st.next as u32, st.next as u32)
    } else {
        let bottom = symbol_at(stack, rest);
        let top = symbol_at(stack, st.height - 1);
        (bottom.start, top.end, bottom.first, top.after)
    };
    Entry {
        what: What::Production(p.0),
        start,
        end,
        first,
        after,
        state: StateNo(goto_state(g, top_at(stack, rest), p)),
        node: st.nodes as u32,
    }
}

// "an empty production's first child entry, are 0"
#[tactic(auto, unfolding(model::specs::Model::reduced, model::specs::Model::push))]
fn reduced(g: &Given, rooms: &mut Rooms, st: St, p: ProdNo, k: usize, rest: usize) -> St
    requires { Safe g.now rooms.old.stack.now st × (rest + k ≡ st.height) × (rest + 2 ≤ g.now.depth) ×
        (4 * (st.children + k) ≤ length rooms.old.children.now) × (32 * st.nodes + 32 ≤ length rooms.old.nodes.now) }
    ensures same { Same rooms.old rooms.new }
    ensures untouched { (rooms.new.scratch.now ≡ rooms.old.scratch.now) × (rooms.new.records.now ≡ rooms.old.records.now) }
    ensures reduces { (C : Call) → Reads C g.now → Goes C g.now → world_of rooms.new result ≡
        reduced C (world_of rooms.old st) p.0 k rest }
{
    let stack = &mut *rooms.stack;
    let e = production_entry(g, stack, st, p, k, rest);
    copy_nodes(rooms.children, st.children, stack, rest, k);
    put_entry(stack, rest, e);
    let child = if k == 0 { 0 } else { st.children as u32 };
    put_node(rooms.nodes, st.nodes, e, child, k as u32);
    grown(st, rest + 1, k, 0, st.next, st.mode)
}

// "Reduction: 20 (after its pops), 21, 22."
#[tactic(auto, using(moves::specs::Serving::depth_fits_law, moves::specs::Serving::too_deep), unfolding(model::specs::Model::reduce_over))]
fn reduce_over(g: &Given, rooms: &mut Rooms, st: St, p: ProdNo, k: usize, rest: usize) -> St
    requires { Safe g.now rooms.old.stack.now st × (rest + k ≡ st.height) }
    ensures same { Same rooms.old rooms.new }
    ensures untouched { (rooms.new.scratch.now ≡ rooms.old.scratch.now) × (rooms.new.records.now ≡ rooms.old.records.now) }
    ensures reduces { (C : Call) → Reads C g.now → Goes C g.now → world_of rooms.new result ≡
        reduce_over C (world_of rooms.old st) p.0 k rest }
{
    if g.depth < rest + 2 {
        return ended(st, Answer::OutOfDepth);
    }
    if rooms.children.len() / 4 < st.children + k {
        return ended(st, Answer::OutOfChildren);
    }
    if rooms.nodes.len() / 32 < st.nodes + 1 {
        return ended(st, Answer::OutOfNodes);
    }
    reduced(g, rooms, st, p, k, rest)
}

// Popping more than there is stops at the bottom: for tables that pass the check there is always enough.
#[tactic(auto, using(moves::specs::Serving::size_is), unfolding(model::specs::Model::reduce))]
pub fn reduce(g: &Given, rooms: &mut Rooms, st: St, p: ProdNo) -> St
    requires { Safe g.now rooms.old.stack.now st }
    ensures same { Same rooms.old rooms.new }
    ensures untouched { (rooms.new.scratch.now ≡ rooms.old.scratch.now) × (rooms.new.records.now ≡ rooms.old.records.now) }
    ensures reduces { (C : Call) → Reads C g.now → Goes C g.now → world_of rooms.new result ≡
        reduce C (world_of rooms.old st) p.0 }
{
    let k = size(g.productions, p.0 as usize).min(st.height);
    reduce_over(g, rooms, st, p, k, st.height - k)
}
