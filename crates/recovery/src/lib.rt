// Error recovery: the simulated stack (`accepts` of the Rust), and the mark that is put where the search ended.
// Each function is the definition of the same name of the byte model.
#![tactic(auto)]

ghost use Rattle.std.specs.Prelude.{List, ◌≡◌, ℕ, ◌+◌, ◌*◌, ◌≤◌, ◌<◌, ◌^◌, eqb, length};
ghost use Rattle.words.specs.Words.{pick};
ghost use Rattle.rules.specs.Tables.{target, action, error_column};
ghost use Rattle.model.specs.Bytes.{top_at, first_at};
ghost use Rattle.model.specs.Model.{Call, push_state, simulate_on, mark_start, mark_end, mark_entry, marked, recover};
ghost use Rattle.rooms.specs.Lent.{Same, world_of};
ghost use Rattle.moves.specs.Serving.{Reads, Acts, world};
ghost use Rattle.moves.specs.Bounds.{Small, Fine, Safe};

use model::{Mode, St};
use moves::{Given, ended, grown, lookahead, simulating};
use pushes::{end_below, target};
use records::{Actions, put_record};
use rooms::{Rooms, put_entry, put_node, symbol_at, token_at, top_at};
use rules::{Answer, Cell, Entry, StateNo, What};
use tables::cell_in;
use words::Word;

#[tactic(auto, unfolding(model::specs::Model::push_state))]
fn push_state(scratch: &mut [u8], st: St, base: usize, pushed: usize, s: u32) -> St
    requires { 4 * pushed + 4 ≤ length scratch.old }
    ensures { (stack nodes children records : List ℕ) → world stack scratch.new nodes children records result ≡
        push_state (world stack scratch.old nodes children records st) base pushed s }
{
    u32::put(scratch, 4 * pushed, s);
    simulating(st, base, pushed + 1)
}

// "Depth counts states, real or simulated, the first included".
#[tactic(auto, unfolding(model::specs::Model::simulate_on))]
pub fn simulate_on(g: &Given, scratch: &mut [u8], st: St, base: usize, pushed: usize, s: u32) -> St
    requires { (4 * g.now.depth ≤ length scratch.old) × (base + pushed < 2 ^ 63) }
    ensures { (C : Call) (stack nodes children records : List ℕ) → C.depth ≡ g.now.depth →
        world stack scratch.new nodes children records result ≡
        simulate_on C (world stack scratch.old nodes children records st) base pushed s }
{
    if g.depth < base + pushed + 2 {
        return ended(st, Answer::OutOfDepth);
    }
    push_state(scratch, st, base, pushed, s)
}

// "Mark start: the first popped symbol's start; else the first dropped token's; else the end of the symbol below; else the start
// location."
#[tactic(auto, unfolding(model::specs::Model::mark_start, model::specs::Model::has_dropped))]
fn mark_start(g: &Given, stack: &[u8], st: St, rest: usize) -> u32
    requires { Fine (length stack.now) g.now.depth g.now.count st × (rest + st.popped ≡ st.height) }
    ensures { (C : Call) (scratch nodes children records : List ℕ) → Reads C g.now → result ≡
        mark_start C (world stack.now scratch nodes children records st) rest }
{
    let from = st.formed.from as usize;
    if st.popped != 0 {
        symbol_at(stack, rest).start
    } else if from < st.next {
        token_at(g.tokens, from).start
    } else {
        end_below(g.origin, stack, rest)
    }
}

// "Mark end: the last dropped token's end; else, if anything popped, the last symbol's end; else the lookahead's start; else the mark's
// start."
#[tactic(auto, unfolding(model::specs::Model::mark_end, model::specs::Model::has_dropped))]
fn mark_end(g: &Given, stack: &[u8], st: St, start: u32) -> u32
    requires { Safe g.now stack.now st × (st.popped ≤ st.height) }
    ensures { (C : Call) (scratch nodes children records : List ℕ) (rest : ℕ) → Reads C g.now →
        start ≡ mark_start C (world stack.now scratch nodes children records st) rest → result ≡
        mark_end C (world stack.now scratch nodes children records st) rest }
{
    if (st.formed.from as usize) < st.next {
        return token_at(g.tokens, st.next - 1).end;
    }
    if st.popped != 0 {
        return symbol_at(stack, st.height - 1).end;
    }
    match lookahead(g, st) {
        Some(token) => token.start,
        None => start,
    }
}

// "Its stretch is the tokens under popped symbols, popped marks' stretches included, then the dropped ones."
fn mark_first(stack: &[u8], st: St, rest: usize) -> u32
    requires { (32 * st.height ≤ length stack.now) × (rest + st.popped ≡ st.height) }
    ensures { result ≡ pick (eqb st.popped 0) st.formed.from (first_at stack.now rest) }
{
    if st.popped == 0 {
        return st.formed.from;
    }
    symbol_at(stack, rest).first
}

// The error cell of the state below which so many symbols lie.
#[tactic(auto, using(moves::specs::Serving::action_is))]
pub fn error_cell(g: &Given, stack: &[u8], height: usize) -> Cell
    requires { Small g.now × (32 * height ≤ length stack.now) }
    ensures { (C : Call) → Acts C g.now → result ≡ action C.tables
        (top_at stack.now height) (error_column C.tables) }
{
    cell_in(
        g.actions,
        g.states,
        g.kinds + 2,
        top_at(stack, height) as usize,
        g.kinds,
    )
}

// "The repeated look that places the mark is free."
fn error_state(g: &Given, stack: &[u8], rest: usize) -> u32
    requires { Small g.now × (32 * rest ≤ length stack.now) }
    ensures { (C : Call) → Acts C g.now → result ≡ target (action C.tables
        (top_at stack.now rest) (error_column C.tables)) }
{
    target(error_cell(g, stack, rest))
}

#[tactic(auto, unfolding(model::specs::Model::mark_entry))]
fn mark_entry(g: &Given, stack: &[u8], st: St, rest: usize) -> Entry
    requires { Safe g.now stack.now st × (rest + st.popped ≡ st.height) }
    ensures { (C : Call) (scratch nodes children records : List ℕ) → Reads C g.now → Acts C g.now → result ≡
        mark_entry C (world stack.now scratch nodes children records st) rest }
{
    let start = mark_start(g, stack, st, rest);
    Entry {
        what: What::Mark(st.records as u32),
        start,
        end: mark_end(g, stack, st, start),
        first: mark_first(stack, st, rest),
        after: st.next as u32,
        state: StateNo(error_state(g, stack, rest)),
        node: st.nodes as u32,
    }
}

#[tactic(auto, unfolding(model::specs::Model::marked, model::specs::Model::push))]
fn marked(g: &Given, rooms: &mut Rooms, st: St, rest: usize, e: Entry) -> St
    requires { Safe g.now rooms.old.stack.now st × (32 * rest + 32 ≤ length rooms.old.stack.now) ×
        (32 * st.nodes + 32 ≤ length rooms.old.nodes.now) × (64 * st.records + 64 ≤ length rooms.old.records.now) }
    ensures same { Same rooms.old rooms.new }
    ensures untouched { (rooms.new.scratch.now ≡ rooms.old.scratch.now) × (rooms.new.children.now ≡ rooms.old.children.now) }
    ensures marks { (C : Call) → Acts C g.now → world_of rooms.new result ≡ marked C (world_of rooms.old st) rest e }
{
    let actions = Actions {
        bytes: g.actions,
        states: g.states,
        kinds: g.kinds,
    };
    put_record(actions, rooms.records, st.records, st.formed, e);
    put_entry(rooms.stack, rest, e);
    put_node(rooms.nodes, st.nodes, e, 0, 0);
    grown(st, rest + 1, 0, 1, st.next, Mode::Main)
}

// The entry is made before it is written: it is read off the popped symbols.
fn mark(g: &Given, rooms: &mut Rooms, st: St, rest: usize) -> St
    requires { Safe g.now rooms.old.stack.now st × (rest + st.popped ≡ st.height) ×
        (32 * rest + 32 ≤ length rooms.old.stack.now) × (32 * st.nodes + 32 ≤ length rooms.old.nodes.now) ×
        (64 * st.records + 64 ≤ length rooms.old.records.now) }
    ensures same { Same rooms.old rooms.new }
    ensures untouched { (rooms.new.scratch.now ≡ rooms.old.scratch.now) × (rooms.new.children.now ≡ rooms.old.children.now) }
    ensures marks { (C : Call) → Reads C g.now → Acts C g.now → world_of rooms.new result ≡
        marked C (world_of rooms.old st) rest (mark_entry C (world_of rooms.old st) rest) }
{
    let stack = &mut *rooms.stack;
    let e = mark_entry(g, stack, st, rest);
    marked(g, rooms, st, rest, e)
}

// "Mark: 22, 23." The depth was tested where the error state went on the simulated stack, so that a mark never gives 20.
#[tactic(auto, unfolding(model::specs::Model::recover, model::specs::Model::place_mark))]
pub fn recover(g: &Given, rooms: &mut Rooms, st: St) -> St
    requires { Safe g.now rooms.old.stack.now st × (st.popped ≤ st.height) × (st.height + 2 ≤ g.now.depth + st.popped) }
    ensures same { Same rooms.old rooms.new }
    ensures untouched { (rooms.new.scratch.now ≡ rooms.old.scratch.now) × (rooms.new.children.now ≡ rooms.old.children.now) }
    ensures recovers { (C : Call) → Reads C g.now → Acts C g.now → world_of rooms.new result ≡ recover C (world_of rooms.old st) }
{
    let rest = st.height - st.popped;
    if rooms.nodes.len() / 32 < st.nodes + 1 {
        return ended(st, Answer::OutOfNodes);
    }
    if rooms.records.len() / 64 < st.records + 1 {
        return ended(st, Answer::OutOfRecords);
    }
    mark(g, rooms, st, rest)
}
