// The driver: a run begins, and goes on by steps, each one look at an action cell and what it then does.
// A run is the byte model's, for every call that the numbers and slices serve: `drive`, whose parts are `begin`, `run` and `step`.
// `Safe` stays a clause, no invariant of a struct of call, rooms and state: `begin`, and `moves::arrive`, which docs/MAP.md names, ask
// nothing of a call's sizes, so that the type would ask more of their callers.
#![tactic(auto)]

ghost use Rattle.std.specs.Prelude.{List, ◌≡◌, ℕ, ◌+◌, ◌*◌, ◌/◌, ◌≤◌, ◌<◌, ◌^◌, min, length};
ghost use Rattle.model.specs.Model.{Call, has_token, formed_at, fail, first_st, begin, step, is_ended, run_from};
ghost use Rattle.rooms.specs.Lent.{Same, world_of};
ghost use Rattle.moves.specs.Serving.{Reads, Serves, world};
ghost use Rattle.moves.specs.Bounds.{Small, Safe, Simulable};
ghost use Rattle.looks.specs.Deciding.{on_act, Sure};

use looks::{Act, decide};
use model::{Mode, St};
use moves::{Given, arrive, counted, ended, fail, further, lookahead, searching};
use pushes::{reduce, shift};
use recovery::{recover, simulate_on};
use rooms::{Rooms, top_at};
use rules::{Answer, Formed, StateNo};

// "State 0 starts": nothing is on the stack, and nothing is written.
#[tactic(auto, unfolding(model::specs::Model::first_st))]
fn first_st(origin: u32) -> St
    ensures { (result.next ≡ 0) × ((C : Call) → C.origin ≡ origin → result ≡ first_st C) }
{
    St {
        height: 0,
        nodes: 0,
        children: 0,
        records: 0,
        units: 0,
        next: 0,
        last: origin,
        mode: Mode::Main,
        formed: Formed {
            number: 0,
            at: 0,
            from: 0,
            top: StateNo(0),
        },
        popped: 0,
        base: 0,
        pushed: 0,
        answer: Answer::OutOfUnits,
    }
}

#[tactic(auto, using(moves::specs::Serving::depth_fits_law, moves::specs::Serving::too_deep), unfolding(model::specs::Model::begin))]
fn read_first(g: &Given, st: St) -> St
    requires { st.next < 2 ^ 32 }
    ensures { (C : Call) → Reads C g.now → st ≡ first_st C → result ≡ begin C }
{
    if g.depth < 1 {
        return ended(st, Answer::OutOfDepth);
    }
    arrive(g, st, 0)
}

// "Depth 0 is 20 at unit 0, after 10 to 18 and before all else."
pub fn begin(g: &Given) -> St
    ensures { (C : Call) → Reads C g.now → result ≡ begin C }
{
    read_first(g, first_st(g.origin))
}

// "3 unrecognized token: token, expected. 4 unrecognized end: last location, expected."
#[tactic(auto, unfolding(model::specs::Model::formed_at))]
fn formed_at(g: &Given, stack: &[u8], st: St) -> Formed
    requires { (st.next < 2 ^ 32) × (32 * st.height ≤ length stack.now) }
    ensures { (C : Call) (scratch nodes children records : List ℕ) → Reads C g.now → result ≡
        formed_at (world stack.now scratch nodes children records st) (has_token C st) }
{
    let from = st.next as u32;
    let top = StateNo(top_at(stack, st.height));
    let (number, at) = match lookahead(g, st) {
        Some(_) => (3, from),
        None => (4, st.last),
    };
    Formed {
        number,
        at,
        from,
        top,
    }
}

fn fail_now(g: &Given, stack: &[u8], st: St) -> St
    requires { (st.next < 2 ^ 32) × (32 * st.height ≤ length stack.now) }
    ensures { (C : Call) (scratch nodes children records : List ℕ) → Reads C g.now →
        world stack.now scratch nodes children records result ≡
        fail C (world stack.now scratch nodes children records st)
        (formed_at (world stack.now scratch nodes children records st) (has_token C st)) }
{
    fail(g, st, formed_at(g, stack, st))
}

// What a look decided is done. An enum with one `match`, which is no longer than closures would be and hands none on: each act has one
// place, so that the whole step is one function of the machine's code (docs/DECISIONS.md, "Each act of the driver has one call site").
#[tactic(auto, unfolding(looks::specs::Deciding::on_act))]
fn perform(g: &Given, rooms: &mut Rooms, st: St, act: Act) -> St
    requires { Safe g.now rooms.old.stack.now st × (4 * g.now.depth ≤ length rooms.old.scratch.now) ×
        Sure g.now st act }
    ensures same { Same rooms.old rooms.new }
    ensures performs { (C : Call) → Serves C g.now → world_of rooms.new result ≡ on_act C (world_of rooms.old st) act }
{
    match act {
        Act::ShiftTo(to) => shift(g, rooms, st, to),
        Act::ReduceBy(p) => reduce(g, rooms, st, p),
        Act::EndWith(answer) => ended(st, answer),
        Act::FailNow => fail_now(g, &mut *rooms.stack, st),
        Act::SearchTop => searching(st, 0),
        Act::LookFurther => further(g, &mut *rooms.stack, st),
        Act::SimulateFrom(base, pushed, s) => simulate_on(g, rooms.scratch, st, base, pushed, s),
        Act::Recover => recover(g, rooms, st),
        Act::Stay => st,
    }
}

// "One unit is one look at an action cell": the look is counted, whatever comes of it.
#[tactic(auto, using(crate::specs::Running::fine_counted, crate::specs::Running::simulable_counted), unfolding(model::specs::Model::step))]
pub fn step(g: &Given, rooms: &mut Rooms, st: St) -> St
    requires { Safe g.now rooms.old.stack.now st × Simulable (length rooms.old.stack.now)
        (length rooms.old.scratch.now) g.now.depth st × (st.units + 1 < 2 ^ 32) }
    ensures same { Same rooms.old rooms.new }
    ensures steps { (C : Call) → Serves C g.now → world_of rooms.new result ≡ step C (world_of rooms.old st) }
{
    let s = counted(st);
    // Lent by a name first: of a field that is passed on as a slice itself, the proof knows only the length.
    let stack = &mut *rooms.stack;
    let scratch = &mut *rooms.scratch;
    let act = decide(g, stack, scratch, s, st.mode);
    perform(g, rooms, s, act)
}

fn is_ended(mode: Mode) -> bool
    ensures { result ≡ is_ended mode }
{
    matches!(mode, Mode::Ended)
}

// "19 is given exactly if another is needed": that is the answer that a run has while it has not ended.
pub fn run(g: &Given, rooms: &mut Rooms, st: St, budget: u32) -> St
    requires { Safe g.now rooms.old.stack.now st × Simulable (length rooms.old.stack.now)
        (length rooms.old.scratch.now) g.now.depth st × (st.units + budget < 2 ^ 32) }
    ensures same { Same rooms.old rooms.new }
    ensures runs { (C : Call) → Serves C g.now → world_of rooms.new result ≡ run_from C budget (world_of rooms.old st) }
{
    let mut s = st;
    for _ in 0..budget {
        if is_ended(s.mode) {
            return s;
        }
        s = step(g, rooms, s);
    }
    s
}

// `Parser::drive` of the Rust: a run from its beginning.
pub fn drive(g: &Given, rooms: &mut Rooms, budget: u32) -> St
    requires { Small g.now × (32 * g.now.depth ≤ length rooms.old.stack.now) × (4 * g.now.depth ≤ length rooms.old.scratch.now) }
    ensures same { Same rooms.old rooms.new }
    ensures drives { (C : Call) → Serves C g.now → world_of rooms.new result ≡ run_from C budget (world_of rooms.old (begin C)) }
{
    run(g, rooms, begin(g), budget)
}

// "its limit is the shorter of stack and scratch room", in whole entries.
pub fn depth_of(stack: usize, scratch: usize) -> usize
    ensures { (result ≡ min (stack / 32) (scratch / 4)) × (32 * result ≤ stack) × (4 * result ≤ scratch) }
{
    (stack / 32).min(scratch / 4)
}
