// One look at an action cell, for each mode of a run: what the run then does. These functions read only, and decide.
// Each says of the byte model that the mode's look is the act that was decided.
#![tactic(auto)]

ghost use Rattle.std.specs.Prelude.{List, ◌≡◌, ℕ, ◌*◌, ◌-◌, ◌≤◌, ◌<◌, ◌^◌, eqb, length};
ghost use Rattle.words.specs.Words.{pick};
ghost use Rattle.rules.specs.declared.Cell.TheVariants.{Shift};
ghost use Rattle.rules.specs.Tables.{action};
ghost use Rattle.model.specs.declared.Mode.TheVariants.{Main, Column, Search, Simulate};
ghost use Rattle.model.specs.Bytes.{node_at};
ghost use Rattle.model.specs.Model.{Call, has_token, look_column, main_look, main_reduce, column_reduce, simulate_reduce, look};
ghost use Rattle.moves.specs.Serving.{Reads, Goes, Acts, Serves, world};
ghost use Rattle.moves.specs.Bounds.{Small, Safe, Simulable, Within};
ghost use Rattle.moves.specs.declared.Given.{Given};
ghost use Rattle.looks.specs.Deciding.{on_act, Sure};

use model::{Mode, St};
use moves::{Given, lookahead};
use pushes::goto_state;
use recovery::error_cell;
use rooms::{sim_top, symbol_at, top_at};
use rules::{Answer, Cell, ProdNo, StateNo};
use tables::{cell_in, size};

// What a look decides. `SimulateFrom` has the entries of the real stack, the states pushed above them, and the next state. It is an enum
// and no closure that is called: looks of two modes decide the same act, and each act may have one call site only (driver::perform).
#[derive(Clone, Copy)]
pub enum Act {
    ShiftTo(StateNo),
    ReduceBy(ProdNo),
    EndWith(Answer),
    FailNow,
    SearchTop,
    LookFurther,
    SimulateFrom(usize, usize, u32),
    Recover,
    Stay,
}

// The lookahead's column: "t+1 is end of input".
#[tactic(auto, unfolding(model::specs::Model::look_column))]
fn look_column(g: &Given, st: St) -> usize
    requires { Small g.now × (st.next < 2 ^ 32) }
    ensures { (C : Call) → Reads C g.now → result ≡ look_column C st }
{
    match lookahead(g, st) {
        Some(token) => token.kind as usize,
        None => g.kinds + 1,
    }
}

// The cell of a state under the lookahead.
#[tactic(auto, using(moves::specs::Serving::action_is))]
fn cell_under(g: &Given, st: St, top: u32) -> Cell
    requires { Small g.now × (st.next < 2 ^ 32) }
    ensures { (C : Call) → Reads C g.now → Acts C g.now → result ≡
        action C.tables top (look_column C st) }
{
    cell_in(
        g.actions,
        g.states,
        g.kinds + 2,
        top as usize,
        look_column(g, st),
    )
}

// The node of the only symbol over which production 0 is reduced.
fn root_at(stack: &[u8], height: usize) -> u32
    requires { 32 * height ≤ length stack.now }
    ensures { result ≡ pick (eqb height 0) 0 (node_at stack.now (height - 1)) }
{
    if height == 0 {
        return 0;
    }
    symbol_at(stack, height - 1).node
}

// At the end of input, `parse_eof` of the Rust, a shift is no shift. A test and no `match` on `lookahead`: `Sure` speaks of the count.
#[tactic(auto, using(moves::specs::Serving::has_token_law, moves::specs::Serving::no_token_law), unfolding(model::specs::Model::main_look, crate::specs::Deciding::on_act))]
fn main_shift(g: &Given, st: St, to: StateNo) -> Act
    ensures sure { Sure g.now st result }
    ensures decides { (C : Call) (stack scratch nodes children records : List ℕ) → Reads C g.now →
        main_look C (world stack scratch nodes children records st) (has_token C st) (Shift to) ≡
        on_act C (world stack scratch nodes children records st) result }
{
    if st.next < g.count {
        return Act::ShiftTo(to);
    }
    Act::FailNow
}

// "Production 0 under a lookahead token in the main loop is answer 5."
#[tactic(auto, unfolding(model::specs::Model::main_reduce, model::specs::Model::root_at, crate::specs::Deciding::on_act))]
fn main_accept(g: &Given, stack: &[u8], st: St) -> Act
    requires { (st.next < 2 ^ 32) × (32 * st.height ≤ length stack.now) }
    ensures sure { Sure g.now st result }
    ensures decides { (C : Call) (scratch nodes children records : List ℕ) → Reads C g.now →
        main_reduce C (world stack.now scratch nodes children records st) (has_token C st) 0 ≡
        on_act C (world stack.now scratch nodes children records st) result }
{
    match lookahead(g, st) {
        Some(_) => Act::EndWith(Answer::ExtraToken(st.next as u32)),
        None => Act::EndWith(Answer::Accepted(root_at(stack, st.height))),
    }
}

// "reducing it accepts, and builds no node"
#[tactic(auto, using(crate::specs::Cases::main_more), unfolding(crate::specs::Deciding::on_act))]
fn main_reduce(g: &Given, stack: &[u8], st: St, p: ProdNo) -> Act
    requires { (st.next < 2 ^ 32) × (32 * st.height ≤ length stack.now) }
    ensures sure { Sure g.now st result }
    ensures decides { (C : Call) (scratch nodes children records : List ℕ) → Reads C g.now →
        main_reduce C (world stack.now scratch nodes children records st) (has_token C st) p.0 ≡
        on_act C (world stack.now scratch nodes children records st) result }
{
    if p.0 == 0 {
        return main_accept(g, stack, st);
    }
    Act::ReduceBy(p)
}

// A look of the main loop.
#[tactic(auto, using(crate::specs::Cases::main_reduces, crate::specs::Cases::main_fails), unfolding(model::specs::Model::look, crate::specs::Deciding::on_act))]
pub fn main_look(g: &Given, stack: &[u8], st: St) -> Act
    requires { Safe g.now stack.now st }
    ensures sure { Sure g.now st result }
    ensures decides { (C : Call) (scratch nodes children records : List ℕ) → Reads C g.now →
        Acts C g.now → look C (world stack.now scratch nodes children records st) Main ≡
        on_act C (world stack.now scratch nodes children records st) result }
{
    match cell_under(g, st, top_at(stack, st.height)) {
        Cell::Shift(to) => main_shift(g, st, to),
        Cell::Reduce(p) => main_reduce(g, stack, st, p),
        Cell::Error => Act::FailNow,
    }
}

// "If production 0 is reached there, answer 2, as the Rust's success."
#[tactic(auto, using(crate::specs::Cases::column_more), unfolding(model::specs::Model::column_reduce, model::specs::Model::root_at, crate::specs::Deciding::on_act))]
fn column_reduce(stack: &[u8], st: St, p: ProdNo) -> Act
    requires { 32 * st.height ≤ length stack.now }
    ensures sure { (g : Given) → Sure g st result }
    ensures decides { (C : Call) (scratch nodes children records : List ℕ) →
        column_reduce C (world stack.now scratch nodes children records st) p.0 ≡
        on_act C (world stack.now scratch nodes children records st) result }
{
    if p.0 == 0 {
        return Act::EndWith(Answer::AcceptedEarly(root_at(stack, st.height), st.formed.from));
    }
    Act::ReduceBy(p)
}

// "then reduce by the error column until its cell is no reduce": only then is the stack searched.
#[tactic(auto, unfolding(model::specs::Model::look, model::specs::Model::column_look, crate::specs::Deciding::on_act))]
pub fn column_look(g: &Given, stack: &[u8], st: St) -> Act
    requires { Safe g.now stack.now st }
    ensures sure { Sure g.now st result }
    ensures decides { (C : Call) (scratch nodes children records : List ℕ) → Acts C g.now →
        look C (world stack.now scratch nodes children records st) Column ≡
        on_act C (world stack.now scratch nodes children records st) result }
{
    match error_cell(g, stack, st.height) {
        Cell::Reduce(p) => column_reduce(stack, st, p),
        Cell::Shift(_) | Cell::Error => Act::SearchTop,
    }
}

// "Then look at states from the top down. If the error cell is not a shift, look further down. Otherwise simulate the lookahead
// above that shift".
#[tactic(auto, unfolding(model::specs::Model::look, model::specs::Model::search_look, crate::specs::Deciding::on_act))]
pub fn search_look(g: &Given, stack: &[u8], st: St) -> Act
    requires { Safe g.now stack.now st × (st.popped ≤ st.height) }
    ensures sure { Sure g.now st result }
    ensures decides { (C : Call) (scratch nodes children records : List ℕ) → Acts C g.now →
        look C (world stack.now scratch nodes children records st) Search ≡
        on_act C (world stack.now scratch nodes children records st) result }
{
    let rest = st.height - st.popped;
    let Cell::Shift(s) = error_cell(g, stack, rest) else {
        return Act::LookFurther;
    };
    Act::SimulateFrom(rest, 0, s.0)
}

// A simulated reduction pops the pushed states first, and then what they stand on.
#[tactic(auto, using(crate::specs::Cases::simulate_more, moves::specs::Serving::size_is), unfolding(model::specs::Model::simulate_over, crate::specs::Deciding::on_act))]
fn simulate_pop(g: &Given, stack: &[u8], scratch: &[u8], st: St, p: ProdNo) -> Act
    requires { Small g.now × Simulable (length stack.now) (length scratch.now) g.now.depth st × (0 < p.0) }
    ensures sure { Sure g.now st result }
    ensures decides { (C : Call) (nodes children records : List ℕ) → Goes C g.now →
        simulate_reduce C (world stack.now scratch.now nodes children records st) p.0 ≡
        on_act C (world stack.now scratch.now nodes children records st) result }
{
    let n = size(g.productions, p.0 as usize);
    let base = st.base.saturating_sub(n.saturating_sub(st.pushed));
    let pushed = st.pushed.saturating_sub(n);
    let top = sim_top(stack, scratch, base, pushed);
    Act::SimulateFrom(base, pushed, goto_state(g, top, p))
}

// "production 0 yes"
#[tactic(auto, unfolding(model::specs::Model::simulate_reduce, crate::specs::Deciding::on_act))]
fn simulate_reduce(g: &Given, stack: &[u8], scratch: &[u8], st: St, p: ProdNo) -> Act
    requires { Small g.now × Simulable (length stack.now) (length scratch.now) g.now.depth st × Within Simulate g.now.depth
        st.popped st.height }
    ensures sure { Sure g.now st result }
    ensures decides { (C : Call) (nodes children records : List ℕ) → Goes C g.now →
        simulate_reduce C (world stack.now scratch.now nodes children records st) p.0 ≡
        on_act C (world stack.now scratch.now nodes children records st) result }
{
    if p.0 == 0 {
        return Act::Recover;
    }
    simulate_pop(g, stack, scratch, st, p)
}

// `accepts` of the Rust, a look at a time: "error cell no, shift yes, production 0 yes".
#[tactic(auto, unfolding(model::specs::Model::look, model::specs::Model::simulate_look, crate::specs::Deciding::on_act))]
pub fn simulate_look(g: &Given, stack: &[u8], scratch: &[u8], st: St) -> Act
    requires { Small g.now × (st.next < 2 ^ 32) × Simulable (length stack.now) (length scratch.now) g.now.depth st ×
        Within Simulate g.now.depth st.popped st.height }
    ensures sure { Sure g.now st result }
    ensures decides { (C : Call) (nodes children records : List ℕ) → Serves C g.now →
        look C (world stack.now scratch.now nodes children records st) Simulate ≡
        on_act C (world stack.now scratch.now nodes children records st) result }
{
    let top = sim_top(stack, scratch, st.base, st.pushed);
    match cell_under(g, st, top) {
        Cell::Shift(_) => Act::Recover,
        Cell::Reduce(p) => simulate_reduce(g, stack, scratch, st, p),
        Cell::Error => Act::LookFurther,
    }
}

// What a look decides in the mode that the run is in. A `match`: a table of functions or closures would say no more and be no shorter.
#[tactic(auto, unfolding(model::specs::Model::look, crate::specs::Deciding::on_act))]
pub fn decide(g: &Given, stack: &[u8], scratch: &[u8], st: St, mode: Mode) -> Act
    requires { Safe g.now stack.now st × Simulable (length stack.now)
        (length scratch.now) g.now.depth st × Within mode g.now.depth st.popped st.height }
    ensures sure { Sure g.now st result }
    ensures decides { (C : Call) (nodes children records : List ℕ) → Serves C g.now →
        look C (world stack.now scratch.now nodes children records st) mode ≡
        on_act C (world stack.now scratch.now nodes children records st) result }
{
    match mode {
        Mode::Main => main_look(g, stack, st),
        Mode::Column => column_look(g, stack, st),
        Mode::Search => search_look(g, stack, st),
        Mode::Simulate => simulate_look(g, stack, scratch, st),
        Mode::Ended => Act::Stay,
    }
}
