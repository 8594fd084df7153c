// What a look does to the numbers of a run: it is counted, it ends the run, it goes on in another mode, it reads a token.
// Each function is the definition of the same name of the byte model. None writes to a room. The functions of a state are no methods:
// an `impl St` stands in crate `model` only, which has no functions but the derived ones, and the must-fail edits of this crate hold
// them here.
#![tactic(auto)]

ghost use Rattle.std.specs.Prelude.{Some, List, ◌≡◌, ℕ, ◌+◌, ◌<◌, ◌^◌, eqb};
ghost use Rattle.rules.specs.Tables.{flag};
ghost use Rattle.rules.specs.Driving.{answer_of};
ghost use Rattle.model.specs.Model.{Call, counted, ended, read_to, failing, searching, dropped, simulating, grown, judged, arrived, fail, drop_token, further};
ghost use Rattle.moves.specs.Serving.{Reads, Ahead, world};
ghost use Rattle.moves.specs.Bounds.{Safe};

use model::{Mode, St};
use rooms::{token_at, top_at};
use rules::{Answer, Formed, StateNo, Token};

// A call, but for its rooms: the tables' slices and sizes, whether the flag is 1, the tokens and how many they are, the start
// location and the depth that fits. The numbers stand beside the slices, since `Reads`, `Goes` and `Acts` speak of a call's own numbers, and
// `arrive` and `driver::begin` take any: so what bounds them, like a state's `next`, stays a clause.
#[derive(Clone, Copy)]
pub struct Given<'a> {
    pub actions: &'a [u8],
    pub gotos: &'a [u8],
    pub productions: &'a [u8],
    pub tokens: &'a [u8],
    pub states: usize,
    pub kinds: usize,
    pub nonterminals: usize,
    pub recovers: bool,
    pub count: usize,
    pub origin: u32,
    pub depth: usize,
}

// "One unit is one look at an action cell."
pub fn counted(st: St) -> St
    requires { st.units < 2 ^ 32 }
    ensures { result ≡ counted st }
{
    St {
        units: st.units + 1,
        ..st
    }
}

pub fn ended(st: St, answer: Answer) -> St
    ensures { result ≡ ended st answer }
{
    St {
        mode: Mode::Ended,
        answer,
        ..st
    }
}

// "Reading sets the last location to the token's end."
pub fn read_to(st: St, last: u32) -> St
    ensures { result ≡ read_to st last }
{
    St { last, ..st }
}

#[tactic(auto, unfolding(model::specs::Model::fail))]
pub fn failing(st: St, formed: Formed) -> St
    ensures { result ≡ failing st formed }
{
    St {
        mode: Mode::Column,
        formed,
        ..st
    }
}

pub fn searching(st: St, popped: usize) -> St
    ensures { result ≡ searching st popped }
{
    St {
        mode: Mode::Search,
        popped,
        ..st
    }
}

pub fn dropped(st: St) -> St
    requires { st.next < 2 ^ 32 }
    ensures { result ≡ dropped st }
{
    St {
        next: st.next + 1,
        mode: Mode::Search,
        popped: 0,
        ..st
    }
}

pub fn simulating(st: St, base: usize, pushed: usize) -> St
    ensures { result ≡ simulating st base pushed }
{
    St {
        mode: Mode::Simulate,
        base,
        pushed,
        ..st
    }
}

// One node more, and the entry at that height; so many child entries and records more; the next token.
pub fn grown(st: St, height: usize, kids: usize, marks: usize, next: usize, mode: Mode) -> St
    requires { (st.nodes < 2 ^ 32) × (st.children + kids < 2 ^ 33) × (st.records < 2 ^ 32) × (marks < 2 ^ 32) }
    ensures { result ≡ grown st height kids marks next mode }
{
    St {
        height,
        nodes: st.nodes + 1,
        children: st.children + kids,
        records: st.records + marks,
        next,
        mode,
        ..st
    }
}

// The token at `next`, if there is one.
#[tactic(auto, using(crate::specs::Serving::has_token_law, crate::specs::Serving::no_token_law))]
pub fn lookahead(g: &Given, st: St) -> Option<Token>
    requires { st.next < 2 ^ 32 }
    ensures { (C : Call) → Reads C g.now → Ahead C st result }
{
    if st.next < g.count {
        return Some(token_at(g.tokens, st.next));
    }
    None
}

// "Kind 65535 is the tokenizer's own error: answer 6, last location unchanged." "A kind not below t ends at once with answer 3, with
// no recovery, even while dropping."
#[tactic(auto, unfolding(model::specs::Model::judged))]
fn judge(g: &Given, st: St, token: Token, top: u32) -> St
    requires { st.next < 2 ^ 32 }
    ensures { (C : Call) → Reads C g.now → Ahead C st (Some token) → result ≡ judged C st top }
{
    if token.kind == 65535 {
        return ended(st, Answer::TokenizerError(st.next as u32));
    }
    let read = read_to(st, token.end);
    if (token.kind as usize) < g.kinds {
        return read;
    }
    ended(
        read,
        Answer::UnrecognizedToken(st.next as u32, StateNo(top)),
    )
}

// `next_token` of the Rust: the token at `next` is read, if there is one.
#[tactic(auto, unfolding(model::specs::Model::arrived))]
pub fn arrive(g: &Given, st: St, top: u32) -> St
    requires { st.next < 2 ^ 32 }
    ensures { (C : Call) → Reads C g.now → result ≡ arrived C st top }
{
    match lookahead(g, st) {
        Some(token) => judge(g, st, token, top),
        None => st,
    }
}

// The answer of the error that was formed, and not of one met later. `number` is 3 or 4, no enum: definition `answer_of` of `rules` and
// the record's first word in the byte model have it so.
#[tactic(auto, unfolding(rules::specs::Driving::answer_of))]
pub fn answer_of(f: Formed) -> Answer
    ensures { result ≡ answer_of f }
{
    match f.number {
        3 => Answer::UnrecognizedToken(f.at, f.top),
        _ => Answer::UnrecognizedEnd(f.at, f.top),
    }
}

// "Flag 0: an error cell gives 3, or 4 at the end, at once. Recovery, flag 1: form the error".
pub fn fail(g: &Given, st: St, f: Formed) -> St
    ensures { (C : Call) (stack scratch nodes children records : List ℕ) → eqb (flag C.tables) 1 ≡ g.now.recovers →
        world stack scratch nodes children records result ≡ fail C (world stack scratch nodes children records st) f }
{
    if g.recovers {
        return failing(st, f);
    }
    ended(st, answer_of(f))
}

// "No state: drop the lookahead, read on, search the same stack. At end of input with no state, answer the original error."
#[tactic(auto, using(crate::specs::Serving::has_token_law, crate::specs::Serving::no_token_law), unfolding(model::specs::Model::drop_token))]
fn drop_token(g: &Given, stack: &[u8], st: St) -> St
    requires { Safe g.now stack.now st }
    ensures { (C : Call) (scratch nodes children records : List ℕ) → Reads C g.now →
        world stack.now scratch nodes children records result ≡
        drop_token C (world stack.now scratch nodes children records st) }
{
    if st.next < g.count {
        return arrive(g, dropped(st), top_at(stack, st.height));
    }
    ended(st, answer_of(st.formed))
}

// "If the error cell is not a shift, look further down."
#[tactic(auto, unfolding(model::specs::Model::further))]
pub fn further(g: &Given, stack: &[u8], st: St) -> St
    requires { Safe g.now stack.now st }
    ensures { (C : Call) (scratch nodes children records : List ℕ) → Reads C g.now →
        world stack.now scratch nodes children records result ≡
        further C (world stack.now scratch nodes children records st) }
{
    if st.popped < st.height {
        return searching(st, st.popped + 1);
    }
    drop_token(g, stack, st)
}
