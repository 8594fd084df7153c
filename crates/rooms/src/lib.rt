// The lent rooms, written and read: each function is the definition of the same name of the byte model, on the bytes of one room.
// Three are for words in a row: `put_words`, and `symbol_at` and `token_at`, whose contracts name the definition of each word.
// A room is written by whole entries, and read at whole entries, so that its place inside the room is the only thing asked.
#![tactic(auto)]

ghost use Rattle.std.specs.Prelude.{◌≡◌, ◌+◌, ◌*◌, ◌≤◌, ◌<◌, ◌^◌, length};
ghost use Rattle.words.specs.Words.{word32};
ghost use Rattle.rules.specs.Answers.{kind_of, which_of};
ghost use Rattle.rooms.specs.Put.{put_words};
ghost use Rattle.model.specs.Bytes.{put_entry, put_node, state_at, node_at, start_at, end_at, first_at, after_at, top_at, copy_nodes, scratch_at, sim_top};

use rules::{Entry, Token, What};
use words::Word;

// The rooms that a caller lends for a run.
#[derive(Drop)]
pub struct Rooms<'a> {
    pub stack: &'a mut [u8],
    pub scratch: &'a mut [u8],
    pub nodes: &'a mut [u8],
    pub children: &'a mut [u8],
    pub records: &'a mut [u8],
}

// Words, one behind the other: the compiler unrolls the loop, for four words and for eight.
pub fn put_words<const N: usize>(s: &mut [u8], at: usize, words: [u32; N])
    requires { at + 4 * N ≤ length s.old }
    ensures { s.new ≡ put_words s.old at words.entry }
{
    for (i, word) in words.iter().enumerate() {
        u32::put(s, at + 4 * i, *word);
    }
}

// "kind (0 token, 1 mark, 2 production), number (of that token, record or production)". Functions and no `From`, which would have to
// stand in `rules`, and that has none but the derived ones.
pub fn kind_of(w: What) -> u32
    ensures { result ≡ kind_of w }
{
    match w {
        What::Read(_) => 0,
        What::Mark(_) => 1,
        What::Production(_) => 2,
    }
}

pub fn which_of(w: What) -> u32
    ensures { result ≡ which_of w }
{
    match w {
        What::Read(i) | What::Mark(i) | What::Production(i) => i,
    }
}

// "Each stack entry is a token, a mark or a production, with its span."
pub fn put_entry(s: &mut [u8], i: usize, e: Entry)
    requires { 32 * i + 32 ≤ length s.old }
    ensures { s.new ≡ put_entry s.old i e }
{
    put_words(
        s,
        32 * i,
        [
            e.state.0,
            e.node,
            kind_of(e.what),
            which_of(e.what),
            e.start,
            e.end,
            e.first,
            e.after,
        ],
    );
}

// Nodes name their children by index, and no `Box`: the host lends the rooms and reads them by document 01's words.
// "Node, 8 words: kind .., number .., first child entry, child count, start, end, first token, token after the last."
pub fn put_node(s: &mut [u8], i: usize, e: Entry, child: u32, count: u32)
    requires { 32 * i + 32 ≤ length s.old }
    ensures { s.new ≡ put_node s.old i e child count }
{
    put_words(
        s,
        32 * i,
        [
            kind_of(e.what),
            which_of(e.what),
            child,
            count,
            e.start,
            e.end,
            e.first,
            e.after,
        ],
    );
}

// A symbol on the stack: of its entry, the words that a run reads again.
#[derive(Clone, Copy)]
pub struct Symbol {
    pub state: u32,
    pub node: u32,
    pub start: u32,
    pub end: u32,
    pub first: u32,
    pub after: u32,
}

// The words of a stack entry.
#[tactic(auto, unfolding(model::specs::Bytes::state_at, model::specs::Bytes::node_at, model::specs::Bytes::start_at, model::specs::Bytes::end_at, model::specs::Bytes::first_at, model::specs::Bytes::after_at))]
pub fn symbol_at(s: &[u8], i: usize) -> Symbol
    requires { 32 * i + 32 ≤ length s.now }
    ensures { (result.state ≡ state_at s.now i) × (result.node ≡ node_at s.now i) ×
        (result.start ≡ start_at s.now i) × (result.end ≡ end_at s.now i) ×
        (result.first ≡ first_at s.now i) × (result.after ≡ after_at s.now i) }
{
    Symbol {
        state: u32::get(s, 32 * i),
        node: u32::get(s, 32 * i + 4),
        start: u32::get(s, 32 * i + 16),
        end: u32::get(s, 32 * i + 20),
        first: u32::get(s, 32 * i + 24),
        after: u32::get(s, 32 * i + 28),
    }
}

// "State 0 starts": the top state of a stack of that height.
#[tactic(auto, unfolding(model::specs::Bytes::top_at))]
pub fn top_at(s: &[u8], height: usize) -> u32
    requires { 32 * height ≤ length s.now }
    ensures { result ≡ top_at s.now height }
{
    if height == 0 {
        return 0;
    }
    symbol_at(s, height - 1).state
}

// The nodes of n stack entries become child entries, in the input's order.
pub fn copy_nodes(children: &mut [u8], at: usize, stack: &[u8], from: usize, n: usize)
    requires { (4 * (at + n) ≤ length children.old) × (32 * (from + n) ≤ length stack.now) }
    ensures { children.new ≡ copy_nodes n children.old at stack.now from }
{
    for i in 0..n {
        u32::put(children, 4 * (at + i), symbol_at(stack, from + i).node);
    }
}

// The simulated stack: a state of the scratch room, and the top, which is of the real stack where nothing is pushed.
#[tactic(auto, unfolding(model::specs::Bytes::scratch_at))]
pub fn scratch_at(s: &[u8], i: usize) -> u32
    requires { 4 * i + 4 ≤ length s.now }
    ensures { result ≡ scratch_at s.now i }
{
    u32::get(s, 4 * i)
}

#[tactic(auto, unfolding(model::specs::Bytes::sim_top))]
pub fn sim_top(stack: &[u8], scratch: &[u8], base: usize, pushed: usize) -> u32
    requires { (32 * base ≤ length stack.now) × (4 * pushed ≤ length scratch.now) }
    ensures { result ≡ sim_top stack.now scratch.now base pushed }
{
    if pushed == 0 {
        return top_at(stack, base);
    }
    scratch_at(scratch, pushed - 1)
}

// "A token is (kind, start, end)": past the list's end each word is 0.
pub fn token_at(tokens: &[u8], i: usize) -> Token
    requires { i < 2 ^ 40 }
    ensures { (result.kind ≡ word32 tokens.now (12 * i)) × (result.start ≡ word32 tokens.now (12 * i + 4)) ×
        (result.end ≡ word32 tokens.now (12 * i + 8)) }
{
    Token {
        kind: u32::word(tokens, 12 * i),
        start: u32::word(tokens, 12 * i + 4),
        end: u32::word(tokens, 12 * i + 8),
    }
}
