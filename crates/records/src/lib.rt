// Expected kinds as bit words, their count as the number of ones, and the record of a mark, which holds both.
// "Record, 16 words: error 3 or 4, token or location, stretch first, stretch after-last, dropped first (after-last if none), start,
// end, expected count as the number of ones, 8 words of expected bits (kind k at bit k mod 32 of word k/32)."
#![tactic(auto)]

ghost use Rattle.std.specs.Prelude.{◌≡◌, not, ◌+◌, ◌*◌, ◌≤◌, ◌<◌, ◌^◌, length};
ghost use Rattle.rules.specs.Tables.{Tables, is_error};
ghost use Rattle.rules.specs.Answers.{ones_of};
ghost use Rattle.model.specs.Model.{put_record};
ghost use Rattle.records.specs.Expected.{Row, Bound, expects_in, word_in, words_in};

use rooms::put_words;
use rules::{Cell, Entry, Formed};
use std::array;
use tables::cell_in;

// What says which kinds are expected: the action cells, how many states have a row there, and how many columns of a row are user kinds.
#[derive(Clone, Copy)]
pub struct Actions<'a> {
    pub bytes: &'a [u8],
    pub states: usize,
    pub kinds: usize,
    ghost fits: { (states < 2 ^ 17) × (kinds + 2 < 2 ^ 17) },
}

// Does this cell say anything?
fn is_said(cell: Cell) -> bool
    ensures { result ≡ not (is_error cell) }
{
    !matches!(cell, Cell::Error)
}

// How many bits of a word are of user kinds: past these no bit is set.
fn bits_in(kinds: usize, j: usize) -> usize
    requires { j < 8 }
    ensures { Bound kinds j result }
{
    kinds.saturating_sub(32 * j).min(32)
}

impl Actions<'_> {
    // "Expected kinds: user kinds whose cell in the top state is not 0."
    pub fn expects(self, state: usize, kind: usize) -> bool
        ensures { result ≡ expects_in self.entry.bytes.now self.entry.states self.entry.kinds state kind }
    {
        kind < self.kinds && is_said(cell_in(self.bytes, self.states, self.kinds + 2, state, kind))
    }

    // "kind k at bit k mod 32 of word k/32"
    pub fn expected_word(self, state: usize, j: usize) -> u32
        requires { j < 8 }
        ensures { result ≡ word_in self.entry.bytes.now self.entry.states self.entry.kinds state j }
    {
        let mut word = 0;
        for b in 0..bits_in(self.kinds, j) {
            if self.expects(state, 32 * j + b) {
                word += 1 << b;
            }
        }
        word
    }

    pub fn expected_words(self, state: usize) -> [u32; 8]
        ensures { result ≡ words_in self.entry.bytes.now self.entry.states self.entry.kinds state }
    {
        array::from_fn(|j| self.expected_word(state, j))
    }
}

// "expected count as the number of ones"
pub fn ones_of(words: [u32; 8]) -> u32
    ensures { result ≡ ones_of words }
{
    let mut ones = 0;
    for word in words {
        ones += word.count_ones();
    }
    ones
}

// The record number i, of the error that was formed and the entry of its mark.
pub fn put_record(actions: Actions, s: &mut [u8], i: usize, f: Formed, e: Entry)
    requires { 64 * i + 64 ≤ length s.old }
    ensures { (T : Tables) → Row T actions.entry.bytes.now actions.entry.states actions.entry.kinds → s.new ≡
        put_record T s.old i f e }
{
    let words = actions.expected_words(f.top.0 as usize);
    put_words(
        s,
        64 * i,
        [
            f.number,
            f.at,
            e.first,
            e.after,
            f.from,
            e.start,
            e.end,
            ones_of(words),
        ],
    );
    put_words(s, 64 * i + 32, words);
}
