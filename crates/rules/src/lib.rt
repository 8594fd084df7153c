// The types that contracts and definitions share. Document 01 itself is in specs/: this crate has no functions but the derived ones.
#![tactic(auto)]

// "A state number and a production number are two kinds and may not be mixed." Both are wide enough for every cell width.
#[derive(Clone, Copy, Debug, PartialEq, Eq)]
pub struct StateNo(pub u32);

#[derive(Clone, Copy, Debug, PartialEq, Eq)]
pub struct ProdNo(pub u32);

// What an action cell says. A goto cell is read the same way: it shifts to a state, or it is an error, "none".
#[derive(Clone, Copy, Debug, PartialEq, Eq)]
pub enum Cell {
    Shift(StateNo),
    Reduce(ProdNo),
    Error,
}

// The check's error: the refusal's number in document 01, and its place. Kept as a number: the theorems `check_refuses` and
// `one_number_and_place` of lr speak of all numbers, and C is returned it.
#[derive(Clone, Copy, Debug, PartialEq, Eq)]
pub struct Refusal {
    pub number: u32,
    pub place: u32,
}

// "A token is (kind, start, end)."
#[derive(Clone, Copy, Debug, PartialEq, Eq)]
pub struct Token {
    pub kind: u32,
    pub start: u32,
    pub end: u32,
}

// What a stack entry or a node stands for: the token, the record or the production of that number.
#[derive(Clone, Copy, Debug, PartialEq, Eq)]
pub enum What {
    Read(u32),
    Mark(u32),
    Production(u32),
}

// "Each stack entry is a token, a mark or a production, with its span." Beside these: its tokens (the first, and the one after
// the last), its state and its node.
#[derive(Clone, Copy, Debug, PartialEq, Eq)]
pub struct Entry {
    pub what: What,
    pub start: u32,
    pub end: u32,
    pub first: u32,
    pub after: u32,
    pub state: StateNo,
    pub node: u32,
}

// The error that recovery has formed: answer 3 or 4, its token or location, the lookahead's index where it arose, and the top
// state of that moment, whose row says which kinds were expected. Its number is kept as a number and is no enum: the definitions
// `formed`, `answer_of` and `record_words` of specs/ make, test and write it, and may not change.
#[derive(Clone, Copy, Debug, PartialEq, Eq)]
pub struct Formed {
    pub number: u32,
    pub at: u32,
    pub from: u32,
    pub top: StateNo,
}

// How a run ends. The two unrecognized ones name the state whose row says which kinds were expected.
#[derive(Clone, Copy, Debug, PartialEq, Eq)]
pub enum Answer {
    Accepted(u32),
    AcceptedEarly(u32, u32),
    UnrecognizedToken(u32, StateNo),
    UnrecognizedEnd(u32, StateNo),
    ExtraToken(u32),
    TokenizerError(u32),
    OutOfUnits,
    OutOfDepth,
    OutOfChildren,
    OutOfNodes,
    OutOfRecords,
}
