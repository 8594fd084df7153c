// The first half of the check: sizes, cells, productions, sets, items and the token list. For each number a test at a place, and
// a scan for the first place at which it is false. Each test is the rules' own of the call's tables.
#![tactic(auto)]

pub mod closed;
pub mod entries;
pub mod items;
pub mod sizes;
pub mod symbols;
pub mod tokens;
