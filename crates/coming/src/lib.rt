// Test 15: "dot > 0 in state 0; production 0 at dot 0 elsewhere; or dot d > 0 and some shift or goto into its state is not over the
// symbol before the dot, or comes from a state with no item of that production at d-1".
#![tactic(auto)]

ghost use Rattle.std.specs.Prelude.{◌≡◌, ◌<◌, ◌^◌};
ghost use Rattle.rules.specs.Tables.{goes_to, item_count};
ghost use Rattle.rules.specs.Check.{dot_fits, ok15};
ghost use Rattle.tables.specs.Places.{found};
ghost use Rattle.coming.specs.Coming.{comes_from, comes_in};

use items::{has_item, repeats};
use rules::Cell;
use tables::Tables;
use tables::scans::{all_below, first_bad};

// Does this cell go to that state?
pub fn goes_to(cell: Cell, state: usize) -> bool
    ensures { result ≡ goes_to cell state }
{
    matches!(cell, Cell::Shift(to) if to.0 as usize == state)
}

// Does every transition from one state that enters the item's come over the symbol before the dot, and from a state with an item of
// that production at that dot?
fn comes_from(
    t: &Tables,
    state: usize,
    production: usize,
    dot: usize,
    before: usize,
    from: usize,
) -> bool
    ensures { result ≡ comes_from t.now state production dot before from }
{
    let symbols = t.kinds() + 1 + t.nonterminals();
    all_below(symbols, |over| {
        !goes_to(t.transition(from, over), state)
            || (over == before && has_item(t, from, production, dot, None))
    })
}

// The same of every transition there is: the walk over those into a state, for an item whose dot stands one behind `dot`.
pub fn comes_well(t: &Tables, state: usize, production: usize, dot: usize, before: usize) -> bool
    ensures { result ≡ comes_in t.now state production dot before }
{
    all_below(
        t.states(),
        |from| comes_from(t, state, production, dot, before, from),
    )
}

// 15 of one state, production and dot: the walk is with the symbol before the dot.
fn dot_fits(t: &Tables, state: usize, production: usize, dot: usize) -> bool
    requires { (production < 2 ^ 40) × (dot < 2 ^ 40) }
    ensures { result ≡ dot_fits t.now state production dot }
{
    match dot.checked_sub(1) {
        None => production != 0 || state == 0,
        Some(d) => state != 0 && comes_well(t, state, production, d, t.symbol(production, d)),
    }
}

// 15 at an item.
#[tactic(auto, unfolding(rules::specs::Check::ok15))]
fn fits_at(t: &Tables, i: usize) -> bool
    requires { i < 2 ^ 40 }
    ensures { result ≡ ok15 t.now i }
{
    let item = t.item(i);
    dot_fits(
        t,
        item.state as usize,
        item.production as usize,
        item.dot as usize,
    )
}

// 15, after 10 to 14 have passed. An item with the state, production and dot of the one before it needs no second walk.
pub fn scan15(t: &Tables) -> Option<u32>
    ensures { result ≡ found ok15 item_count t.now }
{
    first_bad(t.item_count(), |i| repeats(t, i) || fits_at(t, i))
}
