// 14: "an item is out of range, or the list is not strictly ascending". An item's range is tested first, then item i against the
// one before it, so a bad pair's place is its later item.
ghost use Rattle.std.specs.Prelude.{◌≡◌, ◌<◌, ◌^◌};
ghost use Rattle.rules.specs.Tables.{item_count};
ghost use Rattle.rules.specs.Check.{item_fits, before, ascends, ok14};
ghost use Rattle.tables.specs.Places.{found};
ghost use Rattle.tables.specs.Lent.{item_of};

use tables::scans::first_bad;
use tables::{Item, Tables};

// An item is (state, production, dot, lookahead column); the lookahead goes to t + 1, the end of input.
#[tactic(auto, unfolding(rules::specs::Check::item_fits))]
fn item_fits(t: &Tables, x: Item) -> bool
    ensures { result ≡ item_fits t.now (item_of x) }
{
    ((x.state as usize) < t.states())
        & ((x.production as usize) < t.production_count())
        & (x.dot as usize <= t.size(x.production as usize))
        & (x.lookahead as usize <= t.kinds() + 1)
}

// The order of two items: state, then production, then dot, then lookahead.
fn before(x: Item, y: Item) -> bool
    ensures { result ≡ before (item_of x) (item_of y) }
{
    x < y
}

// Item i and the one before it.
fn ascends(t: &Tables, i: usize) -> bool
    requires { i < 2 ^ 40 }
    ensures { result ≡ ascends t.now i }
{
    if i == 0 {
        return true;
    }
    before(t.item(i - 1), t.item(i))
}

// The test at an item.
#[tactic(auto, unfolding(rules::specs::Check::ok14))]
pub fn item_allowed(t: &Tables, i: usize) -> bool
    requires { i < 2 ^ 32 }
    ensures { result ≡ ok14 t.now i }
{
    item_fits(t, t.item(i)) && ascends(t, i)
}

pub fn scan14(t: &Tables) -> Option<u32>
    ensures { result ≡ found ok14 item_count t.now }
{
    first_bad(t.item_count(), |i| item_allowed(t, i))
}
