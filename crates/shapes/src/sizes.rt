// 10: "a size, flag or set bit is out of range, or a list's length disagrees with the sizes"; its place is 0. Nothing is asked of
// the bytes: every size is a 16-bit number, so no product or sum of them is out of range here.
ghost use Rattle.std.specs.Prelude.{◌≡◌, ◌<◌, ◌^◌};
ghost use Rattle.rules.specs.Basics.{between};
ghost use Rattle.rules.specs.Check.{sizes_fit, lengths_agree, set_fits, ok10};
ghost use Rattle.tables.specs.Places.{found};
ghost use Rattle.shapes.specs.Sizes.{one_place};

use tables::Tables;
use tables::scans::all_below;

fn between(low: usize, high: usize, n: usize) -> bool
    ensures { result ≡ between low high n }
{
    low <= n && n <= high
}

// "states 1 to 1,024; user kinds t 1 to 254; nonterminals 1 to 255; productions 1 to 1,024; .. items 0 to 65,535; recovery flag
// 0 or 1": every 16-bit number of items is in range.
#[tactic(auto, unfolding(rules::specs::Check::sizes_fit))]
fn sizes_fit(t: &Tables) -> bool
    ensures { result ≡ sizes_fit t.now }
{
    between(1, 1024, t.states())
        && between(1, 254, t.kinds())
        && between(1, 255, t.nonterminals())
        && between(1, 1024, t.production_count())
        && t.item_count() <= 65535
        && t.flag() <= 1
}

// Every length, in bytes, and "each right side 0 to 32 symbols". The right sides are added up only where each is short.
fn lengths_agree(t: &Tables) -> bool
    ensures { result ≡ lengths_agree t.now }
{
    let states = t.states();
    let nonterminals = t.nonterminals();
    let count = t.production_count();
    let found = t.lengths();
    let tables = (found.actions == 2 * (states * (t.kinds() + 2)))
        & (found.gotos == 2 * (states * nonterminals))
        & (found.productions == 4 * count);
    if !tables {
        return false;
    }
    if !all_below(count, |p| t.size(p) <= 32) {
        return false;
    }
    (found.rights == 2 * t.right_start(count))
        & (found.items == 8 * t.item_count())
        & (found.sets == 33 * nonterminals)
}

// A set: its nullable flag, then its bits; a kind past t is in no set.
#[tactic(auto, unfolding(rules::specs::Check::set_fits))]
fn set_fits(t: &Tables, nonterminal: usize) -> bool
    requires { nonterminal < 2 ^ 40 }
    ensures { result ≡ set_fits t.now nonterminal }
{
    let kinds = t.kinds();
    t.nullable_byte(nonterminal) <= 1
        && all_below(256, |kind| kind <= kinds || !t.in_set(nonterminal, kind))
}

// The test.
pub fn fits(t: &Tables) -> bool
    ensures { result ≡ ok10 t.now 0 }
{
    if t.lengths().sizes != 12 {
        return false;
    }
    if !sizes_fit(t) {
        return false;
    }
    if !lengths_agree(t) {
        return false;
    }
    all_below(t.nonterminals(), |j| set_fits(t, j))
}

#[tactic(auto, unfolding(tables::specs::Places::first_bad))]
pub fn scan10(t: &Tables) -> Option<u32>
    ensures { result ≡ found ok10 one_place t.now }
{
    if fits(t) { None } else { Some(0) }
}
