// 12: "a symbol or left side is out of range; nonterminal 0 is on a right side or left of another production; production 0 is
// misshapen".
ghost use Rattle.std.specs.Prelude.{◌≡◌, ◌<◌, ◌^◌};
ghost use Rattle.rules.specs.Tables.{production_count};
ghost use Rattle.rules.specs.Check.{symbol_fits, ok12};
ghost use Rattle.tables.specs.Places.{found};
ghost use Rattle.shapes.specs.Productions.{left_allowed, production_allowed};

use tables::Tables;
use tables::scans::{all_below, first_bad_production};

fn symbol_fits(t: &Tables, x: usize) -> bool
    ensures { result ≡ symbol_fits t.now x }
{
    let first = t.kinds() + 1;
    (x < first + t.nonterminals()) & (x != first)
}

// Production 0 "is nonterminal 0 to one other nonterminal", its first symbol; the left side of another one is another nonterminal.
fn left_fits(t: &Tables, p: usize, first: usize) -> bool
    requires { p < 2 ^ 40 }
    ensures { result ≡ left_allowed t.now p first }
{
    let side = t.left(p);
    if p == 0 {
        (side == 0) & (t.size(p) == 1) & !(first <= t.kinds())
    } else {
        (side != 0) & (side < t.nonterminals())
    }
}

// The test at a production whose right side starts at that place.
pub fn production_allowed(t: &Tables, p: usize, start: usize) -> bool
    requires { (p < 2 ^ 32) × (start < 2 ^ 60) }
    ensures { result ≡ production_allowed t.now p start }
{
    left_fits(t, p, t.symbol_at(start))
        && all_below(t.size(p), |d| symbol_fits(t, t.symbol_at(start + d)))
}

pub fn scan12(t: &Tables) -> Option<u32>
    ensures { result ≡ found ok12 production_count t.now }
{
    first_bad_production(t, |p, start| production_allowed(t, p, start))
}
