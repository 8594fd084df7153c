// 13: "nullable flags or first sets are not closed under it". Every production is judged: a right side that is all nullable makes
// its left side nullable, and what a right side can begin with, its left side can begin with.
ghost use Rattle.std.specs.Prelude.{◌≡◌, ◌<◌, ◌^◌};
ghost use Rattle.rules.specs.Tables.{production_count};
ghost use Rattle.rules.specs.Check.{ok13};
ghost use Rattle.tables.specs.Places.{found};
ghost use Rattle.shapes.specs.Productions.{production_closed};

use tables::Tables;
use tables::scans::{all_below, first_bad_production};

// The test at a production whose right side starts at that place, for every kind of "kinds 0..t".
pub fn production_closed(t: &Tables, p: usize, start: usize) -> bool
    requires { (p < 2 ^ 32) × (start < 2 ^ 60) }
    ensures { result ≡ production_closed t.now p start }
{
    let kinds = t.kinds();
    let side = kinds + 1 + t.left(p);
    let n = t.size(p);
    let flag = !t.all_nullable(start, n) || t.nullable(side);
    flag && all_below(
        kinds + 1,
        |k| !t.begins_with(start, n, k) || t.in_first(side, k),
    )
}

pub fn scan13(t: &Tables) -> Option<u32>
    ensures { result ≡ found ok13 production_count t.now }
{
    first_bad_production(t, |p, start| production_closed(t, p, start))
}
