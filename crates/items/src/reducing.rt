// Test 16: "a reduce cell's state has no item of that production with the dot at its end".
ghost use Rattle.std.specs.Prelude.{◌≡◌};
ghost use Rattle.rules.specs.Check.{action_cells, ok16, reduce_fits};
ghost use Rattle.tables.specs.Places.{found};

use crate::has_item;
use rules::Cell;
use tables::Tables;
use tables::scans::first_bad;

// 16 of a cell in a state's row.
#[tactic(auto, unfolding(rules::specs::Check::reduce_fits, crate::specs::Lookup::has_item_with))]
fn reduce_fits(t: &Tables, state: usize, cell: Cell) -> bool
    ensures { result ≡ reduce_fits t.now state cell }
{
    match cell {
        Cell::Reduce(p) => {
            let production = p.0 as usize;
            has_item(t, state, production, t.size(production), None)
        }
        Cell::Shift(_) | Cell::Error => true,
    }
}

// 16, after 10 to 14 have passed. An action cell's place over the columns is its state.
pub fn scan16(t: &Tables) -> Option<u32>
    ensures { result ≡ found ok16 action_cells t.now }
{
    let columns = t.kinds() + 2;
    first_bad(
        t.states() * columns,
        |i| reduce_fits(t, i / columns, t.action_cell(i)),
    )
}
