// 11: "a cell names no state or production, enters state 0, is positive at end of input, or is a negative goto"; its place is
// "cell, gotos counted after all actions".
ghost use Rattle.std.specs.Prelude.{◌≡◌, ◌<◌, ◌^◌};
ghost use Rattle.rules.specs.Check.{enters_well, action_fits, goto_fits, ok11};
ghost use Rattle.tables.specs.Places.{found};
ghost use Rattle.tables.specs.Fit.{Fit};
ghost use Rattle.shapes.specs.Cells.{cell_count};

use rules::Cell;
use tables::Tables;
use tables::scans::first_bad;

fn enters_well(t: &Tables, state: usize) -> bool
    ensures { result ≡ enters_well t.now state }
{
    (state != 0) & (state < t.states())
}

#[tactic(auto, unfolding(rules::specs::Check::action_fits))]
fn action_fits(t: &Tables, column: usize, cell: Cell) -> bool
    ensures { result ≡ action_fits t.now column cell }
{
    match cell {
        Cell::Shift(s) => enters_well(t, s.0 as usize) & (column != t.kinds() + 1),
        Cell::Reduce(p) => (p.0 as usize) < t.production_count(),
        Cell::Error => true,
    }
}

#[tactic(auto, unfolding(rules::specs::Check::goto_fits))]
fn goto_fits(t: &Tables, cell: Cell) -> bool
    ensures { result ≡ goto_fits t.now cell }
{
    match cell {
        Cell::Shift(s) => enters_well(t, s.0 as usize),
        Cell::Reduce(_) => false,
        Cell::Error => true,
    }
}

// The test at a place.
pub fn cell_fits(t: &Tables, i: usize) -> bool
    requires { i < 2 ^ 40 }
    ensures { result ≡ ok11 t.now i }
{
    let columns = t.kinds() + 2;
    let actions = t.states() * columns;
    if i < actions {
        action_fits(t, i % columns, t.action_cell(i))
    } else {
        goto_fits(t, t.goto_cell(i - actions))
    }
}

pub fn scan11(t: &Tables) -> Option<u32>
    requires { Fit t.now }
    ensures { result ≡ found ok11 cell_count t.now }
{
    let states = t.states();
    let cells = states * (t.kinds() + 2) + states * t.nonterminals();
    first_bad(cells, |i| cell_fits(t, i))
}
