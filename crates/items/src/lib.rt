// The items of a call's tables: the lookup among them, and whether one repeats the place of the one before it; in a module of its own
// test 16 of the check.
#![tactic(auto)]

ghost use Rattle.std.specs.Prelude.{◌≡◌, ◌<◌, ◌^◌};
ghost use Rattle.rules.specs.Tables.{item_at};
ghost use Rattle.rules.specs.Check.{is_at};
ghost use Rattle.items.specs.Lookup.{has_item_with, repeats};

use tables::Tables;
use tables::scans::any_below;

pub mod reducing;

// Is item i of this state, production and dot? Its state is read alone first: most items that a scan passes are of another.
fn is_at(t: &Tables, i: usize, state: usize, production: usize, dot: usize) -> bool
    requires { i < 2 ^ 40 }
    ensures { result ≡ is_at state production dot (item_at t.now i) }
{
    if t.item_state(i) as usize != state {
        return false;
    }
    let item = t.item(i);
    item.production as usize == production && item.dot as usize == dot
}

// Is there an item of this state, production and dot: with this lookahead, or where none is asked for with any? The one lookup: a
// scan from the front. State, production and dot stand singly here and in 15, as in the rules' definitions that the contracts cite.
pub fn has_item(
    t: &Tables,
    state: usize,
    production: usize,
    dot: usize,
    lookahead: Option<usize>,
) -> bool
    ensures { result ≡ has_item_with t.now state production dot lookahead }
{
    match lookahead {
        None => any_below(t.item_count(), |i| is_at(t, i, state, production, dot)),
        Some(a) => any_below(t.item_count(), |i| {
            is_at(t, i, state, production, dot) && t.item(i).lookahead as usize == a
        }),
    }
}

// Has item i the state, production and dot of the item before it?
#[tactic(auto, using(crate::specs::Lookup::first_new, crate::specs::Lookup::later_repeats))]
pub fn repeats(t: &Tables, i: usize) -> bool
    requires { i < 2 ^ 40 }
    ensures { result ≡ repeats t.now i }
{
    let Some(last) = i.checked_sub(1) else {
        return false;
    };
    let before = t.item(last);
    is_at(
        t,
        i,
        before.state as usize,
        before.production as usize,
        before.dot as usize,
    )
}
