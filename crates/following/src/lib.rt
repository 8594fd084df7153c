// Test 17: "an item lacks its follow-up"; place "item count where (0, 0, 0, end) is missing, tested last".
#![tactic(auto)]

ghost use Rattle.std.specs.Prelude.{◌≡◌, ◌+◌, ◌<◌, ◌^◌};
ghost use Rattle.rules.specs.Tables.{is_shift, size};
ghost use Rattle.rules.specs.Check.{moves_on, follows_symbol, reduces, has_goto, follow_ups, ok17};
ghost use Rattle.tables.specs.Places.{found};
ghost use Rattle.tables.specs.Lent.{item_of};
ghost use Rattle.following.specs.Following.{place_count};

use items::has_item;
use rules::Cell;
use std::marker::Model;
use tables::scans::{all_below, first_bad};
use tables::{Item, Tables};

// What follows the symbol behind a dot: n symbols of the right sides, from a place on, and then the item's lookahead. Whether those
// symbols can all be nothing is read once, not for each production and kind. A clause sees the symbols as a list.
#[derive(Drop)]
struct Rest<'a> {
    t: &'a Tables<'a>,
    from: usize,
    n: usize,
    empty: bool,
    lookahead: usize,
}

impl<'a> Model for Rest<'a> {
    ghost use Rattle.following.specs.Following.{Behind, behind_of, RestRead};

    ghost Value = { Behind };

    ghost view = { behind_of };

    ghost invariant = { RestRead };
}

impl<'a> Rest<'a> {
    ghost use Rattle.rules.specs.Check.{can_begin, opens};
    ghost use Rattle.following.specs.Following.{behind, opens_each};

    fn new(t: &'a Tables<'a>, from: usize, n: usize, lookahead: usize) -> Rest<'a>
        requires { from + n < 2 ^ 62 }
        ensures { result ≡ behind t.now from n lookahead }
    {
        Rest {
            t,
            from,
            n,
            empty: t.all_nullable(from, n),
            lookahead,
        }
    }

    // Can b begin "what follows B and then a, by the given sets"?
    #[tactic(auto, unfolding(rules::specs::Check::can_begin))]
    fn can_begin(&self, b: usize) -> bool
        ensures { result ≡ can_begin self.now.tables self.now.symbols self.now.lookahead b }
    {
        self.t.begins_with(self.from, self.n, b) | (self.empty & (b == self.lookahead))
    }

    // "s also has (q, 0, b) for .. each b that can begin what follows B and then a". The lookup goes through the items, so it is made
    // only of such a b.
    fn opens_each(&self, state: usize, q: usize) -> bool
        ensures { result ≡ opens_each self.now state q }
    {
        let t = self.t;
        all_below(t.kinds() + 2, |b| {
            !self.can_begin(b) || has_item(t, state, q, 0, Some(b))
        })
    }

    // "Before nonterminal B": that "for each production q of B"
    fn opens(&self, state: usize, nonterminal: usize) -> bool
        ensures { result ≡ opens self.now.tables state nonterminal self.now.symbols self.now.lookahead }
    {
        let t = self.t;
        all_below(t.production_count(), |q| {
            t.left(q) != nonterminal || self.opens_each(state, q)
        })
    }
}

// "Before symbol X: the transition on X exists and its state has (p, d+1, a)."
#[tactic(auto, unfolding(rules::specs::Check::moves_on, items::specs::Lookup::has_item_with))]
fn moves_on(t: &Tables, cell: Cell, x: Item) -> bool
    ensures { result ≡ moves_on t.now cell x.production x.dot x.lookahead }
{
    match cell {
        Cell::Shift(to) => has_item(
            t,
            to.0 as usize,
            x.production as usize,
            x.dot as usize + 1,
            Some(x.lookahead as usize),
        ),
        Cell::Reduce(_) | Cell::Error => false,
    }
}

// The follow-ups before a symbol: a terminal opens nothing.
#[tactic(auto, using(tables::specs::Rights::symbol_in_law, crate::specs::Following::behind_dot), unfolding(rules::specs::Check::follows_symbol))]
fn follows_symbol(t: &Tables, x: Item) -> bool
    requires { x.dot < size t.now x.production }
    ensures { result ≡ follows_symbol t.now x.state x.production x.dot x.lookahead }
{
    let state = x.state as usize;
    let production = x.production as usize;
    let kinds = t.kinds();
    let at = t.right_start(production) + x.dot as usize;
    let symbol = t.symbol_at(at);
    let n = t.size(production) - (x.dot as usize + 1);
    moves_on(t, t.transition(state, symbol), x)
        && (symbol <= kinds
            || Rest::new(t, at + 1, n, x.lookahead as usize).opens(state, symbol - (kinds + 1)))
}

// "At the end: cell (s, a) reduces p."
#[tactic(auto, unfolding(rules::specs::Check::reduces))]
fn reduces(cell: Cell, production: usize) -> bool
    ensures { result ≡ reduces cell production }
{
    matches!(cell, Cell::Reduce(p) if p.0 as usize == production)
}

fn is_shift(cell: Cell) -> bool
    ensures { result ≡ is_shift cell }
{
    matches!(cell, Cell::Shift(_))
}

// "At dot 0, p not 0: goto of p's left side exists in s."
#[tactic(auto, unfolding(rules::specs::Check::has_goto))]
fn has_goto(t: &Tables, x: Item) -> bool
    ensures { result ≡ has_goto t.now x.state x.production x.dot }
{
    let side = t.left(x.production as usize);
    (x.dot != 0) | (x.production == 0) | is_shift(t.goto(x.state as usize, side))
}

// "Follow-ups of (s, p, d, a)."
#[tactic(auto, unfolding(rules::specs::Check::follow_ups))]
fn follow_ups(t: &Tables, x: Item) -> bool
    ensures { result ≡ follow_ups t.now x.state x.production x.dot x.lookahead }
{
    let production = x.production as usize;
    let follows = if (x.dot as usize) < t.size(production) {
        follows_symbol(t, x)
    } else {
        reduces(t.action(x.state as usize, x.lookahead as usize), production)
    };
    follows & has_goto(t, x)
}

// 17 at a place: an item, or the item count.
#[tactic(auto, unfolding(rules::specs::Check::ok17, items::specs::Lookup::has_item_with))]
fn fits_at(t: &Tables, i: usize) -> bool
    requires { i < 2 ^ 40 }
    ensures { result ≡ ok17 t.now i }
{
    if i < t.item_count() {
        follow_ups(t, t.item(i))
    } else {
        has_item(t, 0, 0, 0, Some(t.kinds() + 1))
    }
}

// 17, after 10 to 14 have passed.
pub fn scan17(t: &Tables) -> Option<u32>
    ensures { result ≡ found ok17 place_count t.now }
{
    first_bad(t.item_count() + 1, |i| fits_at(t, i))
}
