// The tables of a call, read from the bytes of its slices. Every reader is total: a place outside its table is an error cell, a
// missing goto, or 0, as the rules have it. `Tables` is a call's seven slices as one value, which a clause sees as the rules'.
#![tactic(auto)]

ghost use Rattle.std.specs.Prelude.{◌≡◌, ◌+◌, ◌*◌, ◌/◌, ◌%◌, ◌<◌, ◌^◌, get_or};
ghost use Rattle.words.specs.Words.{word16};
ghost use Rattle.rules.specs.Tables.{cell_at};
ghost use Rattle.tables.specs.Readers.{cell_in};

use rules::Cell;
use std::marker::Model;
use words::Word;

pub mod scans;

// The cell at a place of a table of cells.
pub fn cell_at(table: &[u8], place: usize) -> Cell
    requires { place < 2 ^ 40 }
    ensures { result ≡ cell_at table.now place }
{
    cells::decode(u16::word(table, 2 * place))
}

// The cell at a row and a column of a table of cells; outside the table an error cell.
pub fn cell_in(table: &[u8], rows: usize, width: usize, row: usize, column: usize) -> Cell
    requires { (rows < 2 ^ 17) × (width < 2 ^ 17) }
    ensures { result ≡ cell_in table.now rows width row column }
{
    if rows <= row {
        return Cell::Error;
    }
    if width <= column {
        return Cell::Error;
    }
    cell_at(table, row * width + column)
}

// "productions (left side, length)": the left side of a production. This and the next stand beside the methods of `Tables` for the driver,
// whose call holds no right sides, items and sets.
pub fn left(productions: &[u8], production: usize) -> usize
    requires { production < 2 ^ 40 }
    ensures { result ≡ word16 productions.now (4 * production) }
{
    u16::word(productions, 4 * production) as usize
}

// and the length of its right side
pub fn size(productions: &[u8], production: usize) -> usize
    requires { production < 2 ^ 40 }
    ensures { result ≡ word16 productions.now (4 * production + 2) }
{
    u16::word(productions, 4 * production + 2) as usize
}

// A byte; past the end 0.
pub fn byte(s: &[u8], at: usize) -> u8
    ensures { result ≡ get_or s.now at 0 }
{
    if at < s.len() { s[at] } else { 0 }
}

// A bit of a byte, counted from the lowest.
pub fn bit(byte: u8, i: u8) -> u8
    requires { i < 8 }
    ensures { result ≡ byte / 2 ^ i % 2 }
{
    (byte >> i) % 2
}

// "An item is (state, production, dot, lookahead column)." The order of the fields is that of the list: "strictly ascending".
#[derive(Clone, Copy, Debug, PartialEq, Eq, PartialOrd, Ord)]
pub struct Item {
    pub state: u16,
    pub production: u16,
    pub dot: u16,
    pub lookahead: u16,
}

// The slices' lengths in bytes.
#[derive(Clone, Copy, Debug, PartialEq, Eq)]
pub struct Lengths {
    pub sizes: usize,
    pub actions: usize,
    pub gotos: usize,
    pub productions: usize,
    pub rights: usize,
    pub items: usize,
    pub sets: usize,
}

// The tables of a call: its seven slices in the file's order, and the numbers that stand in the first of them, but for the flag, read
// once.
#[derive(Drop)]
pub struct Tables<'a> {
    sizes: &'a [u8],
    actions: &'a [u8],
    gotos: &'a [u8],
    productions: &'a [u8],
    rights: &'a [u8],
    items: &'a [u8],
    sets: &'a [u8],
    states: u16,
    kinds: u16,
    nonterminals: u16,
    production_count: u16,
    item_count: u16,
}

impl<'a> Model for Tables<'a> {
    ghost use Rattle.rules.specs.Tables.{Tables as Lists};

    ghost Value = { Lists };

    ghost use Rattle.tables.specs.Lent.{tables_of, NumbersRead};

    ghost view = { tables_of };

    ghost invariant = { NumbersRead };
}

impl<'a> Tables<'a> {
    ghost use Rattle.std.specs.Prelude.{◌≤◌};
    ghost use Rattle.rules.specs.Tables.{states, kinds, nonterminals, production_count, item_count, flag, columns, symbol_count, cell_at, action, goto, move, left, size, right_start, symbol, item_at, nullable_byte, in_set, nullable, in_first};
    ghost use Rattle.rules.specs.Check.{all_nullable, begins_with};
    ghost use Rattle.tables.specs.Places.{call_tables};
    ghost use Rattle.tables.specs.Rights.{symbol_in, symbols_in};
    ghost use Rattle.tables.specs.Lent.{item_of, lengths_of};

    // Seven parameters: the call's slices, as C lends them, become one value here.
    pub fn new(
        sizes: &'a [u8],
        actions: &'a [u8],
        gotos: &'a [u8],
        productions: &'a [u8],
        rights: &'a [u8],
        items: &'a [u8],
        sets: &'a [u8],
    ) -> Tables<'a>
        ensures { result ≡ call_tables sizes.now actions.now gotos.now productions.now rights.now items.now sets.now }
    {
        Tables {
            sizes,
            actions,
            gotos,
            productions,
            rights,
            items,
            sets,
            states: u16::word(sizes, 0),
            kinds: u16::word(sizes, 2),
            nonterminals: u16::word(sizes, 4),
            production_count: u16::word(sizes, 6),
            item_count: u16::word(sizes, 8),
        }
    }

    // "Sizes: states, t, nonterminals, productions, items, flag." Each is a 16-bit number.
    pub fn states(&self) -> usize
        ensures value { result ≡ states self.now }
        ensures bound { result < 2 ^ 16 }
    {
        usize::from(self.states)
    }

    pub fn kinds(&self) -> usize
        ensures value { result ≡ kinds self.now }
        ensures bound { result < 2 ^ 16 }
    {
        usize::from(self.kinds)
    }

    pub fn nonterminals(&self) -> usize
        ensures value { result ≡ nonterminals self.now }
        ensures bound { result < 2 ^ 16 }
    {
        usize::from(self.nonterminals)
    }

    pub fn production_count(&self) -> usize
        ensures value { result ≡ production_count self.now }
        ensures bound { result < 2 ^ 16 }
    {
        usize::from(self.production_count)
    }

    pub fn item_count(&self) -> usize
        ensures value { result ≡ item_count self.now }
        ensures bound { result < 2 ^ 16 }
    {
        usize::from(self.item_count)
    }

    #[tactic(auto, unfolding(rules::specs::Tables::flag))]
    pub fn flag(&self) -> u16
        ensures { result ≡ flag self.now }
    {
        u16::word(self.sizes, 10)
    }

    pub fn lengths(&self) -> Lengths
        ensures { result ≡ lengths_of self.now }
    {
        Lengths {
            sizes: self.sizes.len(),
            actions: self.actions.len(),
            gotos: self.gotos.len(),
            productions: self.productions.len(),
            rights: self.rights.len(),
            items: self.items.len(),
            sets: self.sets.len(),
        }
    }

    // "Action cells are signed 16-bit, by state." "Goto cells, by state and nonterminal."
    pub fn action(&self, state: usize, column: usize) -> Cell
        ensures { result ≡ action self.now state column }
    {
        cell_in(
            self.actions,
            self.states as usize,
            self.kinds as usize + 2,
            state,
            column,
        )
    }

    pub fn goto(&self, state: usize, nonterminal: usize) -> Cell
        ensures { result ≡ goto self.now state nonterminal }
    {
        cell_in(
            self.gotos,
            self.states as usize,
            self.nonterminals as usize,
            state,
            nonterminal,
        )
    }

    // The transition on a symbol: its shift, or its goto.
    pub fn transition(&self, state: usize, symbol: usize) -> Cell
        ensures { result ≡ move self.now state symbol }
    {
        let kinds = self.kinds();
        if symbol <= kinds {
            self.action(state, symbol)
        } else {
            self.goto(state, symbol - (kinds + 1))
        }
    }

    // The cells by their places.
    pub fn action_cell(&self, place: usize) -> Cell
        requires { place < 2 ^ 40 }
        ensures { result ≡ cell_at self.now.actions place }
    {
        cell_at(self.actions, place)
    }

    pub fn goto_cell(&self, place: usize) -> Cell
        requires { place < 2 ^ 40 }
        ensures { result ≡ cell_at self.now.gotos place }
    {
        cell_at(self.gotos, place)
    }

    // "productions (left side, length)"
    #[tactic(auto, unfolding(rules::specs::Tables::left))]
    pub fn left(&self, production: usize) -> usize
        requires { production < 2 ^ 40 }
        ensures value { result ≡ left self.now production }
        ensures bound { result < 2 ^ 16 }
    {
        u16::word(self.productions, 4 * production) as usize
    }

    #[tactic(auto, unfolding(rules::specs::Tables::size))]
    pub fn size(&self, production: usize) -> usize
        requires { production < 2 ^ 40 }
        ensures value { result ≡ size self.now production }
        ensures bound { result < 2 ^ 16 }
    {
        u16::word(self.productions, 4 * production + 2) as usize
    }

    // The right sides stand one behind the other: where the right side of a production starts, in symbols.
    #[tactic(auto, using(crate::specs::Rights::start_more, crate::specs::Rights::start_none))]
    pub fn right_start(&self, production: usize) -> usize
        requires { production < 2 ^ 40 }
        ensures value { result ≡ right_start self.now production }
        ensures bound { result ≤ 65535 * production }
    {
        let mut sum = 0;
        for p in 0..production {
            sum += self.size(p);
        }
        sum
    }

    // The symbol at a place of the right sides, and the one behind a dot.
    #[tactic(auto, unfolding(crate::specs::Rights::symbol_in))]
    pub fn symbol_at(&self, at: usize) -> usize
        requires { at < 2 ^ 62 }
        ensures value { result ≡ symbol_in self.now.rights at }
        ensures bound { result < 2 ^ 16 }
    {
        u16::word(self.rights, 2 * at) as usize
    }

    pub fn symbol(&self, production: usize, dot: usize) -> usize
        requires { (production < 2 ^ 40) × (dot < 2 ^ 40) }
        ensures value { result ≡ symbol self.now production dot }
        ensures bound { result < 2 ^ 16 }
    {
        self.symbol_at(self.right_start(production) + dot)
    }

    // "An item is (state, production, dot, lookahead column)."
    #[tactic(auto, unfolding(rules::specs::Tables::item_at))]
    pub fn item(&self, i: usize) -> Item
        requires { i < 2 ^ 40 }
        ensures { item_of result ≡ item_at self.now i }
    {
        let at = 8 * i;
        Item {
            state: u16::word(self.items, at),
            production: u16::word(self.items, at + 2),
            dot: u16::word(self.items, at + 4),
            lookahead: u16::word(self.items, at + 6),
        }
    }

    // Its state alone: a scan for the items of a state reads no more of the others.
    #[tactic(auto, unfolding(rules::specs::Tables::item_at))]
    pub fn item_state(&self, i: usize) -> u16
        requires { i < 2 ^ 40 }
        ensures { result ≡ (item_at self.now i).state }
    {
        u16::word(self.items, 8 * i)
    }

    // "A first set: nullable flag, then 32 bytes, kind k at bit k mod 8 of byte k/8."
    #[tactic(auto, unfolding(rules::specs::Tables::nullable_byte))]
    pub fn nullable_byte(&self, nonterminal: usize) -> u8
        requires { nonterminal < 2 ^ 40 }
        ensures { result ≡ nullable_byte self.now nonterminal }
    {
        byte(self.sets, 33 * nonterminal)
    }

    #[tactic(auto, unfolding(rules::specs::Tables::in_set))]
    pub fn in_set(&self, nonterminal: usize, kind: usize) -> bool
        requires { nonterminal < 2 ^ 40 }
        ensures { result ≡ in_set self.now nonterminal kind }
    {
        let b = byte(self.sets, 33 * nonterminal + 1 + kind / 8);
        bit(b, (kind % 8) as u8) == 1
    }

    // Whether a symbol can be nothing: a nonterminal by its flag, and no terminal.
    pub fn nullable(&self, symbol: usize) -> bool
        requires { symbol < 2 ^ 40 }
        ensures { result ≡ nullable self.now symbol }
    {
        let kinds = self.kinds();
        if symbol <= kinds {
            false
        } else {
            self.nullable_byte(symbol - (kinds + 1)) == 1
        }
    }

    // Whether a symbol can begin with a kind: a nonterminal by its first set, a terminal with itself.
    pub fn in_first(&self, symbol: usize, kind: usize) -> bool
        requires { symbol < 2 ^ 40 }
        ensures { result ≡ in_first self.now symbol kind }
    {
        let kinds = self.kinds();
        if symbol <= kinds {
            symbol == kind
        } else {
            self.in_set(symbol - (kinds + 1), kind)
        }
    }

    // Whether the n symbols from a place on can all be nothing. A loop and no `all_below`, as in `begins_with`: the rules' definitions go
    // down the list of symbols, and what is left of it is what these loops keep.
    pub fn all_nullable(&self, from: usize, n: usize) -> bool
        requires { from + n < 2 ^ 62 }
        ensures { result ≡ all_nullable self.now (symbols_in self.now.rights from n) }
    {
        for d in 0..n {
            if !self.nullable(self.symbol_at(from + d)) {
                return false;
            }
        }
        true
    }

    // Whether the n symbols from a place on can begin with a kind, "by the given sets".
    pub fn begins_with(&self, from: usize, n: usize, kind: usize) -> bool
        requires { from + n < 2 ^ 62 }
        ensures { result ≡ begins_with self.now (symbols_in self.now.rights from n) kind }
    {
        for d in 0..n {
            let x = self.symbol_at(from + d);
            if self.in_first(x, kind) {
                return true;
            }
            if !self.nullable(x) {
                return false;
            }
        }
        false
    }
}
