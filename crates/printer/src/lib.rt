// The program's lines, written into a lent buffer.
#![tactic(auto)]

ghost use Rattle.std.specs.Prelude.{[], ◌∷◌, ◌++◌, ◌≡◌, ◌+◌, ◌*◌, ◌<◌, ◌^◌};
ghost use Rattle.rules.specs.File.{decimal, spaced, spaced_all, kinds_in, refused_line};
ghost use Rattle.printer.specs.Page.{Written, tree_of, children_of, tree_line_of, tree_lines_of, answer_lines_of};
ghost use Rattle.printer.specs.Lines.{units_text, kind_text, kinds_text, places_by, answer_text, mark_tokens, mark_error, mark_expected, mark_text, marks_text};
ghost use Rattle.printer.specs.TreeText.{head_text, comma_text};

use itoa::Buffer;
use words::Word;

// A text that is being written into a lent buffer, and the place behind it. What the buffer has no room for is left out, and the
// place stays at its end.
#[derive(Drop)]
pub struct Page<'a> {
    pub buf: &'a mut [u8],
    pub at: usize,
}

// What trees are read from: the productions, and the node and child entry words that a call leaves.
#[derive(Clone, Copy, Drop)]
pub struct Trees<'a> {
    pub productions: &'a [u8],
    pub nodes: &'a [u8],
    pub children: &'a [u8],
}

// An answer: its number, its token or location, its root and its units, the slice of its expected words (none: an empty slice), its
// trees, and the record words that the call leaves, with the count of the records. The number stays a number and no enum: it is printed
// as it is, and `answer_lines` promises its lines for every number.
#[derive(Clone, Copy, Drop)]
pub struct Answer<'a> {
    pub number: usize,
    pub place: usize,
    pub root: u32,
    pub units: usize,
    pub expected: &'a [u8],
    pub trees: Trees<'a>,
    pub records: &'a [u8],
    pub count: u32,
}

// Numbers of document 01 stay numbers in these methods too: they are printed as they are, and the clauses hold for every one.
impl<'a> Page<'a> {
    // a page with no text yet, from the front of the buffer on
    pub fn new(buf: &'a mut [u8]) -> Page<'a>
        ensures front { (result.buf.now ≡ buf.old) × (result.at ≡ 0) }
        ensures same_buffer { result.buf.ghost_name ≡ buf.entry.ghost_name }
    {
        Page { buf, at: 0 }
    }

    pub fn byte(&mut self, x: u8)
        ensures { Written self.old (x ∷ []) self.new }
    {
        if self.at < self.buf.len() {
            self.buf[self.at] = x;
            self.at += 1;
        }
    }

    pub fn text(&mut self, text: &[u8])
        ensures { Written self.old text.now self.new }
    {
        for x in text {
            self.byte(*x);
        }
    }

    // "in decimal"
    fn number(&mut self, n: usize)
        ensures { Written self.old (decimal n) self.new }
    {
        self.text(Buffer::new().format(n).as_bytes());
    }

    // " N"
    pub fn spaced(&mut self, n: usize)
        ensures { Written self.old (spaced n) self.new }
    {
        self.byte(b' ');
        self.number(n);
    }

    // a label and a number
    fn labelled(&mut self, label: &[u8], n: usize)
        ensures { Written self.old (label.now ++ spaced n) self.new }
    {
        self.text(label);
        self.spaced(n);
    }

    // "Any refusal prints `refused`, number, place."
    pub fn refused_line(&mut self, number: usize, place: usize)
        ensures { Written self.old (refused_line number place) self.new }
    {
        self.labelled(b"refused", number);
        self.spaced(place);
        self.byte(b'\n');
    }

    // "of the counts only the units are printed, on the next line"
    pub fn units_line(&mut self, units: usize)
        ensures { Written self.old (units_text units) self.new }
    {
        self.labelled(b"units", units);
        self.byte(b'\n');
    }

    // "expected lists kinds upward": kind `k`, if the lowest bit of `w` is set
    #[tactic(auto, using(crate::proofs::Nothing::kinds))]
    fn kind(&mut self, w: u32, k: usize)
        ensures { Written self.old (kind_text w k) self.new }
    {
        if w % 2 == 1 {
            self.spaced(k);
        }
    }

    // the kinds of a word, from kind `first` on
    fn word(&mut self, word: u32, first: usize)
        requires { first < 2 ^ 32 }
        ensures { Written self.old (spaced_all (kinds_in 32 first word)) self.new }
    {
        let mut w = word;
        for i in 0..32 {
            self.kind(w, first + i);
            w /= 2;
        }
    }

    // the kinds of the eight words from a place of a slice on; a word that is not there has none
    fn kinds(&mut self, words: &[u8], from: usize)
        requires { from < 2 ^ 40 }
        ensures { Written self.old (kinds_text words.now from) self.new }
    {
        for i in 0..8 {
            self.word(u32::word(words, from + 4 * i), 32 * i);
        }
    }

    // the field that answers 2 to 6 print: their token or location
    #[tactic(auto, using(crate::proofs::Nothing::places))]
    fn place(&mut self, number: usize, place: usize)
        ensures { Written self.old (spaced_all (places_by number place)) self.new }
    {
        match number {
            2..=6 => self.spaced(place),
            _ => {}
        }
    }

    // "The answer line goes on with the answer's fields in the order above, in decimal, one space between, root left out"
    pub fn answer_line(&mut self, number: usize, place: usize, expected: &[u8])
        ensures { Written self.old (answer_text number place expected.now) self.new }
    {
        self.labelled(b"answer", number);
        self.place(number, place);
        self.kinds(expected, 0);
        self.byte(b'\n');
    }

    // the first half of a mark's line: its number, its stretch and the first dropped token
    fn mark_tokens(&mut self, i: usize, first: u32, after: u32, dropped: u32)
        ensures { Written self.old (mark_tokens i first after dropped) self.new }
    {
        self.labelled(b"mark", i);
        self.labelled(b" tokens", first as usize);
        self.spaced(after as usize);
        self.labelled(b" dropped", dropped as usize);
    }

    // the second half: its span, and its error
    fn mark_error(&mut self, start: u32, end: u32, number: u32, place: u32)
        ensures { Written self.old (mark_error start end number place) self.new }
    {
        self.labelled(b" span", start as usize);
        self.spaced(end as usize);
        self.labelled(b" error", number as usize);
        self.labelled(b" at", place as usize);
    }

    // the expected kinds of a record whose words start at `from`, and the line's end
    fn mark_expected(&mut self, records: &[u8], from: usize)
        requires { from < 2 ^ 39 }
        ensures { Written self.old (mark_expected records.now from) self.new }
    {
        self.text(b" expected");
        self.kinds(records, from + 32);
        self.byte(b'\n');
    }

    // "Record, 16 words: error 3 or 4, token or location, stretch first, stretch after-last, dropped first (after-last if none), start,
    // end, expected count as the number of ones, 8 words of expected bits": the line of record `i`, whose words start at `from`
    fn mark_line(&mut self, i: usize, records: &[u8], from: usize)
        requires { from < 2 ^ 39 }
        ensures { Written self.old (mark_text i records.now from) self.new }
    {
        let number = u32::word(records, from);
        let place = u32::word(records, from + 4);
        let first = u32::word(records, from + 8);
        let after = u32::word(records, from + 12);
        let dropped = u32::word(records, from + 16);
        let start = u32::word(records, from + 20);
        let end = u32::word(records, from + 24);
        self.mark_tokens(i, first, after, dropped);
        self.mark_error(start, end, number, place);
        self.mark_expected(records, from);
    }

    // "all records follow": `count` of them, whatever the length of the slice, so no chunks of it (a word past its end is 0)
    pub fn mark_lines(&mut self, records: &[u8], count: u32)
        ensures { Written self.old (marks_text count 0 records.now 0) self.new }
    {
        for i in 0..count as usize {
            self.mark_line(i, records, 64 * i);
        }
    }

    // `tI` a token, `!R` a mark: a leaf's letter and its number
    fn leaf(&mut self, letter: u8, number: u32)
        ensures { Written self.old (letter ∷ decimal number) self.new }
    {
        self.byte(letter);
        self.number(number as usize);
    }

    // `[N: `, where N is the left side of a production: "productions (left side, length)"
    fn head(&mut self, productions: &[u8], production: u32)
        ensures { Written self.old (head_text productions.now production) self.new }
    {
        let left = u16::word(productions, 4 * production as usize);
        self.byte(b'[');
        self.number(left as usize);
        self.text(b": ");
    }

    // `, ` before every child but the first
    fn comma(&mut self, j: usize)
        ensures { Written self.old (comma_text j) self.new }
    {
        if j != 0 {
            self.text(b", ");
        }
    }

    // The tree at node `i`, at most `fuel` nodes deep. "Node, 8 words: kind (0 token, 1 mark, 2 production), number .., first child
    // entry, child count, ..".
    #[cycle(children_tree)]
    pub fn tree(&mut self, trees: &Trees<'_>, i: u32, fuel: usize)
        ensures { Written self.old (tree_of fuel trees.now i) self.new }
    {
        if fuel == 0 {
            self.leaf(b't', i);
            return;
        }
        let node = 32 * i as usize;
        let number = u32::word(trees.nodes, node + 4);
        match u32::word(trees.nodes, node) {
            0 => self.leaf(b't', number),
            1 => self.leaf(b'!', number),
            _ => {
                let child = u32::word(trees.nodes, node + 8);
                let count = u32::word(trees.nodes, node + 12);
                self.head(trees.productions, number);
                self.children(trees, child, count, fuel - 1);
                self.byte(b']');
            }
        }
    }

    // The trees of `count` child entries from `child` on, `, ` between them.
    #[cycle(children_tree)]
    fn children(&mut self, trees: &Trees<'_>, child: u32, count: u32, fuel: usize)
        ensures { Written self.old (children_of count trees.now (4 * child) fuel) self.new }
    {
        let from = 4 * child as usize;
        for j in 0..count as usize {
            self.comma(j);
            self.tree(trees, u32::word(trees.children, from + 4 * j), fuel);
        }
    }

    // the tree's line
    pub fn tree_line(&mut self, trees: &Trees<'_>, root: u32)
        ensures { Written self.old (tree_line_of trees.now root) self.new }
    {
        self.text(b"tree ");
        self.tree(trees, root, root as usize + 1);
        self.byte(b'\n');
    }

    // "1 and 2 print the tree"
    #[tactic(auto, using(crate::proofs::Nothing::trees))]
    fn tree_lines(&mut self, number: usize, trees: &Trees<'_>, root: u32)
        ensures { Written self.old (tree_lines_of number trees.now root) self.new }
    {
        match number {
            1..=2 => self.tree_line(trees, root),
            _ => {}
        }
    }

    // all lines of an answer
    pub fn answer_lines(&mut self, answer: &Answer<'_>)
        ensures { Written self.old (answer_lines_of answer.now) self.new }
    {
        self.answer_line(answer.number, answer.place, answer.expected);
        self.units_line(answer.units);
        self.tree_lines(answer.number, &answer.trees, answer.root);
        self.mark_lines(answer.records, answer.count);
    }
}
