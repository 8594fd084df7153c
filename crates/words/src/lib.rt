// Little-endian numbers of 16 and 32 bits in byte slices: each function of `Word` is a definition in specs/, at each width.
// Bytes are joined and split by std's `from_le_bytes` and `to_le_bytes`, which the compiler turns into one load or one store.
#![tactic(auto)]

ghost use Rattle.std.specs.Prelude.{◌≡◌, ℕ, List, ◌+◌, ◌^◌, ◌≤◌, ◌<◌, length};
ghost use Rattle.words.specs.Laws.{Apart};

// What a number of `WIDTH` bytes in a slice is, whatever the width: a read, a write, and a read that asks nothing. A place is a
// byte's index. The laws are those of specs/Laws.antt: what was put is got, and what was not put is as it was. In a law a number
// is any ℕ, so `fits` says which have this width.
pub trait Word: Copy {
    ghost WIDTH: { ℕ };

    ghost ZERO: { Self };

    ghost fits: { Self → Type 0 };

    ghost get: { List ℕ → ℕ → Self };

    ghost put: { List ℕ → ℕ → Self → List ℕ };

    ghost word: { List ℕ → ℕ → Self };

    const WIDTH: usize;

    const ZERO: Self;

    fn get(s: &[u8], at: usize) -> Self
        requires { at + WIDTH ≤ length s.now }
        ensures { result ≡ get s.now at };

    fn put(s: &mut [u8], at: usize, v: Self)
        requires { at + WIDTH ≤ length s.old }
        ensures { s.new ≡ put s.old at v };

    ghost length_put: { (s : List ℕ) (at : ℕ) (v : Self) → length (put s at v) ≡ length s };

    ghost get_put_same: { (s : List ℕ) (at : ℕ) (v : Self) → at + WIDTH ≤ length s → fits v → get (put s at v) at ≡ v };

    ghost get_put_other: { (s : List ℕ) (at : ℕ) (v : Self) (i : ℕ) → Apart i WIDTH at WIDTH → get (put s at v) i ≡ get s i };

    ghost word_in: { (s : List ℕ) (at : ℕ) → at + WIDTH ≤ length s → word s at ≡ get s at };

    ghost word_out: { (s : List ℕ) (at : ℕ) → length s < at + WIDTH → word s at ≡ ZERO };

    // The number at `at` if it lies wholly inside, else 0.
    // The sum `at + WIDTH` could wrap, so the test is by a difference, and by one that a loop over `at` takes only once.
    final fn word(s: &[u8], at: usize) -> Self
        ensures { result ≡ word s.now at }
    {
        if Self::WIDTH <= s.len() && at <= s.len() - Self::WIDTH {
            Self::get(s, at)
        } else {
            Self::ZERO
        }
    }
}

impl Word for u16 {
    ghost use Rattle.words.specs.Words.{get16, put16, word16};
    ghost use Rattle.words.specs.Laws.{length_put16, get16_put16_same, get16_put16_other, word16_in, word16_out};

    ghost WIDTH = { 2 };

    ghost ZERO = { 0 };

    ghost fits = { λ v. v < 2 ^ 16 };

    ghost get = { get16 };

    ghost put = { put16 };

    ghost word = { word16 };

    const WIDTH: usize = 2;

    const ZERO: u16 = 0;

    #[tactic(auto, unfolding(crate::specs::Words::get16))]
    fn get(s: &[u8], at: usize) -> u16 {
        u16::from_le_bytes([s[at], s[at + 1]])
    }

    #[tactic(auto, using(crate::proofs::Writes::written16), unfolding(crate::specs::Words::le2))]
    fn put(s: &mut [u8], at: usize, v: u16) {
        s[at..at + 2].copy_from_slice(&v.to_le_bytes());
    }

    ghost length_put = { length_put16 };

    ghost get_put_same = { get16_put16_same };

    ghost get_put_other = { get16_put16_other };

    ghost word_in = { word16_in };

    ghost word_out = { word16_out };
}

impl Word for u32 {
    ghost use Rattle.words.specs.Words.{get32, put32, word32};
    ghost use Rattle.words.specs.Laws.{length_put32, get32_put32_same, get32_put32_other, word32_in, word32_out};

    ghost WIDTH = { 4 };

    ghost ZERO = { 0 };

    ghost fits = { λ v. v < 2 ^ 32 };

    ghost get = { get32 };

    ghost put = { put32 };

    ghost word = { word32 };

    const WIDTH: usize = 4;

    const ZERO: u32 = 0;

    #[tactic(auto, unfolding(crate::specs::Words::get32))]
    fn get(s: &[u8], at: usize) -> u32 {
        u32::from_le_bytes([s[at], s[at + 1], s[at + 2], s[at + 3]])
    }

    #[tactic(auto, using(crate::proofs::Writes::written32), unfolding(crate::specs::Words::le4))]
    fn put(s: &mut [u8], at: usize, v: u32) {
        s[at..at + 4].copy_from_slice(&v.to_le_bytes());
    }

    ghost length_put = { length_put32 };

    ghost get_put_same = { get32_put32_same };

    ghost get_put_other = { get32_put32_other };

    ghost word_in = { word32_in };

    ghost word_out = { word32_out };
}
