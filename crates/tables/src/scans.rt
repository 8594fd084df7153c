// The form of the check's tests, over a test of a number as a parameter: the first place at which it is false, and whether it holds
// of every number below a bound, or of some. `position`, `all` and `any` of a range would do the same; these have the rules' definitions
// in their contracts, so that a caller's answer only names the test. The test of a production is handed a place besides, which its scan
// carries.
ghost use Rattle.std.specs.Prelude.{ℕ, Bool, ◌≡◌, ◌<◌, ◌^◌};
ghost use Rattle.rules.specs.Basics.{all_below, any_below};
ghost use Rattle.rules.specs.Tables.{production_count, right_start};
ghost use Rattle.tables.specs.Places.{first_bad};

use crate::Tables;

// "lowest place first": the first of the n places at which the test is false.
pub fn first_bad<F: Fn(usize) -> bool>(n: usize, fits: F) -> Option<u32>
    requires small { n < 2 ^ 32 }
    requires callable { (i : ℕ) → i < n → F.pre fits i }
    ensures { (ok : ℕ → Bool) → ((i : ℕ) (b : Bool) → i < n → F.post fits i b → b ≡ ok i) → result ≡ first_bad ok 0 n }
{
    for i in 0..n {
        if !fits(i) {
            return Some(i as u32);
        }
    }
    None
}

// The same of the productions, each with the place at which its right side starts: the scan carries it from one to the next.
pub fn first_bad_production<F: Fn(usize, usize) -> bool>(t: &Tables, fits: F) -> Option<u32>
    requires callable { (p : ℕ) → p < production_count t.now → p < 2 ^ 16 → right_start t.now p < 2 ^ 32 → F.pre fits p (right_start t.now p) }
    ensures { (ok : ℕ → Bool) → ((p : ℕ) (b : Bool) → p < production_count t.now → F.post fits p (right_start t.now p) b → b ≡ ok p) → result ≡ first_bad ok 0 (production_count t.now) }
{
    let mut start = 0;
    for p in 0..t.production_count() {
        if !fits(p, start) {
            return Some(p as u32);
        }
        start += t.size(p);
    }
    None
}

pub fn all_below<F: Fn(usize) -> bool>(n: usize, holds: F) -> bool
    requires { (i : ℕ) → i < n → F.pre holds i }
    ensures { (f : ℕ → Bool) → ((i : ℕ) (b : Bool) → i < n → F.post holds i b → b ≡ f i) → result ≡ all_below n f }
{
    for i in 0..n {
        if !holds(i) {
            return false;
        }
    }
    true
}

pub fn any_below<F: Fn(usize) -> bool>(n: usize, holds: F) -> bool
    requires { (i : ℕ) → i < n → F.pre holds i }
    ensures { (f : ℕ → Bool) → ((i : ℕ) (b : Bool) → i < n → F.post holds i b → b ≡ f i) → result ≡ any_below n f }
{
    for i in 0..n {
        if holds(i) {
            return true;
        }
    }
    false
}
