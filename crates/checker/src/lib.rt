// The check 10 to 17: one scan for each number, "in this order, lowest place first".
#![tactic(auto)]

ghost use Rattle.std.specs.Prelude.{◌≡◌};
ghost use Rattle.rules.specs.Verdict.{Passes};
ghost use Rattle.rules.specs.Check.{check};
ghost use Rattle.tables.specs.Places.{verdict_at};

use coming::scan15;
use following::scan17;
use items::reducing::scan16;
use rules::Refusal;
use shapes::closed::scan13;
use shapes::entries::scan11;
use shapes::items::scan14;
use shapes::sizes::scan10;
use shapes::symbols::scan12;
use tables::Tables;

// What the scan for a number says: the place that it found is refused with that number.
fn none_at(number: u32, found: Option<u32>) -> Result<(), Refusal>
    ensures { result ≡ verdict_at number found Passes }
{
    match found {
        Some(place) => Err(Refusal { number, place }),
        None => Ok(()),
    }
}

// "The check, in this order, lowest place first": each scan is made where none before it found a place to refuse.
#[tactic(auto, using(crate::specs::Chain::check_at))]
pub fn check(t: &Tables) -> Result<(), Refusal>
    ensures { result ≡ check t.now }
{
    // The sizes, flags and set bits are in range, and the lists are as long as the sizes say.
    none_at(10, scan10(t))?;
    // Every cell names a state or a production and may stand where it stands.
    none_at(11, scan11(t))?;
    // Left sides and symbols are in range, and production 0 is shaped as it must be.
    none_at(12, scan12(t))?;
    // The nullable flags and first sets are closed under every production.
    none_at(13, scan13(t))?;
    // The items are in range and strictly ascending.
    none_at(14, scan14(t))?;
    // Every item past its production's start was come to over the symbol before its dot.
    none_at(15, scan15(t))?;
    // Every reduce cell's state has that production's item at its end.
    none_at(16, scan16(t))?;
    // Every item has its follow-ups, and (0, 0, 0, end) is there.
    none_at(17, scan17(t))
}
