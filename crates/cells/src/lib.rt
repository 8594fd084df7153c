// Signed cell decoding: what the 16 bits of an action or goto cell say.
#![tactic(auto)]

ghost use Rattle.std.specs.Prelude.{◌≡◌};
ghost use Rattle.cells.specs.Cells.{cell16};

use rules::{Cell, ProdNo, StateNo};

// "Cell i > 0 shifts to state i-1; i < 0 reduces production -(i+1); 0 is error. -32768 is reduction 32767." The bits are read
// as they are, with no signed arithmetic: those from 32768 up are the negative cells, and -(i+1) is 65535 less the bits.
pub fn decode(bits: u16) -> Cell
    ensures { result ≡ cell16 bits }
{
    match bits {
        0 => Cell::Error,
        1..=32767 => Cell::Shift(StateNo(bits as u32 - 1)),
        32768.. => Cell::Reduce(ProdNo(65535 - bits as u32)),
    }
}
