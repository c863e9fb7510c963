//! Messages as bytes: a reader that goes over lent ones from front to back, and what is put into an output. Numbers are in so many bytes, the most
//! significant first; a prefix is its length in one byte and then the fewest bytes that hold its bits, zeros behind them.
#![tactic(auto)]

ghost use Rattle.std.specs.Prelude.{◌≡◌};
ghost use Rattle.messages.specs.Meant.{of_reader};

use faults::{Fault, Layer, Refusal};

pub mod prefix;
pub mod reader;
pub mod writing;

/// A refusal by a reader, for the field that starts at a place.
pub fn fault(refusal: Refusal, place: usize) -> Fault
    ensures { result ≡ of_reader refusal place }
{
    Fault {
        refusal,
        layer: Layer::Reader,
        place,
    }
}
