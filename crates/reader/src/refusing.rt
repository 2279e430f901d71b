// The fault of a reader as a refusal, and no place left as a cause.
ghost use Rattle.std.specs.Prelude.{◌≡◌};
ghost use Rattle.reader.specs.declared.fault.Cause.TheVariants.{Room};
ghost use Rattle.reader.specs.Faults.{cause_number, read_refusal};

use crate::fault::{Cause, ReadFault};
use rules::refusal::{Layer, Refusal};
use text::list::Full;

impl Cause {
    // Its number in the table of refusals.
    pub fn number(self) -> u8
        ensures { result ≡ cause_number self }
    {
        self as u8
    }
}

impl From<Full> for Cause {
    ghost from_gives = { λ _ cause. cause ≡ Room };

    fn from(_full: Full) -> Cause {
        Cause::Room
    }
}

// The refusal as every layer tells it.
impl From<ReadFault> for Refusal {
    ghost from_gives = { λ fault refusal. refusal ≡ read_refusal fault };

    fn from(fault: ReadFault) -> Refusal {
        Refusal {
            number: fault.cause.number(),
            layer: Layer::Reader,
            place: fault.line,
        }
    }
}
