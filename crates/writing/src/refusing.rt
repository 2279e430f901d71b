// The fault of a report as a refusal.
ghost use Rattle.std.specs.Prelude.{◌≡◌};
ghost use Rattle.writing.specs.Faults.{short_refusal};

use crate::room::TooShort;
use rules::refusal::{Layer, Refusal};

impl From<TooShort> for Refusal {
    ghost from_gives = { λ fault refusal. refusal ≡ short_refusal fault };

    fn from(fault: TooShort) -> Refusal {
        Refusal {
            number: 13,
            layer: Layer::Report,
            place: fault.place,
        }
    }
}
