// The fault of a book as a refusal.
ghost use Rattle.std.specs.Prelude.{◌≡◌};
ghost use Rattle.rules.specs.Faults.{book_refusal};

use crate::fault::BookFault;
use crate::refusal::{Layer, Refusal};

impl From<BookFault> for Refusal {
    ghost from_gives = { λ fault r. r ≡ book_refusal fault };

    fn from(fault: BookFault) -> Refusal {
        Refusal {
            number: 7,
            layer: Layer::Book,
            place: fault.place,
        }
    }
}
