// The fault of a join as a refusal.
ghost use Rattle.std.specs.Prelude.{◌≡◌};
ghost use Rattle.joins.specs.Joins.{join_refusal};

use crate::fault::JoinFault;
use rules::refusal::{Layer, Refusal};

impl From<JoinFault> for Refusal {
    ghost from_gives = { λ fault r. r ≡ join_refusal fault };

    fn from(fault: JoinFault) -> Refusal {
        let number = match fault {
            JoinFault::WidthsDiffer => 9,
            JoinFault::TooManyRules => 12,
        };
        Refusal {
            number,
            layer: Layer::Join,
            place: 0,
        }
    }
}
