// The fault of a trial as a refusal.
ghost use Rattle.std.specs.Prelude.{◌≡◌};
ghost use Rattle.trial.specs.Faults.{trial_refusal};

use crate::fault::TrialFault;
use rules::refusal::{Layer, Refusal};

impl From<TrialFault> for Refusal {
    ghost from_gives = { λ fault r. r ≡ trial_refusal fault };

    fn from(fault: TrialFault) -> Refusal {
        let (number, place) = match fault {
            TrialFault::NotBlank => (10, 0),
            TrialFault::NoRule(rule) => (8, rule),
            TrialFault::WidthsDiffer => (9, 0),
            TrialFault::StillBlank => (11, 0),
        };
        Refusal {
            number,
            layer: Layer::Trial,
            place,
        }
    }
}
