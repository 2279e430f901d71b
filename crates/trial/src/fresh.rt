// The record that a trial starts with.
ghost use Rattle.std.specs.Prelude.{◌≡◌, ℕ, ◌+◌, ◌<◌, false, slice_index};
ghost use Rattle.rules.specs.Books.{base};
ghost use Rattle.rules.specs.Loaded.{Form, meant};

use crate::held::{Held, SYMBOLS};
use rules::loaded::LoadedRule;
use rules::term::BASE;
use std::array;

// Each symbol alone in its group: it shows as itself.
fn alone() -> [u32; SYMBOLS]
    ensures { (v : ℕ) → v < 64 → slice_index result v ≡ base + v }
{
    array::from_fn(|symbol| BASE + symbol as u32)
}

impl Held {
    // A trial of this target as it starts.
    pub(crate) fn fresh(target: LoadedRule) -> Held
        requires { Form target.width (meant target) }
        ensures target { result.target ≡ target }
        ensures alone { (v : ℕ) → v < 64 → slice_index result.shown v ≡ base + v }
        ensures merges { result.merges ≡ 0 }
        ensures calm { result.clashed ≡ false }
        ensures first { result.at ≡ 0 }
    {
        Held {
            target,
            shown: alone(),
            merges: 0,
            clashed: false,
            at: 0,
        }
    }
}
