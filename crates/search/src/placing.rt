// Placings: for each row of a pattern a row of the relation.
ghost use Rattle.std.specs.Prelude.{◌≡◌, ℕ, ◌<◌, List, length};
ghost use Rattle.search.specs.Placings.{place};

use crate::seen::Placing;
use crate::walk::Places;

pub trait Placement {
    ghost places: { Self → List ℕ };

    // The row of the relation that row `i` of the pattern goes to.
    fn row(&self, i: usize) -> usize
        requires { i < length (places self.now) }
        ensures { result ≡ place (places self.now) i };
}

impl Placement for Places {
    ghost places = { λ p. p.rows };

    fn row(&self, i: usize) -> usize {
        self.rows[i]
    }
}

impl Placement for Placing {
    ghost places = { λ p. p.rows };

    fn row(&self, i: usize) -> usize {
        self.rows[i] as usize
    }
}
