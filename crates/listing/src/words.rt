// Terms and pairs as a listing shows them.
ghost use Rattle.std.specs.Prelude.{Some};
ghost use Rattle.listing.specs.Listing.{pair_text, term_text};

use rules::term::Term;
use std::fmt;

// A term in a list, after a space.
#[derive(Clone, Copy)]
pub(crate) struct Entry(pub Term);

impl fmt::Display for Entry {
    ghost output = { λ entry. Some (term_text entry.0) };

    fn fmt<W: fmt::Write>(&self, f: &mut fmt::Formatter<W>) -> fmt::Result {
        write!(f, " {}", self.0)
    }
}

// The line of a pair.
#[derive(Clone, Copy)]
pub(crate) struct PairLine(pub Term, pub Term);

impl fmt::Display for PairLine {
    ghost output = { λ pair. Some (pair_text (pair.0, pair.1)) };

    fn fmt<W: fmt::Write>(&self, f: &mut fmt::Formatter<W>) -> fmt::Result {
        write!(f, "  pair {} = {}\n", self.0, self.1)
    }
}
