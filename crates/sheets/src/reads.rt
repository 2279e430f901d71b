// What stands in a rule of a sheet's words.
ghost use Rattle.std.specs.Prelude.{◌≡◌, ◌+◌, ◌<◌, length, slice_index};
ghost use Rattle.std.specs.List.{slice_get};
ghost use Rattle.rules.specs.Books.{within};
ghost use Rattle.sheets.specs.Walk.{limit};
ghost use Rattle.sheets.specs.Reads.{term_of, kind_of, pair_in, left_place, pair_place, rule_at};
ghost use Rattle.sheets.specs.Facts.{Whole};
ghost use Rattle.rules.specs.declared.term.Kind.TheVariants.{Equality};

use rules::term::{BASE, Kind, Term};

// Functions and no `From`: these types are those of `rules`, which knows nothing of words, so the trait cannot be given
// to them here, and a word wrapped in a struct for it would be no plainer.
pub(crate) fn term_of(w: u32) -> Term
    requires { w < limit }
    ensures { result ≡ term_of w }
{
    if w < BASE {
        Term::Constant(w)
    } else {
        Term::Variable((w - BASE) as u8)
    }
}

pub(crate) fn kind_of(w: u32) -> Kind
    ensures { result ≡ kind_of w }
{
    match w {
        1 => Kind::Functional,
        _ => Kind::Equality,
    }
}

// The two terms of an equality pair.
fn two_terms(words: &[u32], at: usize) -> (Term, Term)
    requires { (at + 1 < length words.now) × ((slice_index words.now at < limit) × (slice_index words.now (at + 1) < limit)) }
    ensures { result ≡ pair_in Equality words.now at }
{
    (term_of(words[at]), term_of(words[at + 1]))
}

// A rule that stands whole in a sheet's words, and the place where it begins.
#[derive(Clone, Copy)]
pub(crate) struct RuleWords<'a> {
    pub words: &'a [u32],
    pub width: usize,
    pub at: usize,
    ghost whole: { Whole words.now width at },
}

impl<'a> RuleWords<'a> {
    // Where the left count stands.
    fn left_place(&self) -> usize
        ensures { result ≡ left_place self.now.words.now self.now.width self.now.at }
    {
        self.at + 2 + self.words[self.at + 1] as usize * self.width
    }

    // Where the pair count stands.
    fn pair_place(&self) -> usize
        ensures { result ≡ pair_place self.now.words.now self.now.width self.now.at }
    {
        let place = self.left_place();
        place + 1 + self.words[place] as usize
    }

    pub fn kind(&self) -> Kind
        ensures { result ≡ (rule_at self.now.words.now self.now.width self.now.at).kind }
    {
        kind_of(self.words[self.at])
    }

    pub fn rows(&self) -> usize
        ensures value { result ≡ length (rule_at self.now.words.now self.now.width self.now.at).pattern }
        ensures told { result ≡ slice_index self.now.words.now (self.now.at + 1) }
    {
        self.words[self.at + 1] as usize
    }

    pub fn term(&self, row: usize, column: usize) -> Option<Term>
        ensures { result ≡ within (slice_get (rule_at self.now.words.now self.now.width self.now.at).pattern row) (λ t. slice_get t column) }
    {
        if row >= self.rows() || column >= self.width {
            return None;
        }
        Some(term_of(self.words[self.at + 2 + row * self.width + column]))
    }

    pub fn left(&self, k: usize) -> Option<u8>
        ensures { result ≡ slice_get (rule_at self.now.words.now self.now.width self.now.at).left k }
    {
        let place = self.left_place();
        if k >= self.words[place] as usize {
            return None;
        }
        Some((self.words[place + 1 + k] - BASE) as u8)
    }

    pub fn pair(&self, k: usize) -> Option<(Term, Term)>
        ensures { result ≡ slice_get (rule_at self.now.words.now self.now.width self.now.at).pairs k }
    {
        let place = self.pair_place();
        if k >= self.words[place] as usize {
            return None;
        }
        match self.kind() {
            Kind::Functional => {
                let side = term_of(self.words[place + 1 + k]);
                Some((side, side))
            }
            Kind::Equality => Some(two_terms(self.words, place + 1 + k * 2)),
        }
    }
}
