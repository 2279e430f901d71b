// The verdict on a trial whose merging has come to its end.
ghost use Rattle.std.specs.Prelude.{◌↔◌, IsTrue};
ghost use Rattle.trial.specs.Judging.{AllAlike, Judged};

use crate::held::Held;
use law::outcome::Verdict;

impl Held {
    // Whether both sides of every pair show alike.
    fn all_alike(&self) -> bool
        ensures { IsTrue result ↔ AllAlike self.now }
    {
        let pairs = self.target.pairs();
        pairs.iter().all(|(one, other)| self.shown_as(*one) == self.shown_as(*other))
    }

    // Follows on a clash, or when both sides of every pair show alike.
    pub(crate) fn judge(&self) -> Verdict
        ensures { Judged self.now result }
    {
        if self.clashed || self.all_alike() {
            Verdict::Follows
        } else {
            Verdict::Fails
        }
    }
}
