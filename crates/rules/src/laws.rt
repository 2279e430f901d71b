// The laws of rules.
ghost use Rattle.rules.specs.Doubled.{Doubling};
ghost use Rattle.rules.specs.Laws.{KeepingReads};

// What it is to keep a rule, said for each kind as the plain sentence says it.
pub fn keeping_reads()
    ensures { KeepingReads }
{}

// A rule and the equality rule on its doubled form say the same.
pub fn doubling_stands()
    ensures { Doubling }
{}
