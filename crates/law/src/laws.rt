// The laws of trials.
ghost use Rattle.law.specs.Laws.{AnswersDue, EveryRunEnds, EveryTrialEnds, GroupsShow, ImpliedOrBroken, MoreRulesStillARun, PromiseKept, RunsEndAlike, SameEndWhicheverSpots};
ghost use Rattle.law.specs.Renaming.{KeepingUnmoved};
ghost use Rattle.law.specs.Standing.{EveryCallPromised, EveryFinishPromised};
ghost use Rattle.law.specs.Stored.{Storing};

// Every list of calls keeps the promise, whichever open spots are taken.
pub fn promise_kept()
    ensures { PromiseKept }
{}

// A call that does what it may keeps the promise, after every history.
pub fn every_call_promised()
    ensures { EveryCallPromised }
{}

// So does a finish.
pub fn every_finish_promised()
    ensures { EveryFinishPromised }
{}

// After every list of calls a trial can be brought to its end.
pub fn every_trial_ends()
    ensures { EveryTrialEnds }
{}

// Two finished trials of one target over one book end alike, whichever open spots they took.
pub fn same_end_whichever_spots()
    ensures { SameEndWhicheverSpots }
{}

// Every run of merges can be brought to its end.
pub fn every_run_ends()
    ensures { EveryRunEnds }
{}

// Two runs of one target that have ended did so alike.
pub fn runs_end_alike()
    ensures { RunsEndAlike }
{}

// Where a run comes to rest, its merges tell the answer to every advance.
pub fn answers_due()
    ensures { AnswersDue }
{}

// A rule is implied, or some relation keeps the book and breaks it.
pub fn implied_or_broken()
    ensures { ImpliedOrBroken }
{}

// A list of numbers holds a state, and one pass over it makes a merge.
pub fn storing_stands()
    ensures { Storing }
{}

// A group shows as its constant, or else as its least symbol.
pub fn groups_show()
    ensures { GroupsShow }
{}

// A run by some rules is a run by more.
pub fn more_rules_still_a_run()
    ensures { MoreRulesStillARun }
{}

// Keeping a rule is unmoved by a renaming that moves no constant.
pub fn keeping_unmoved()
    ensures { KeepingUnmoved }
{}
