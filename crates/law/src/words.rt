// How an advance stopped and what a trial says of its target, in a word.
ghost use Rattle.std.specs.Prelude.{Some};
ghost use Rattle.law.specs.Words.{stop_word, verdict_word};

use crate::outcome::{Stop, Verdict};
use std::fmt;

impl fmt::Display for Stop {
    ghost output = { λ stop. Some (stop_word stop) };

    fn fmt<W: fmt::Write>(&self, f: &mut fmt::Formatter<W>) -> fmt::Result {
        f.write_str(match self {
            Stop::Spent => "spent",
            Stop::Rest => "rest",
            Stop::Clash => "clash",
        })
    }
}

impl fmt::Display for Verdict {
    ghost output = { λ verdict. Some (verdict_word verdict) };

    fn fmt<W: fmt::Write>(&self, f: &mut fmt::Formatter<W>) -> fmt::Result {
        f.write_str(match self {
            Verdict::Void => "void",
            Verdict::Follows => "follows",
            Verdict::Fails => "fails",
        })
    }
}
