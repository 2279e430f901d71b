// Each lower fault arrives whole, and so does its refusal.
ghost use Rattle.std.specs.Prelude.{◌≡◌};
ghost use Rattle.report.specs.Faults.{report_refusal};
ghost use Rattle.report.specs.declared.fault.ReportFault.TheVariants.{Reading, Book, Joining, Trial, Short};

use crate::fault::ReportFault;
use joins::fault::JoinFault;
use reader::fault::ReadFault;
use rules::fault::BookFault;
use rules::refusal::Refusal;
use trial::fault::TrialFault;
use writing::room::TooShort;

impl From<ReadFault> for ReportFault {
    ghost from_gives = { λ e r. r ≡ Reading e };

    fn from(e: ReadFault) -> ReportFault {
        ReportFault::Reading(e)
    }
}

impl From<BookFault> for ReportFault {
    ghost from_gives = { λ e r. r ≡ Book e };

    fn from(e: BookFault) -> ReportFault {
        ReportFault::Book(e)
    }
}

impl From<JoinFault> for ReportFault {
    ghost from_gives = { λ e r. r ≡ Joining e };

    fn from(e: JoinFault) -> ReportFault {
        ReportFault::Joining(e)
    }
}

impl From<TrialFault> for ReportFault {
    ghost from_gives = { λ e r. r ≡ Trial e };

    fn from(e: TrialFault) -> ReportFault {
        ReportFault::Trial(e)
    }
}

impl From<TooShort> for ReportFault {
    ghost from_gives = { λ e r. r ≡ Short e };

    fn from(e: TooShort) -> ReportFault {
        ReportFault::Short(e)
    }
}

// The refusal as every layer tells it, with its number, its layer and its place.
impl From<ReportFault> for Refusal {
    ghost from_gives = { λ fault refusal. refusal ≡ report_refusal fault };

    fn from(fault: ReportFault) -> Refusal {
        match fault {
            ReportFault::Reading(e) => e.into(),
            ReportFault::Book(e) => e.into(),
            ReportFault::Joining(e) => e.into(),
            ReportFault::Trial(e) => e.into(),
            ReportFault::Short(e) => e.into(),
        }
    }
}
