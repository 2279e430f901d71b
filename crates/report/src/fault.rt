// Why there is no report. A plain type with no clause, so that definitions in specs/ may name it.
use joins::fault::JoinFault;
use reader::fault::ReadFault;
use rules::fault::BookFault;
use trial::fault::TrialFault;
use writing::room::TooShort;

// The fault of the layer that refused, whole, or that the output is too short.
#[derive(Clone, Copy, PartialEq, Eq, Debug)]
pub enum ReportFault {
    Reading(ReadFault),
    Book(BookFault),
    Joining(JoinFault),
    Trial(TrialFault),
    Short(TooShort),
}
