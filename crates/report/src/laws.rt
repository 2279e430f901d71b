// The laws of reports.
ghost use Rattle.report.specs.Laws.{OneReport};
ghost use Rattle.report.specs.Answered.{OneAnswer, OnePrinted};

use sheets::laws::layout_stands;

// A text has one report, and one thing is printed: it does not depend on which open spots were taken.
pub fn one_report_stands()
    ensures report { OneReport }
    ensures answer { OneAnswer }
    ensures printed { OnePrinted }
{
    // what is laid out reads back
    layout_stands();
}
