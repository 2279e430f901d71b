// The laws of what is written.
ghost use Rattle.writing.specs.Fitting.{Fitting};
ghost use Rattle.writing.specs.Enough.{Enough};

// There is exactly one answer, and it is a refusal exactly if what is to be written is longer than the output.
pub fn fitting_stands()
    ensures { Fitting }
{}

// An output of a fixed size is long enough for every report, and one of 40 bytes for every refusal.
pub fn enough_stands()
    ensures { Enough }
{}
