// The law of the lines that a summary names.
ghost use Rattle.summary.specs.Laws.{LinesStand};

// Each rule and each target of a text begins on the line that its summary says.
pub fn lines_stand()
    ensures { LinesStand }
{}
