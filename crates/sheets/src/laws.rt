// The laws of sheets.
ghost use Rattle.sheets.specs.Laws.{WrittenPasses, PassingIsWritten, FailingIsFirst};
ghost use Rattle.sheets.specs.Worked.{FrontOfNone, WorkedFaults};

// Laid out and read back, for words that no one has checked or opened yet.
pub fn layout_stands()
    ensures written { WrittenPasses }
    ensures passing { PassingIsWritten }
    ensures failing { FailingIsFirst }
{}

// Where some sheets fail.
pub fn faults_stand()
    ensures worked { WorkedFaults }
    ensures dead { FrontOfNone }
{}
