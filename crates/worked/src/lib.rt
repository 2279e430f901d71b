// Eight trials worked through, proved of the definitions.
#![tactic(auto)]

ghost use Rattle.worked.specs.Works.{EveryCaseWorks};

// What every trial of each case comes to, whichever open spots it takes.
pub fn every_case_works()
    ensures { EveryCaseWorks }
{}
