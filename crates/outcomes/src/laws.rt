// The laws of outcomes.
ghost use Rattle.outcomes.specs.Laws.{OutcomesDue};

// Each target has exactly one outcome that is due to it, and every finished trial tells it.
pub fn outcomes_stand()
    ensures { OutcomesDue }
{}
