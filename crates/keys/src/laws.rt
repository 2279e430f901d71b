// The laws of key lists.
ghost use Rattle.keys.specs.Laws.{Faults, KeysAreDependencies};

// A key list that is not sound has one first fault.
pub fn faults_stand()
    ensures { Faults }
{}

// The rules of a key list are the functional dependencies of the textbooks.
pub fn keys_are_dependencies()
    ensures { KeysAreDependencies }
{}
