// An output is closed.
ghost use Rattle.std.specs.Prelude.{◌≡◌};
ghost use Rattle.pieces.specs.Put.{Same};
ghost use Rattle.writing.specs.Filling.{closed_answer, closed_places};

use pieces::output::Output;
use text::list::blank_from;

// Puts zero into the places that are not used, or after a refusal into all. It answers how many are used.
pub fn close<E: Copy>(out: &mut Output, put: Result<(), E>) -> Result<usize, E>
    ensures same { Same out.old out.new }
    ensures answer { result ≡ closed_answer out.old put }
    ensures places { out.new.places.now ≡ closed_places out.old put }
{
    let used = put.map(|()| out.used);
    blank_from(out.places, used.unwrap_or(0), 0);
    used
}
