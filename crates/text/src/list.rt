// A list over places that the caller lends.
ghost use Rattle.std.specs.Prelude.{◌≡◌, ◌+◌, ◌-◌, ◌<◌, ◌≤◌, [], ◌∷◌, ◌++◌, length, take, replicate, MatchResult};
ghost use Rattle.std.specs.List.{slice_get};
ghost use Rattle.text.specs.Filled.{items, room, Same};

// How many elements a list holds at most, however many places are lent.
pub const CAPACITY: usize = 4_096;

// One list over lent places serves every type of element, pushed and read by the functions below: nothing is allocated here.
#[derive(Drop)]
pub struct Places<'a, T: Copy> {
    pub places: &'a mut [T],
    pub used: usize,
}

// No place is left.
#[derive(Clone, Copy, PartialEq, Eq, Debug)]
pub struct Full;

// Takes x at the end, or refuses when no place is left.
pub fn push<T: Copy>(list: &mut Places<T>, x: T) -> Result<(), Full>
    ensures same { Same list.old list.new }
    ensures cases { MatchResult result
        (λ _. (list.old.used < room list.old)
        × (list.new.used ≡ list.old.used + 1)
        × (items list.new ≡ items list.old ++ x ∷ []))
        (λ _. (room list.old ≤ list.old.used)
        × (list.new.used ≡ list.old.used)
        × (items list.new ≡ items list.old)) }
{
    if list.used >= list.places.len().min(CAPACITY) {
        return Err(Full);
    }
    list.places[list.used] = x;
    list.used += 1;
    Ok(())
}

// The one at a place, or none past the end.
pub fn get<T: Copy>(list: &Places<T>, i: usize) -> Option<T>
    ensures { result ≡ slice_get (items list.now) i }
{
    let used = list.used.min(list.places.len());
    list.places[..used].get(i).copied()
}

// Puts zero into each place from `from` on.
pub fn blank_from<T: Copy>(places: &mut [T], from: usize, zero: T)
    ensures { places.new ≡ take from places.old ++ replicate (length places.old - from) zero }
{
    let from = from.min(places.len());
    places[from..].fill_with(|| zero);
}

// Puts zero into each place that is not used.
pub fn blank_rest<T: Copy>(list: &mut Places<T>, zero: T)
    ensures same { Same list.old list.new }
    ensures kept { list.new.used ≡ list.old.used }
    ensures places { list.new.places.now ≡ items list.old ++ replicate (length list.old.places.now - list.old.used) zero }
{
    let used = list.used;
    blank_from(list.places, used, zero);
}
