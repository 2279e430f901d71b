// Spots, by the placings that break a rule there.
ghost use Rattle.std.specs.Prelude.{◌≡◌, ℕ, ◌+◌, ◌<◌, ◌≤◌, ◌⊎◌, length, slice_index};
ghost use Rattle.search.specs.Placings.{place};

use crate::placing::Placement;
use crate::seen::Parting;
use crate::spot::Spot;
use crate::walk::{Difference, Split};

// Writes the rows that a placing goes to, from place `from` on: one by one, as a placing tells them.
fn put<P: Placement>(places: &mut [usize; 8], from: usize, placing: &P, count: usize)
    requires room { from + count ≤ 8 }
    requires rows { count ≤ length (P.places placing.now) }
    ensures here { (i : ℕ) → i < count → slice_index places.new (from + i) ≡ place (P.places placing.now) i }
    ensures others { (i : ℕ) → (i < from) ⊎ (from + count ≤ i) → slice_index places.new i ≡ slice_index places.old i }
{
    for i in 0..count {
        places[from + i] = placing.row(i);
    }
}

fn spot(number: usize, places: [usize; 8], difference: Difference) -> Spot
    ensures { result ≡ record { rule = number; pair = difference.pair; places = places; one = difference.one; other = difference.other } }
{
    Spot {
        rule: number,
        pair: difference.pair,
        places,
        one: difference.one,
        other: difference.other,
    }
}

// The spot of a placing: the places of the pattern's rows, then 0.
pub(crate) fn spot_of(number: usize, split: &Split, count: usize) -> Spot
    requires { count ≤ 8 }
    ensures rule { result.rule ≡ number }
    ensures pair { result.pair ≡ split.now.difference.pair }
    ensures one { result.one ≡ split.now.difference.one }
    ensures other { result.other ≡ split.now.difference.other }
    ensures here { (i : ℕ) → i < count → slice_index result.places i ≡ place split.now.places.rows i }
    ensures rest { (i : ℕ) → count ≤ i → slice_index result.places i ≡ 0 }
{
    let mut places: [usize; 8] = [0; 8];
    put(&mut places, 0, &split.places, count);
    spot(number, places, split.difference)
}

// The spot of two placings: the places of the first, those of the second, then 0.
pub(crate) fn joint_spot(number: usize, parting: &Parting, count: usize) -> Spot
    requires { count ≤ 4 }
    ensures rule { result.rule ≡ number }
    ensures pair { result.pair ≡ parting.now.difference.pair }
    ensures one { result.one ≡ parting.now.difference.one }
    ensures other { result.other ≡ parting.now.difference.other }
    ensures here { (i : ℕ) → i < count → slice_index result.places i ≡ place parting.now.first.rows i }
    ensures there { (i : ℕ) → i < count → slice_index result.places (count + i) ≡ place parting.now.second.rows i }
    ensures rest { (i : ℕ) → count + count ≤ i → slice_index result.places i ≡ 0 }
{
    let mut places: [usize; 8] = [0; 8];
    put(&mut places, 0, &parting.first, count);
    put(&mut places, count, &parting.second, count);
    spot(number, places, parting.difference)
}
