// A wait in two halves, all clocks fit and all invariants hold, and the clocks after it.
ghost use Rattle.std.specs.Prelude.{◌≡◌, true, ℕ, ◌≤◌, ◌<◌, length, get_or};
ghost use Rattle.laws.specs.Below.{all_below};
ghost use Rattle.graph_tables.specs.Sizes.{clock_room};
ghost use Rattle.graph_tables.specs.Words.{location_count, clock_count};
ghost use Rattle.graph_tables.specs.Sound.{Sound};
ghost use Rattle.run_steps.specs.Steps.{clock_fits, shifted_below, place_holds};

use crate::inner::limits;
use time;

// No clock passes the last time. `(0..n).all(..)` costs a wait 7 per cent more instructions than this loop, and the test of a run's words 10.
pub fn clocks_fit(clocks: &[u64], n: usize, delta: u32) -> bool
    requires { n ≤ length clocks.now }
    ensures { result ≡ all_below n (clock_fits clocks.now delta) }
{
    let last = (time::LAST - delta) as u64;
    for i in 0..n {
        if last < clocks[i] {
            return false;
        }
    }
    true
}

// The first n clocks moved.
pub fn shift(clocks: &mut [u64], n: usize, delta: u32)
    requires { (n ≤ length clocks.old) × (all_below n (clock_fits clocks.old delta) ≡ true) }
    ensures { clocks.new ≡ shifted_below clocks.old delta n }
{
    for i in 0..n {
        clocks[i] = clocks[i] + delta as u64;
    }
}

// The invariants at the place of every process.
pub fn places_hold(t: &[u64], places: &[u64], clocks: &[u64]) -> bool
    requires { Sound t.now × (length clocks.now ≡ clock_room)
        × ((p : ℕ) → p < length places.now → get_or places.now p 0 < location_count t.now) }
    ensures { result ≡ all_below (length places.now) (place_holds t.now places.now clocks.now) }
{
    (0..places.len()).all(|p| limits::invariants_hold(t, places[p] as usize, clocks))
}

// The same once the clocks are moved.
pub fn places_hold_later(t: &[u64], places: &[u64], clocks: &[u64], delta: u32) -> bool
    requires { Sound t.now × (length clocks.now ≡ clock_room)
        × ((p : ℕ) → p < length places.now → get_or places.now p 0 < location_count t.now)
        × (all_below (clock_count t.now) (clock_fits clocks.now delta) ≡ true) }
    ensures { result ≡ all_below (length places.now)
        (place_holds t.now places.now (shifted_below clocks.now delta (clock_count t.now))) }
{
    (0..places.len()).all(|p| limits::invariants_hold_later(t, places[p] as usize, clocks, delta))
}
