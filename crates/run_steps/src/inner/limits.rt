// Limits of transitions and invariants of locations, on clocks that are lent.
ghost use Rattle.std.specs.Prelude.{◌≡◌, true, ◌<◌, length};
ghost use Rattle.laws.specs.Below.{all_below};
ghost use Rattle.graph_tables.specs.Sizes.{clock_room, group_room, limit_room};
ghost use Rattle.graph_tables.specs.Words.{Words, clock_of, location_count, clock_count};
ghost use Rattle.graph_tables.specs.Sound.{Sound, LimitsSound};
ghost use Rattle.run_steps.specs.Lowest.{lowest};
ghost use Rattle.run_steps.specs.Steps.{limit_holds, limits_hold, invariants_hold, clock_fits, shifted_below};

use graph_tables::inner;

// Limit i of a group holds.
fn limit_holds(t: &[u64], g: usize, i: usize, clocks: &[u64]) -> bool
    requires { Words t.now × (g < group_room) × (i < limit_room) × (clock_of t.now g i < length clocks.now) }
    ensures { result ≡ limit_holds t.now g clocks.now i }
{
    let time = clocks[inner::clock_of(t, g, i)];
    if !inner::lower_met(inner::lower_of(t, g, i), time) {
        return false;
    }
    inner::upper_met(inner::upper_of(t, g, i), time)
}

// The first limit of a group that does not hold, n if there is none.
pub fn first_unmet(t: &[u64], g: usize, n: usize, clocks: &[u64]) -> usize
    requires { Sound t.now × (g < group_room) × LimitsSound t.now g n × (length clocks.now ≡ clock_room) }
    ensures { result ≡ lowest n (limit_holds t.now g clocks.now) }
{
    for i in 0..n {
        if !limit_holds(t, g, i, clocks) {
            return i;
        }
    }
    n
}

// Every limit of a group holds.
pub fn limits_hold(t: &[u64], g: usize, n: usize, clocks: &[u64]) -> bool
    requires { Sound t.now × (g < group_room) × LimitsSound t.now g n × (length clocks.now ≡ clock_room) }
    ensures { result ≡ limits_hold t.now g n clocks.now }
{
    first_unmet(t, g, n, clocks) == n
}

// Every invariant of a location holds.
pub fn invariants_hold(t: &[u64], l: usize, clocks: &[u64]) -> bool
    requires { Sound t.now × (l < location_count t.now) × (length clocks.now ≡ clock_room) }
    ensures { result ≡ invariants_hold t.now clocks.now l }
{
    limits_hold(
        t,
        inner::invariant_group(l),
        inner::invariant_count(t, l),
        clocks,
    )
}

// Limit i of a group holds once the clocks are moved.
fn limit_holds_later(t: &[u64], g: usize, i: usize, clocks: &[u64], delta: u32) -> bool
    requires { Sound t.now × (g < group_room) × (i < limit_room) × (clock_of t.now g i < clock_count t.now)
        × (length clocks.now ≡ clock_room) × (all_below (clock_count t.now) (clock_fits clocks.now delta) ≡ true) }
    ensures { result ≡ limit_holds t.now g (shifted_below clocks.now delta (clock_count t.now)) i }
{
    let time = clocks[inner::clock_of(t, g, i)] + delta as u64;
    if !inner::lower_met(inner::lower_of(t, g, i), time) {
        return false;
    }
    inner::upper_met(inner::upper_of(t, g, i), time)
}

// Every invariant of a location holds once the clocks are moved: each clock is read where it is.
pub fn invariants_hold_later(t: &[u64], l: usize, clocks: &[u64], delta: u32) -> bool
    requires { Sound t.now × (l < location_count t.now) × (length clocks.now ≡ clock_room)
        × (all_below (clock_count t.now) (clock_fits clocks.now delta) ≡ true) }
    ensures { result ≡ invariants_hold t.now (shifted_below clocks.now delta (clock_count t.now)) l }
{
    let g = inner::invariant_group(l);
    (0..inner::invariant_count(t, l)).all(|i| limit_holds_later(t, g, i, clocks, delta))
}
