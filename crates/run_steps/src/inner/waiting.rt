// Whether some transition will be open later, over clocks and places that are lent.
ghost use Rattle.std.specs.Prelude.{◌≡◌, ◌<◌, length};
ghost use Rattle.laws.specs.Below.{all_below, any_below};
ghost use Rattle.graph_tables.specs.Sizes.{clock_room, group_room, limit_room, location_room, transition_room};
ghost use Rattle.graph_tables.specs.Words.{Words, clock_of, pre_of, action_of, post_of, transition_count};
ghost use Rattle.graph_tables.specs.Sound.{LimitsSound, Sound};
ghost use Rattle.run_steps.specs.Steps.{leaves_by};
ghost use Rattle.run_steps.specs.Waiting.{PlacesKnown, lower_unmet, upper_holds, due_of, coming_of, shared_of, awaited_of, process_waits};
ghost use Rattle.run_steps.specs.Waiting.{waiting_of};

use graph_tables::inner;

// The lower bound of limit i is not yet met.
fn lower_unmet(t: &[u64], g: usize, i: usize, clocks: &[u64]) -> bool
    requires { Words t.now × (g < group_room) × (i < limit_room) × (clock_of t.now g i < length clocks.now) }
    ensures { result ≡ lower_unmet t.now g clocks.now i }
{
    let time = clocks[inner::clock_of(t, g, i)];
    !inner::lower_met(inner::lower_of(t, g, i), time)
}

// The upper bound of limit i is not passed.
fn upper_holds(t: &[u64], g: usize, i: usize, clocks: &[u64]) -> bool
    requires { Words t.now × (g < group_room) × (i < limit_room) × (clock_of t.now g i < length clocks.now) }
    ensures { result ≡ upper_holds t.now g clocks.now i }
{
    let time = clocks[inner::clock_of(t, g, i)];
    inner::upper_met(inner::upper_of(t, g, i), time)
}

fn any_unmet(t: &[u64], g: usize, n: usize, clocks: &[u64]) -> bool
    requires { Sound t.now × (g < group_room) × LimitsSound t.now g n × (length clocks.now ≡ clock_room) }
    ensures { result ≡ any_below n (lower_unmet t.now g clocks.now) }
{
    (0..n).any(|i| lower_unmet(t, g, i, clocks))
}

fn none_passed(t: &[u64], g: usize, n: usize, clocks: &[u64]) -> bool
    requires { Sound t.now × (g < group_room) × LimitsSound t.now g n × (length clocks.now ≡ clock_room) }
    ensures { result ≡ all_below n (upper_holds t.now g clocks.now) }
{
    (0..n).all(|i| upper_holds(t, g, i, clocks))
}

// Among the limits of one group some lower bound is not yet met, and no upper bound is passed.
fn is_due(t: &[u64], g: usize, n: usize, clocks: &[u64]) -> bool
    requires { Sound t.now × (g < group_room) × LimitsSound t.now g n × (length clocks.now ≡ clock_room) }
    ensures { result ≡ due_of t.now g n clocks.now }
{
    if !any_unmet(t, g, n, clocks) {
        return false;
    }
    none_passed(t, g, n, clocks)
}

// So it is among the limits of transition k, or among the invariants of its post-location: one list at a time.
fn is_coming(t: &[u64], k: usize, clocks: &[u64]) -> bool
    requires { Sound t.now × (k < transition_count t.now) × (length clocks.now ≡ clock_room) }
    ensures { result ≡ coming_of t.now clocks.now k }
{
    if is_due(t, k, inner::limit_count(t, k), clocks) {
        return true;
    }
    let post = inner::post_of(inner::key_of(t, k));
    is_due(
        t,
        inner::invariant_group(post),
        inner::invariant_count(t, post),
        clocks,
    )
}

// Transition k leaves a location by an action. Both stand in the first key that such a transition may have, so that one
// comparison tests them.
pub fn leaves_by(t: &[u64], first: u64, k: usize) -> bool
    requires { Words t.now × (k < transition_room) × (post_of first ≡ 0) }
    ensures { result ≡ leaves_by t.now (pre_of first) (action_of first) k }
{
    let key = inner::key_of(t, k);
    key - inner::post_of(key) as u64 == first
}

// A location has the action.
fn has_action(t: &[u64], pre: u64, action: u32) -> bool
    requires { Sound t.now × (pre < location_room) }
    ensures { result ≡ any_below (transition_count t.now) (leaves_by t.now pre action) }
{
    let first = inner::key_with(pre, action, 0);
    (0..inner::transition_count(t)).any(|k| leaves_by(t, first, k))
}

// Every process's location has the action.
pub fn is_shared(t: &[u64], places: &[u64], action: u32) -> bool
    requires { Sound t.now × PlacesKnown t.now places.now }
    ensures { result ≡ shared_of t.now places.now (length places.now) action }
{
    (0..places.len()).all(|p| has_action(t, places[p], action))
}

// Transition k leaves the location of process p by an action that all have, and will be open later.
fn is_awaited(t: &[u64], clocks: &[u64], places: &[u64], p: usize, k: usize) -> bool
    requires { Sound t.now × (length clocks.now ≡ clock_room) × PlacesKnown t.now places.now × (p < length places.now)
        × (k < transition_count t.now) }
    ensures { result ≡ awaited_of t.now clocks.now places.now (length places.now) p k }
{
    let key = inner::key_of(t, k);
    if inner::pre_of(key) != places[p] as usize {
        return false;
    }
    if !is_coming(t, k, clocks) {
        return false;
    }
    is_shared(t, places, inner::action_of(key))
}

fn process_waits(t: &[u64], clocks: &[u64], places: &[u64], p: usize) -> bool
    requires { Sound t.now × (length clocks.now ≡ clock_room) × PlacesKnown t.now places.now × (p < length places.now) }
    ensures { result ≡ process_waits t.now clocks.now places.now (length places.now) p }
{
    (0..inner::transition_count(t)).any(|k| is_awaited(t, clocks, places, p, k))
}

// Some process has such a transition. The places are those of the run's processes and no more.
pub fn waiting(t: &[u64], clocks: &[u64], places: &[u64]) -> bool
    requires { Sound t.now × (length clocks.now ≡ clock_room) × PlacesKnown t.now places.now }
    ensures { result ≡ waiting_of t.now clocks.now places.now (length places.now) }
{
    (0..places.len()).any(|p| process_waits(t, clocks, places, p))
}
