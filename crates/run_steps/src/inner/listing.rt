// What a run may do next, one entry at a time, over the parts of a run that are lent.
ghost use Rattle.std.specs.Prelude.{◌≡◌, ◌*◌, ◌<◌, length};
ghost use Rattle.grammar.specs.Slots.{slots_of};
ghost use Rattle.graph_tables.specs.Sizes.{clock_room, variable_room};
ghost use Rattle.graph_tables.specs.Words.{key_of, pre_of, action_of, post_of, transition_count};
ghost use Rattle.graph_tables.specs.Sound.{Sound};
ghost use Rattle.run_steps.specs.Waiting.{PlacesKnown};
ghost use Rattle.run_steps.specs.Listing.{Lent, seek, clocks_by, opens_by, entry_of, process_entries, action_entries, shared_entries};
ghost use Rattle.run_steps.specs.Listing.{listing_of};

use crate::inner::{candidates, copies, effects, waiting};
use graph_tables::answers::Entry;
use graph_tables::ids::Action;
use graph_tables::{inner, sizes};

// An entry, or how many are to be passed over behind a list's end. No Result: a list's end is no failure, and its number goes on to the
// next list.
#[derive(Clone, Copy)]
pub enum Sought {
    Found(Entry),
    Left(usize),
}

// The clocks on which the invariants of post-locations are read. Communications have no resets, so their kind is not asked.
pub fn reset_by(t: &[u64], action: u32, clocks: &mut [u64])
    requires { Sound t.now × (length clocks.old ≡ clock_room) }
    ensures { clocks.new ≡ clocks_by t.now action clocks.old }
{
    let a = action as usize;
    if inner::action_count(t) <= a {
        return;
    }
    effects::reset(t, a, clocks)
}

// Transition k leaves by a location and an action, which stand in the first key that it may have, and passes.
fn opens_by(t: &[u64], vars: &[u64], clocks: &[u64], after: &[u64], first: u64, k: usize) -> bool
    requires { Sound t.now × (k < transition_count t.now) × (length vars.now ≡ 2 * variable_room) × (length clocks.now ≡ clock_room)
        × (length after.now ≡ clock_room) × (after.now ≡ clocks_by t.now (action_of first) clocks.now) × (post_of first ≡ 0) }
    ensures { result ≡ opens_by t.now (slots_of vars.now) clocks.now (pre_of first) (action_of first) k }
{
    if !waiting::leaves_by(t, first, k) {
        return false;
    }
    candidates::passes(t, vars, clocks, after, k)
}

// Transition k as an entry.
fn entry(t: &[u64], p: usize, k: usize) -> Entry
    requires { Sound t.now × (k < transition_count t.now) }
    ensures { result ≡ entry_of t.now (action_of (key_of t.now k)) p k }
{
    let key = inner::key_of(t, k);
    let action = inner::action_of(key);
    let post = inner::post_of(key) as u32;
    Entry {
        action: Action(action),
        process: p,
        post,
    }
}

// Process p, by a location and an action.
fn seek_process(
    t: &[u64],
    vars: &[u64],
    clocks: &[u64],
    after: &[u64],
    first: u64,
    p: usize,
    number: usize,
) -> Sought
    requires { Sound t.now × (length vars.now ≡ 2 * variable_room) × (length clocks.now ≡ clock_room) × (length after.now ≡ clock_room)
        × (after.now ≡ clocks_by t.now (action_of first) clocks.now) × (post_of first ≡ 0) }
    ensures { result
        ≡ seek (process_entries t.now (slots_of vars.now) clocks.now (pre_of first)
        (action_of first) p) number }
{
    let mut left = number;
    for k in 0..inner::transition_count(t) {
        if opens_by(t, vars, clocks, after, first, k) {
            if left == 0 {
                return Sought::Found(entry(t, p, k));
            }
            left = left - 1;
        }
    }
    Sought::Left(left)
}

// Every process, by an action.
fn seek_processes(
    t: &[u64],
    vars: &[u64],
    clocks: &[u64],
    after: &[u64],
    places: &[u64],
    action: u32,
    number: usize,
) -> Sought
    requires { Sound t.now × (length vars.now ≡ 2 * variable_room) × (length clocks.now ≡ clock_room) × (length after.now ≡ clock_room)
        × (after.now ≡ clocks_by t.now action clocks.now) × PlacesKnown t.now places.now }
    ensures { result
        ≡ seek (action_entries t.now (slots_of vars.now) clocks.now places.now
        (length places.now) action) number }
{
    let mut left = number;
    for p in 0..places.len() {
        let first = inner::key_with(places[p], action, 0);
        let sought = seek_process(t, vars, clocks, after, first, p, left);
        let Sought::Left(rest) = sought else {
            return sought;
        };
        left = rest;
    }
    Sought::Left(left)
}

// Entry of a number among those of one action: every process by it, if every process's location has it.
pub fn seek_action(
    t: &[u64],
    vars: &[u64],
    clocks: &[u64],
    places: &[u64],
    action: u32,
    number: usize,
) -> Sought
    requires { Lent t.now vars.now clocks.now places.now }
    ensures { result
        ≡ seek (shared_entries t.now (slots_of vars.now) clocks.now places.now
        (length places.now) action) number }
{
    if !waiting::is_shared(t, places, action) {
        return Sought::Left(number);
    }
    let mut after = [0; sizes::CLOCKS];
    copies::copy(&mut after, clocks);
    reset_by(t, action, &mut after);
    seek_processes(t, vars, clocks, &after, places, action, number)
}

// Entry of a number in the whole list: the table's actions, and last the reserved one.
pub fn seek_entry(t: &[u64], vars: &[u64], clocks: &[u64], places: &[u64], number: usize) -> Sought
    requires { Lent t.now vars.now clocks.now places.now }
    ensures { result
        ≡ seek (listing_of t.now (slots_of vars.now) clocks.now places.now
        (length places.now)) number }
{
    let mut left = number;
    for a in 0..inner::action_count(t) {
        let sought = seek_action(t, vars, clocks, places, a as u32, left);
        let Sought::Left(rest) = sought else {
            return sought;
        };
        left = rest;
    }
    seek_action(t, vars, clocks, places, Action::EPSILON.0, left)
}
