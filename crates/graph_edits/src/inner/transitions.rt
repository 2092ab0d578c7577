// A transition more, in the order of their keys.
ghost use Rattle.std.specs.Prelude.{◌≡◌, ◌≤◌, ◌<◌, length};
ghost use Rattle.graph_tables.specs.Sizes.{transition_room, limit_room, item_room};
ghost use Rattle.graph_tables.specs.Words.{Words, transition_count};
ghost use Rattle.graph_edits.specs.Edits.{transition_place, with_row, with_group, with_guard, transition_at, with_transition};

use crate::inner::{limits, rows};
use graph_tables::handed::Limits;
use graph_tables::inner::{places, writers};
use graph_tables::{inner, layout, sizes};

fn transition_place(t: &[u64], n: usize, key: u64) -> usize
    requires { Words t.now × (n ≤ transition_room) × (n ≡ transition_count t.now) }
    ensures value { result ≡ transition_place t.now key }
    ensures upper_bound { result ≤ n }
{
    rows::place(
        t,
        layout::TRANSITIONS_START,
        layout::TRANSITION_WIDTH,
        n,
        key,
    )
}

#[tactic(auto, unfolding(crate::specs::Edits::with_row))]
fn put_row(t: &mut [u64], p: usize, n: usize, key: u64, items: usize, limits: usize)
    requires { Words t.old × (p ≤ n) × (n < transition_room) }
    ensures { t.new ≡ with_row t.old p n key items limits }
{
    rows::open_gap(
        t,
        places::transition_row(p),
        places::transition_row(n),
        layout::TRANSITION_WIDTH,
    );
    writers::set_key(t, p, key);
    writers::set_guard_length(t, p, items);
    writers::set_limit_count(t, p, limits);
}

#[tactic(auto, unfolding(crate::specs::Edits::with_group))]
fn put_group(t: &mut [u64], p: usize, n: usize, handed: Limits)
    requires { Words t.old × (p ≤ n) × (n < transition_room) × (handed.count ≤ limit_room) }
    ensures { t.new ≡ with_group t.old p n handed }
{
    rows::open_gap(
        t,
        places::group_start(p),
        places::group_start(n),
        layout::GROUP_WIDTH,
    );
    limits::put_limits(t, p, handed);
}

#[tactic(auto, unfolding(crate::specs::Edits::with_guard))]
fn put_guard(t: &mut [u64], p: usize, n: usize, guard: &[u64])
    requires { Words t.old × (p ≤ n) × (n < transition_room) × (length guard.now ≤ item_room) }
    ensures { t.new ≡ with_guard t.old p n guard.now }
{
    rows::open_gap(
        t,
        places::guard_slot(p),
        places::guard_slot(n),
        sizes::ITEMS,
    );
    rows::write_words(t, places::guard_slot(p), guard);
}

// Row, limits and guard p of n.
#[tactic(auto, unfolding(crate::specs::Edits::transition_at))]
fn put_parts(t: &mut [u64], p: usize, n: usize, key: u64, guard: &[u64], handed: Limits)
    requires { Words t.old × (p ≤ n) × (n < transition_room) × (length guard.now ≤ item_room) × (handed.count ≤ limit_room) }
    ensures { t.new ≡ transition_at t.old p n key guard.now handed }
{
    put_row(t, p, n, key, guard.len(), handed.count);
    put_group(t, p, n, handed);
    put_guard(t, p, n, guard);
    writers::set_transition_count(t, n + 1);
}

pub fn put_transition(t: &mut [u64], key: u64, guard: &[u64], handed: Limits)
    requires { Words t.old × (transition_count t.old < transition_room) × (length guard.now ≤ item_room) × (handed.count ≤ limit_room) }
    ensures { t.new ≡ with_transition t.old key guard.now handed }
{
    let n = inner::transition_count(t);
    let p = transition_place(t, n, key);
    put_parts(t, p, n, key, guard, handed);
}
