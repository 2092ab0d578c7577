// Where a row or a slot starts, for those that move or fill it whole. The number behind the last one is asked for too.
ghost use Rattle.std.specs.Prelude.{◌≡◌, ◌≤◌, ◌<◌};
ghost use Rattle.graph_tables.specs.Sizes.{action_room, transition_room, group_room, limit_room, reset_room, effect_room};
ghost use Rattle.graph_tables.specs.Layout.{reset_cell, transition_row, group_start, limit_row, guard_slot, effect_slot};

use crate::{layout, sizes};

pub fn reset_cell(a: usize, i: usize) -> usize
    requires { (a < action_room) × (i ≤ reset_room) }
    ensures { result ≡ reset_cell a i }
{
    layout::ACTIONS_START + layout::ACTION_WIDTH * a + (layout::RESETS + i)
}

pub fn transition_row(k: usize) -> usize
    requires { k ≤ transition_room }
    ensures { result ≡ transition_row k }
{
    layout::TRANSITIONS_START + layout::TRANSITION_WIDTH * k
}

pub fn group_start(g: usize) -> usize
    requires { g ≤ group_room }
    ensures { result ≡ group_start g }
{
    layout::LIMITS_START + layout::GROUP_WIDTH * g
}

pub fn limit_row(g: usize, i: usize) -> usize
    requires { (g < group_room) × (i ≤ limit_room) }
    ensures { result ≡ limit_row g i }
{
    layout::LIMITS_START + layout::GROUP_WIDTH * g + layout::LIMIT_WIDTH * i
}

pub fn guard_slot(k: usize) -> usize
    requires { k ≤ transition_room }
    ensures { result ≡ guard_slot k }
{
    layout::GUARDS_START + sizes::ITEMS * k
}

pub fn effect_slot(a: usize, e: usize) -> usize
    requires { (a < action_room) × (e < effect_room) }
    ensures { result ≡ effect_slot a e }
{
    layout::EFFECTS_START + sizes::ITEMS * (sizes::ACTIONS * e + a)
}
