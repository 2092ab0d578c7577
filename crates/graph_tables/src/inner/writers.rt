// The words of a graph written, each by its name: what the readers beside this file read.
ghost use Rattle.std.specs.Prelude.{◌≡◌, ◌<◌, set};
ghost use Rattle.graph_tables.specs.Sizes.{variable_room, process_room, location_room, action_room, transition_room, group_room, limit_room};
ghost use Rattle.graph_tables.specs.Sizes.{reset_room, effect_room};
ghost use Rattle.graph_tables.specs.Layout.{variables_cell, clocks_cell, locations_cell, actions_cell, processes_cell, transitions_cell};
ghost use Rattle.graph_tables.specs.Layout.{kind_cell, value_cell, place_cell, invariants_cell, action_row, resets_cell, effects_cell};
ghost use Rattle.graph_tables.specs.Layout.{reset_cell, var_cell, length_cell, transition_row, guard_cell, limits_cell, limit_row};
ghost use Rattle.graph_tables.specs.Layout.{lower_cell, upper_cell};
ghost use Rattle.graph_tables.specs.Words.{Words};

use crate::layout;

pub fn set_variable_count(t: &mut [u64], n: usize)
    requires { Words t.old }
    ensures { t.new ≡ set t.old variables_cell n }
{
    t[layout::VARIABLES] = n as u64;
}

pub fn set_clock_count(t: &mut [u64], n: usize)
    requires { Words t.old }
    ensures { t.new ≡ set t.old clocks_cell n }
{
    t[layout::CLOCKS] = n as u64;
}

pub fn set_location_count(t: &mut [u64], n: usize)
    requires { Words t.old }
    ensures { t.new ≡ set t.old locations_cell n }
{
    t[layout::LOCATIONS] = n as u64;
}

pub fn set_action_count(t: &mut [u64], n: usize)
    requires { Words t.old }
    ensures { t.new ≡ set t.old actions_cell n }
{
    t[layout::ACTIONS] = n as u64;
}

pub fn set_process_count(t: &mut [u64], n: usize)
    requires { Words t.old }
    ensures { t.new ≡ set t.old processes_cell n }
{
    t[layout::PROCESSES] = n as u64;
}

pub fn set_transition_count(t: &mut [u64], n: usize)
    requires { Words t.old }
    ensures { t.new ≡ set t.old transitions_cell n }
{
    t[layout::TRANSITIONS] = n as u64;
}

pub fn set_kind(t: &mut [u64], v: usize, kind: u64)
    requires { Words t.old × (v < variable_room) }
    ensures { t.new ≡ set t.old (kind_cell v) kind }
{
    t[layout::KINDS_START + v] = kind;
}

pub fn set_value(t: &mut [u64], v: usize, value: u64)
    requires { Words t.old × (v < variable_room) }
    ensures { t.new ≡ set t.old (value_cell v) value }
{
    t[layout::VALUES_START + v] = value;
}

pub fn set_place(t: &mut [u64], p: usize, l: usize)
    requires { Words t.old × (p < process_room) }
    ensures { t.new ≡ set t.old (place_cell p) l }
{
    t[layout::PLACES_START + p] = l as u64;
}

pub fn set_invariant_count(t: &mut [u64], l: usize, n: usize)
    requires { Words t.old × (l < location_room) }
    ensures { t.new ≡ set t.old (invariants_cell l) n }
{
    t[layout::INVARIANTS_START + l] = n as u64;
}

pub fn set_action_kind(t: &mut [u64], a: usize, kind: u64)
    requires { Words t.old × (a < action_room) }
    ensures { t.new ≡ set t.old (action_row a) kind }
{
    t[layout::ACTIONS_START + layout::ACTION_WIDTH * a] = kind;
}

pub fn set_reset_count(t: &mut [u64], a: usize, n: usize)
    requires { Words t.old × (a < action_room) }
    ensures { t.new ≡ set t.old (resets_cell a) n }
{
    t[layout::ACTIONS_START + layout::ACTION_WIDTH * a + layout::RESET_COUNT] = n as u64;
}

pub fn set_effect_count(t: &mut [u64], a: usize, n: usize)
    requires { Words t.old × (a < action_room) }
    ensures { t.new ≡ set t.old (effects_cell a) n }
{
    t[layout::ACTIONS_START + layout::ACTION_WIDTH * a + layout::EFFECT_COUNT] = n as u64;
}

pub fn set_reset(t: &mut [u64], a: usize, i: usize, clock: usize)
    requires { Words t.old × (a < action_room) × (i < reset_room) }
    ensures { t.new ≡ set t.old (reset_cell a i) clock }
{
    t[layout::ACTIONS_START + layout::ACTION_WIDTH * a + (layout::RESETS + i)] = clock as u64;
}

pub fn set_effect_var(t: &mut [u64], a: usize, e: usize, v: usize)
    requires { Words t.old × (a < action_room) × (e < effect_room) }
    ensures { t.new ≡ set t.old (var_cell a e) v }
{
    t[layout::ACTIONS_START + layout::ACTION_WIDTH * a + (layout::VARS + e)] = v as u64;
}

pub fn set_effect_length(t: &mut [u64], a: usize, e: usize, n: usize)
    requires { Words t.old × (a < action_room) × (e < effect_room) }
    ensures { t.new ≡ set t.old (length_cell a e) n }
{
    t[layout::ACTIONS_START + layout::ACTION_WIDTH * a + (layout::LENGTHS + e)] = n as u64;
}

pub fn set_key(t: &mut [u64], k: usize, key: u64)
    requires { Words t.old × (k < transition_room) }
    ensures { t.new ≡ set t.old (transition_row k) key }
{
    t[layout::TRANSITIONS_START + layout::TRANSITION_WIDTH * k] = key;
}

pub fn set_guard_length(t: &mut [u64], k: usize, n: usize)
    requires { Words t.old × (k < transition_room) }
    ensures { t.new ≡ set t.old (guard_cell k) n }
{
    t[layout::TRANSITIONS_START + layout::TRANSITION_WIDTH * k + layout::GUARD_LENGTH] = n as u64;
}

pub fn set_limit_count(t: &mut [u64], k: usize, n: usize)
    requires { Words t.old × (k < transition_room) }
    ensures { t.new ≡ set t.old (limits_cell k) n }
{
    t[layout::TRANSITIONS_START + layout::TRANSITION_WIDTH * k + layout::LIMIT_COUNT] = n as u64;
}

pub fn set_clock(t: &mut [u64], g: usize, i: usize, clock: usize)
    requires { Words t.old × (g < group_room) × (i < limit_room) }
    ensures { t.new ≡ set t.old (limit_row g i) clock }
{
    t[layout::LIMITS_START + layout::GROUP_WIDTH * g + layout::LIMIT_WIDTH * i] = clock as u64;
}

pub fn set_lower(t: &mut [u64], g: usize, i: usize, bound: u64)
    requires { Words t.old × (g < group_room) × (i < limit_room) }
    ensures { t.new ≡ set t.old (lower_cell g i) bound }
{
    t[layout::LIMITS_START + layout::GROUP_WIDTH * g + layout::LIMIT_WIDTH * i + layout::LOWER] =
        bound;
}

pub fn set_upper(t: &mut [u64], g: usize, i: usize, bound: u64)
    requires { Words t.old × (g < group_room) × (i < limit_room) }
    ensures { t.new ≡ set t.old (upper_cell g i) bound }
{
    t[layout::LIMITS_START + layout::GROUP_WIDTH * g + layout::LIMIT_WIDTH * i + layout::UPPER] =
        bound;
}
