// What is asked of parts of a table, by the test of a whole one and by checks of calls.
ghost use Rattle.std.specs.Prelude.{◌≡◌, ℕ, ◌≤◌, ◌<◌};
ghost use Rattle.laws.specs.Below.{all_below, sum_below};
ghost use Rattle.graph_tables.specs.Sizes.{action_room, group_room, limit_room, effect_room, item_room};
ghost use Rattle.graph_tables.specs.Words.{Words, effect_length};
ghost use Rattle.graph_tables.specs.Formed.{zero_inside, effect_draws, action_known};
ghost use Rattle.graph_tables.specs.Sound.{BoundsFit};

use crate::ids::Action;
use crate::inner;
use grammar::draws;

// Whether a limit of a group contains time 0, and whether all of them do.
#[tactic(auto, unfolding(crate::specs::Formed::zero_inside))]
pub fn zero_inside(t: &[u64], g: usize, i: usize) -> bool
    requires { Words t.now × (g < group_room) × (i < limit_room) × BoundsFit t.now g i }
    ensures { result ≡ zero_inside t.now g i }
{
    inner::limit_range(t, g, i).contains(0)
}

pub fn all_zero_inside(t: &[u64], g: usize, n: usize) -> bool
    requires { Words t.now × (g < group_room) × (n ≤ limit_room) × ((i : ℕ) → i < n → BoundsFit t.now g i) }
    ensures { result ≡ all_below n (zero_inside t.now g) }
{
    (0..n).all(|i| zero_inside(t, g, i))
}

pub fn effect_draws(t: &[u64], a: usize, e: usize) -> usize
    requires { Words t.now × (a < action_room) × (e < effect_room) × (effect_length t.now a e ≤ item_room) }
    ensures { (result ≡ effect_draws t.now a e) × (result ≤ item_room) }
{
    draws::count_draws(inner::effect_items(t, a, e))
}

// The draws of the first n effects of an action.
pub fn all_draws(t: &[u64], a: usize, n: usize) -> usize
    requires { Words t.now × (a < action_room) × (n ≤ effect_room) × ((e : ℕ) → e < n → effect_length t.now a e ≤ item_room) }
    ensures { result ≡ sum_below n (effect_draws t.now a) }
{
    (0..n).map(|e| effect_draws(t, a, e)).sum()
}

// Whether there is such an action, or it is the reserved one.
#[tactic(auto, unfolding(crate::specs::Formed::action_known))]
pub fn action_known(t: &[u64], a: u32) -> bool
    requires { Words t.now }
    ensures { result ≡ action_known t.now a }
{
    if a == Action::EPSILON.0 {
        return true;
    }
    (a as usize) < inner::action_count(t)
}
