// The test behind refusal 32: whether a table that is handed in is well formed. Its cost goes by what is used: no unused
// row or word is read.
ghost use Rattle.std.specs.Prelude.{◌≡◌, true, ◌+◌, ◌≤◌, ◌<◌};
ghost use Rattle.laws.specs.Below.{all_below};
ghost use Rattle.graph_tables.specs.Sizes.{process_room, location_room, action_room, transition_room, variable_room, limit_room, group_room};
ghost use Rattle.graph_tables.specs.Sizes.{effect_room, reset_room, item_room};
ghost use Rattle.graph_tables.specs.Words.{Words, variable_count, location_count, effect_length};
ghost use Rattle.graph_tables.specs.Layout.{table_words, effect_slot};
ghost use Rattle.graph_tables.specs.Formed.{counts_formed, variable_formed, bound_formed, clock_before, limit_formed, limits_formed};
ghost use Rattle.graph_tables.specs.Formed.{location_formed, process_formed, reset_before, reset_formed, resets_formed, effect_formed};
ghost use Rattle.graph_tables.specs.Formed.{effect_draws, plain_formed, expression_formed, send_formed, target_formed, receive_formed};
ghost use Rattle.graph_tables.specs.Formed.{action_formed, key_formed, key_before, guard_formed, transition_formed, parts_formed};
ghost use Rattle.graph_tables.specs.Formed.{started_of, well_formed};
ghost use Rattle.graph_tables.specs.Sound.{Counted, KindsFit};
ghost use Rattle.graph_tables.specs.Inner.{known_at, draws_if, all_within};

use crate::inner::{places, tests};
use crate::{inner, layout, sizes};
use grammar::inner::digits;

#[tactic(auto, using(laws::proofs::BelowLaws::and_yes, laws::proofs::BelowLaws::and_no), unfolding(crate::specs::Formed::counts_formed))]
fn counts_formed(t: &[u64]) -> bool
    requires { Words t.now }
    ensures { result ≡ counts_formed t.now }
{
    if sizes::VARIABLES < inner::variable_count(t) {
        return false;
    }
    if sizes::CLOCKS < inner::clock_count(t) {
        return false;
    }
    if sizes::LOCATIONS < inner::location_count(t) {
        return false;
    }
    if sizes::ACTIONS < inner::action_count(t) {
        return false;
    }
    if sizes::PROCESSES < inner::process_count(t) {
        return false;
    }
    inner::transition_count(t) <= sizes::TRANSITIONS
}

#[tactic(auto, using(laws::proofs::BelowLaws::and_yes, laws::proofs::BelowLaws::and_no), unfolding(crate::specs::Formed::variable_formed))]
fn variable_formed(t: &[u64], v: usize) -> bool
    requires { Words t.now × (v < variable_room) }
    ensures { result ≡ variable_formed t.now v }
{
    let kind = inner::kind_at(t, v);
    let value = inner::value_at(t, v);
    if kind == layout::BOOLEAN {
        return value < 2;
    }
    if kind != layout::INTEGER {
        return false;
    }
    value < layout::WORD32
}

#[tactic(auto, using(laws::proofs::BelowLaws::and_yes, laws::proofs::BelowLaws::and_no), unfolding(crate::specs::Formed::bound_formed))]
fn bound_formed(w: u64) -> bool
    ensures { result ≡ bound_formed w }
{
    if w == layout::UNBOUNDED {
        return true;
    }
    let kind = w % layout::BOUND_SPAN;
    if kind == layout::UNBOUNDED {
        return false;
    }
    if kind == layout::SPARE {
        return false;
    }
    w / layout::BOUND_SPAN < layout::WORD32
}

fn clock_before(t: &[u64], g: usize, i: usize) -> usize
    requires { Words t.now × (g < group_room) × (i < limit_room) }
    ensures { result ≡ clock_before t.now g i }
{
    if i == 0 {
        return 0;
    }
    inner::clock_of(t, g, i - 1)
}

#[tactic(auto, using(laws::proofs::BelowLaws::and_yes, laws::proofs::BelowLaws::and_no), unfolding(crate::specs::Formed::limit_formed))]
fn limit_formed(t: &[u64], g: usize, i: usize) -> bool
    requires { Words t.now × (g < group_room) × (i < limit_room) }
    ensures { result ≡ limit_formed t.now g i }
{
    let clock = inner::clock_of(t, g, i);
    if inner::clock_count(t) <= clock {
        return false;
    }
    if !bound_formed(inner::lower_of(t, g, i)) {
        return false;
    }
    if !bound_formed(inner::upper_of(t, g, i)) {
        return false;
    }
    clock_before(t, g, i) <= clock
}

#[tactic(auto, using(laws::proofs::BelowLaws::and_yes, laws::proofs::BelowLaws::and_no), unfolding(crate::specs::Formed::limits_formed))]
fn limits_formed(t: &[u64], g: usize, n: usize) -> bool
    requires { Words t.now × (g < group_room) }
    ensures { result ≡ limits_formed t.now g n }
{
    if sizes::LIMITS < n {
        return false;
    }
    (0..n).all(|i| limit_formed(t, g, i))
}

#[tactic(auto, using(laws::proofs::BelowLaws::and_yes, laws::proofs::BelowLaws::and_no, crate::proofs::FormedLaws::no_limits_lem), unfolding(crate::specs::Formed::location_formed))]
fn location_formed(t: &[u64], l: usize) -> bool
    requires { Words t.now × (l < location_room) }
    ensures { result ≡ location_formed t.now l }
{
    let n = inner::invariant_count(t, l);
    if n == 0 {
        return true;
    }
    limits_formed(t, inner::invariant_group(l), n)
}

#[tactic(auto, using(laws::proofs::BelowLaws::and_yes, laws::proofs::BelowLaws::and_no), unfolding(crate::specs::Formed::process_formed))]
fn process_formed(t: &[u64], p: usize) -> bool
    requires { Words t.now × (p < process_room) × (location_count t.now ≤ location_room)
        × (all_below (location_count t.now) (location_formed t.now) ≡ true) }
    ensures { result ≡ process_formed t.now p }
{
    let l = inner::place_at(t, p);
    if inner::location_count(t) <= l {
        return false;
    }
    tests::all_zero_inside(t, inner::invariant_group(l), inner::invariant_count(t, l))
}

fn reset_before(t: &[u64], a: usize, i: usize) -> usize
    requires { Words t.now × (a < action_room) × (i < reset_room) }
    ensures { result ≡ reset_before t.now a i }
{
    if i == 0 {
        return 0;
    }
    inner::reset_at(t, a, i - 1)
}

#[tactic(auto, using(laws::proofs::BelowLaws::and_yes, laws::proofs::BelowLaws::and_no), unfolding(crate::specs::Formed::reset_formed))]
fn reset_formed(t: &[u64], a: usize, i: usize) -> bool
    requires { Words t.now × (a < action_room) × (i < reset_room) }
    ensures { result ≡ reset_formed t.now a i }
{
    let clock = inner::reset_at(t, a, i);
    if inner::clock_count(t) <= clock {
        return false;
    }
    reset_before(t, a, i) <= clock
}

#[tactic(auto, using(laws::proofs::BelowLaws::and_yes, laws::proofs::BelowLaws::and_no), unfolding(crate::specs::Formed::resets_formed))]
fn resets_formed(t: &[u64], a: usize) -> bool
    requires { Words t.now × (a < action_room) }
    ensures { result ≡ resets_formed t.now a }
{
    let n = inner::reset_count(t, a);
    if sizes::RESETS < n {
        return false;
    }
    (0..n).all(|i| reset_formed(t, a, i))
}

// An expression of n items: what `digits` tells of it.
#[tactic(auto, unfolding(crate::specs::Inner::known_at))]
fn known_at(t: &[u64], n: usize, from: usize) -> u64
    requires { Words t.now × (variable_count t.now ≤ variable_room) × KindsFit t.now × (from + item_room ≤ table_words) }
    ensures { result ≡ known_at t.now n from }
{
    if sizes::ITEMS < n {
        return digits::REFUSED;
    }
    digits::known_in(t, from, n, layout::KINDS_START, inner::variable_count(t))
}

fn known_effect(t: &[u64], a: usize, e: usize) -> u64
    requires { Words t.now × (variable_count t.now ≤ variable_room) × KindsFit t.now × (a < action_room) × (e < effect_room) }
    ensures { result ≡ known_at t.now (effect_length t.now a e) (effect_slot a e) }
{
    known_at(t, inner::effect_length(t, a, e), places::effect_slot(a, e))
}

// The draws of an effect, and of an expression of a message; more than there is room for, where it is not well formed.
#[tactic(auto, using(crate::proofs::FormedLaws::draws_not, crate::proofs::FormedLaws::draws_told_lem, crate::proofs::FormedLaws::effect_known, crate::proofs::FormedLaws::effect_unknown, crate::proofs::FormedLaws::effect_told))]
fn effect_draws(t: &[u64], a: usize, e: usize) -> usize
    requires { Words t.now × (variable_count t.now ≤ variable_room) × KindsFit t.now × (a < action_room) × (e < effect_room) }
    ensures { result ≡ draws_if (effect_formed t.now a e) (effect_draws t.now a e) }
{
    let v = inner::effect_var(t, a, e);
    if inner::variable_count(t) <= v {
        return sizes::DRAWS + 1;
    }
    let known = known_effect(t, a, e);
    if !digits::is_of(known, inner::kind_at(t, v)) {
        return sizes::DRAWS + 1;
    }
    digits::draws_in(known)
}

// Whether each of the first n effects is well formed, and their draws have room. (A loop that stops at the first that is not well formed: the sum of a chain would read all.)
fn effects_formed(t: &[u64], a: usize, n: usize) -> bool
    requires { Words t.now × (variable_count t.now ≤ variable_room) × KindsFit t.now × (a < action_room) × (n ≤ effect_room) }
    ensures { result ≡ all_within n (effect_formed t.now a) (effect_draws t.now a) }
{
    let mut sum: usize = 0;
    for e in 0..n {
        let draws = effect_draws(t, a, e);
        if sizes::DRAWS < draws {
            return false;
        }
        sum += draws;
    }
    sum <= sizes::DRAWS
}

#[tactic(auto, using(laws::proofs::BelowLaws::and_yes, laws::proofs::BelowLaws::and_no), unfolding(crate::specs::Formed::plain_formed))]
fn plain_formed(t: &[u64], a: usize) -> bool
    requires { Words t.now × (variable_count t.now ≤ variable_room) × KindsFit t.now × (a < action_room) }
    ensures { result ≡ plain_formed t.now a }
{
    if !resets_formed(t, a) {
        return false;
    }
    let n = inner::effect_count(t, a);
    if sizes::EFFECTS < n {
        return false;
    }
    effects_formed(t, a, n)
}

#[tactic(auto, using(crate::proofs::FormedLaws::draws_not, crate::proofs::FormedLaws::draws_told_lem, crate::proofs::FormedLaws::expression_known, crate::proofs::FormedLaws::expression_told))]
fn expression_draws(t: &[u64], a: usize, e: usize) -> usize
    requires { Words t.now × (variable_count t.now ≤ variable_room) × KindsFit t.now × (a < action_room) × (e < effect_room) }
    ensures { result ≡ draws_if (expression_formed t.now a e) (effect_draws t.now a e) }
{
    let known = known_effect(t, a, e);
    if !digits::is_known(known) {
        return sizes::DRAWS + 1;
    }
    digits::draws_in(known)
}

// The same of the expressions of a message.
fn expressions_formed(t: &[u64], a: usize, n: usize) -> bool
    requires { Words t.now × (variable_count t.now ≤ variable_room) × KindsFit t.now × (a < action_room) × (n ≤ effect_room) }
    ensures { result ≡ all_within n (expression_formed t.now a) (effect_draws t.now a) }
{
    let mut sum: usize = 0;
    for e in 0..n {
        let draws = expression_draws(t, a, e);
        if sizes::DRAWS < draws {
            return false;
        }
        sum += draws;
    }
    sum <= sizes::DRAWS
}

#[tactic(auto, using(laws::proofs::BelowLaws::and_yes, laws::proofs::BelowLaws::and_no), unfolding(crate::specs::Formed::send_formed))]
fn send_formed(t: &[u64], a: usize) -> bool
    requires { Words t.now × (variable_count t.now ≤ variable_room) × KindsFit t.now × (a < action_room) }
    ensures { result ≡ send_formed t.now a }
{
    if inner::reset_count(t, a) != 0 {
        return false;
    }
    let n = inner::effect_count(t, a);
    if sizes::MESSAGE < n {
        return false;
    }
    expressions_formed(t, a, n)
}

#[tactic(auto, using(laws::proofs::BelowLaws::and_yes, laws::proofs::BelowLaws::and_no), unfolding(crate::specs::Formed::target_formed))]
fn target_formed(t: &[u64], a: usize, e: usize) -> bool
    requires { Words t.now × (a < action_room) × (e < effect_room) }
    ensures { result ≡ target_formed t.now a e }
{
    inner::effect_var(t, a, e) < inner::variable_count(t)
}

#[tactic(auto, using(laws::proofs::BelowLaws::and_yes, laws::proofs::BelowLaws::and_no), unfolding(crate::specs::Formed::receive_formed))]
fn receive_formed(t: &[u64], a: usize) -> bool
    requires { Words t.now × (a < action_room) }
    ensures { result ≡ receive_formed t.now a }
{
    if inner::reset_count(t, a) != 0 {
        return false;
    }
    let n = inner::effect_count(t, a);
    if sizes::MESSAGE < n {
        return false;
    }
    (0..n).all(|e| target_formed(t, a, e))
}

#[tactic(auto, using(laws::proofs::BelowLaws::and_yes, laws::proofs::BelowLaws::and_no), unfolding(crate::specs::Formed::action_formed))]
fn action_formed(t: &[u64], a: usize) -> bool
    requires { Words t.now × (variable_count t.now ≤ variable_room) × KindsFit t.now × (a < action_room) }
    ensures { result ≡ action_formed t.now a }
{
    let kind = inner::action_kind(t, a);
    if kind == layout::PLAIN {
        return plain_formed(t, a);
    }
    if kind == layout::SEND {
        return send_formed(t, a);
    }
    if kind != layout::RECEIVE {
        return false;
    }
    receive_formed(t, a)
}

#[tactic(auto, using(laws::proofs::BelowLaws::and_yes, laws::proofs::BelowLaws::and_no), unfolding(crate::specs::Formed::key_formed))]
fn key_formed(t: &[u64], key: u64) -> bool
    requires { Words t.now }
    ensures { result ≡ key_formed t.now key }
{
    let n = inner::location_count(t);
    if n <= inner::pre_of(key) {
        return false;
    }
    if n <= inner::post_of(key) {
        return false;
    }
    tests::action_known(t, inner::action_of(key))
}

fn key_before(t: &[u64], k: usize) -> u64
    requires { Words t.now × (k < transition_room) }
    ensures { result ≡ key_before t.now k }
{
    if k == 0 {
        return 0;
    }
    inner::key_of(t, k - 1)
}

#[tactic(auto, using(crate::proofs::FormedLaws::guard_known), unfolding(crate::specs::Formed::guard_formed))]
fn guard_formed(t: &[u64], k: usize) -> bool
    requires { Words t.now × (variable_count t.now ≤ variable_room) × KindsFit t.now × (k < transition_room) }
    ensures { result ≡ guard_formed t.now k }
{
    digits::guards(known_at(t, inner::guard_length(t, k), places::guard_slot(k)))
}

#[tactic(auto, using(laws::proofs::BelowLaws::and_yes, laws::proofs::BelowLaws::and_no, crate::proofs::FormedLaws::no_limits_lem), unfolding(crate::specs::Formed::transition_formed))]
fn transition_formed(t: &[u64], k: usize) -> bool
    requires { Words t.now × (variable_count t.now ≤ variable_room) × KindsFit t.now × (k < transition_room) }
    ensures { result ≡ transition_formed t.now k }
{
    let key = inner::key_of(t, k);
    if !key_formed(t, key) {
        return false;
    }
    if key < key_before(t, k) {
        return false;
    }
    if !guard_formed(t, k) {
        return false;
    }
    let n = inner::limit_count(t, k);
    if n == 0 {
        return true;
    }
    limits_formed(t, k, n)
}

#[tactic(auto, using(laws::proofs::BelowLaws::and_yes, laws::proofs::BelowLaws::and_no), unfolding(crate::specs::Formed::parts_formed))]
fn parts_formed(t: &[u64]) -> bool
    requires { Words t.now × Counted t.now }
    ensures { result ≡ parts_formed t.now }
{
    if !(0..inner::variable_count(t)).all(|v| variable_formed(t, v)) {
        return false;
    }
    if !(0..inner::location_count(t)).all(|l| location_formed(t, l)) {
        return false;
    }
    if !(0..inner::process_count(t)).all(|p| process_formed(t, p)) {
        return false;
    }
    if !(0..inner::action_count(t)).all(|a| action_formed(t, a)) {
        return false;
    }
    (0..inner::transition_count(t)).all(|k| transition_formed(t, k))
}

// Whether there is a process, where there has to be one.
#[tactic(auto, unfolding(crate::specs::Formed::started_of))]
fn started(t: &[u64], building: bool) -> bool
    requires { Words t.now }
    ensures { result ≡ started_of t.now building }
{
    if building {
        return true;
    }
    0 < inner::process_count(t)
}

// Whether a table is well formed; while a graph is being built it may lack a process.
#[tactic(auto, using(laws::proofs::BelowLaws::and_yes, laws::proofs::BelowLaws::and_no, crate::proofs::FormedLaws::counted), unfolding(crate::specs::Formed::well_formed))]
pub fn well_formed(t: &[u64], building: bool) -> bool
    ensures { result ≡ well_formed t.now building }
{
    if t.len() != sizes::WORDS {
        return false;
    }
    if !counts_formed(t) {
        return false;
    }
    if !started(t, building) {
        return false;
    }
    parts_formed(t)
}
