// Arguments of C read as what the calls take. A test says whether they are such; what is read of others does not matter.
ghost use Rattle.std.specs.Prelude.{◌≡◌, ◌+◌, ◌*◌, ◌/◌, ◌<◌, length};
ghost use Rattle.system_tables.specs.Words.{capacity_as};
ghost use Rattle.c_words.specs.Handed.{kinds_known, kind_from, kinds_from, channel_known, var_from, vars_from, value_known, values_known};
ghost use Rattle.c_words.specs.Handed.{slot_from, message_from, bound_from, bound_known, limit_known, limits_known, limit_from, limits_from};

use crate::inner::values;
use grammar::inner::slots;
use grammar::values::{Slot, Type};
use graph_tables::handed::{Limit, Limits, Message, Vars};
use graph_tables::ids::{Clock, Var};
use graph_tables::inner;
use std::array;
use system_builder::handed::{Kind, Kinds};
use system_tables::ids::ChannelCapacity;
use time::{Bound, TimeRange};

// ---- the kinds of a channel: 0 boolean, 1 integer
#[tactic(auto, unfolding(crate::specs::Handed::kinds_known, crate::specs::Handed::kind_known))]
pub fn kinds_known(kinds: &[u32]) -> bool
    ensures { result ≡ kinds_known kinds.now }
{
    kinds.iter().all(|k| *k <= 1)
}

#[tactic(auto, unfolding(crate::specs::Handed::kind_from))]
fn kind_at(kinds: &[u32], i: usize) -> Kind
    ensures { result ≡ kind_from kinds.now i }
{
    let kind = if values::number_at(kinds, i) == 0 {
        Type::Boolean
    } else {
        Type::Integer
    };
    Kind { kind }
}

#[tactic(auto, unfolding(crate::specs::Handed::kinds_from))]
pub fn kinds_of(kinds: &[u32]) -> Kinds
    ensures { result ≡ kinds_from kinds.now }
{
    Kinds {
        kinds: array::from_fn(|i| kind_at(kinds, i)),
        count: kinds.len(),
    }
}

// The kinds of a channel, and the sort of its capacity.
#[tactic(auto, unfolding(crate::specs::Handed::channel_known))]
pub fn channel_known(kinds: &[u32], sort: u32) -> bool
    ensures { result ≡ channel_known kinds.now sort }
{
    kinds_known(kinds) && sort <= 2
}

// ---- a capacity: 0 bounded, 1 unbounded, 2 a sink
pub fn capacity_of(sort: u32, bound: u32) -> ChannelCapacity
    ensures { result ≡ capacity_as sort bound }
{
    match sort {
        0 => ChannelCapacity::Bounded(bound),
        1 => ChannelCapacity::Unbounded,
        _ => ChannelCapacity::Sink,
    }
}

// ---- variables
#[tactic(auto, unfolding(crate::specs::Handed::var_from))]
fn var_at(vars: &[u32], i: usize) -> Var
    ensures { result ≡ var_from vars.now i }
{
    Var(values::number_at(vars, i))
}

#[tactic(auto, unfolding(crate::specs::Handed::vars_from))]
pub fn vars_of(vars: &[u32]) -> Vars
    ensures { result ≡ vars_from vars.now }
{
    Vars {
        vars: array::from_fn(|i| var_at(vars, i)),
        count: vars.len(),
    }
}

// ---- values: a kind and a payload each
#[tactic(auto, unfolding(crate::specs::Handed::value_known))]
fn value_known(ws: &[u64], i: usize) -> bool
    requires { 2 * i + 1 < length ws.now }
    ensures { result ≡ value_known ws.now i }
{
    slots::is_value(ws[2 * i], ws[2 * i + 1])
}

#[tactic(auto, unfolding(crate::specs::Handed::values_known))]
pub fn values_known(ws: &[u64]) -> bool
    ensures { result ≡ values_known ws.now }
{
    ws.len() % 2 == 0 && (0..ws.len() / 2).all(|i| value_known(ws, i))
}

#[tactic(auto, unfolding(crate::specs::Handed::slot_from))]
fn slot_at(ws: &[u64], i: usize) -> Slot
    requires { i < 24 }
    ensures { result ≡ slot_from ws.now i }
{
    let value = slots::value_of(values::word_at(ws, i), values::word_at(ws, i + 1));
    Slot { value }
}

#[tactic(auto, unfolding(crate::specs::Handed::message_from))]
pub fn message_of(ws: &[u64]) -> Message
    ensures { result ≡ message_from ws.now }
{
    Message {
        values: array::from_fn(|i| slot_at(ws, 2 * i)),
        count: ws.len() / 2,
    }
}

// ---- limits: a clock and two bounds each, as the words of a table have them
#[tactic(auto, unfolding(crate::specs::Handed::bound_from))]
fn bound_from(w: u64) -> Bound
    ensures { result ≡ bound_from w }
{
    inner::bound_of(w % 17179869184)
}

#[tactic(auto, unfolding(crate::specs::Handed::bound_known))]
fn bound_known(w: u64) -> bool
    ensures { result ≡ bound_known w }
{
    inner::bound_word(bound_from(w)) == w
}

#[tactic(auto, unfolding(crate::specs::Handed::limit_known))]
fn limit_known(ws: &[u64], i: usize) -> bool
    requires { 3 * i + 2 < length ws.now }
    ensures { result ≡ limit_known ws.now i }
{
    ws[3 * i] <= 4294967295 && bound_known(ws[3 * i + 1]) && bound_known(ws[3 * i + 2])
}

#[tactic(auto, unfolding(crate::specs::Handed::limits_known))]
pub fn limits_known(ws: &[u64]) -> bool
    ensures { result ≡ limits_known ws.now }
{
    ws.len() % 3 == 0 && (0..ws.len() / 3).all(|i| limit_known(ws, i))
}

#[tactic(auto, unfolding(crate::specs::Handed::limit_from))]
fn limit_at(ws: &[u64], i: usize) -> Limit
    requires { i < 24 }
    ensures { result ≡ limit_from ws.now i }
{
    let clock = Clock((values::word_at(ws, i) % 4294967296) as u32);
    let lower = bound_from(values::word_at(ws, i + 1));
    let upper = bound_from(values::word_at(ws, i + 2));
    Limit {
        clock,
        range: TimeRange::new(lower, upper),
    }
}

#[tactic(auto, unfolding(crate::specs::Handed::limits_from))]
pub fn limits_of(ws: &[u64]) -> Limits
    ensures { result ≡ limits_from ws.now }
{
    Limits {
        limits: array::from_fn(|i| limit_at(ws, 3 * i)),
        count: ws.len() / 3,
    }
}
