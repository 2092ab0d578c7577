// What the layer above asks of a graph's action: whether it is plain, sends or receives, how many values its message has,
// and the kind of each.
ghost use Rattle.std.specs.Prelude.{◌≡◌, false, ◌<◌};
ghost use Rattle.graph_tables.specs.Words.{action_count, kinds_of, effect_items};
ghost use Rattle.grammar.specs.Typing.{type_of};
ghost use Rattle.graph_tables.specs.Sound.{Sound};
ghost use Rattle.graph_tables.specs.Messages.{is_plain, is_send, is_receive, message_count, typed_word, value_kind};

use crate::{inner, layout};
use grammar::typing;
use grammar::typing::Typed;

#[tactic(auto, unfolding(crate::specs::Messages::is_plain))]
pub fn is_plain(t: &[u64], a: usize) -> bool
    requires { Sound t.now × (a < action_count t.now) }
    ensures { result ≡ is_plain t.now a }
{
    inner::action_kind(t, a) == layout::PLAIN
}

#[tactic(auto, unfolding(crate::specs::Messages::is_send))]
pub fn is_send(t: &[u64], a: usize) -> bool
    requires { Sound t.now × (a < action_count t.now) }
    ensures { result ≡ is_send t.now a }
{
    inner::action_kind(t, a) == layout::SEND
}

#[tactic(auto, unfolding(crate::specs::Messages::is_receive))]
pub fn is_receive(t: &[u64], a: usize) -> bool
    requires { Sound t.now × (a < action_count t.now) }
    ensures { result ≡ is_receive t.now a }
{
    inner::action_kind(t, a) == layout::RECEIVE
}

#[tactic(auto, unfolding(crate::specs::Messages::message_count))]
pub fn message_count(t: &[u64], a: usize) -> usize
    requires { Sound t.now × (a < action_count t.now) }
    ensures { result ≡ message_count t.now a }
{
    inner::effect_count(t, a)
}

// The word of an expression's kind.
fn typed_word(typed: Typed) -> u64
    ensures { result ≡ typed_word typed }
{
    match typed {
        Typed::Known(k) => k.word(),
        Typed::IllTyped => layout::NO_KIND,
        Typed::TableFull => layout::NO_KIND,
        Typed::TooDeep(_) => layout::NO_KIND,
    }
}

// The kind of the expression of a value.
#[tactic(auto, using(crate::proofs::MessageLaws::value_room, crate::proofs::MessageLaws::value_short))]
fn sent_kind(t: &[u64], a: usize, e: usize) -> u64
    requires { Sound t.now × (a < action_count t.now) × (is_receive t.now a ≡ false) × (e < message_count t.now a) }
    ensures { result ≡ typed_word (type_of (kinds_of t.now) (effect_items t.now a e)) }
{
    typed_word(typing::type_of(inner::effect_items(t, a, e), inner::kinds_of(t)))
}

#[tactic(auto, using(crate::proofs::MessageLaws::value_room, crate::proofs::MessageLaws::value_var), unfolding(crate::specs::Messages::value_kind))]
pub fn value_kind(t: &[u64], a: usize, e: usize) -> u64
    requires { Sound t.now × (a < action_count t.now) × (e < message_count t.now a) }
    ensures { result ≡ value_kind t.now a e }
{
    if is_receive(t, a) {
        return inner::kind_at(t, inner::effect_var(t, a, e));
    }
    sent_kind(t, a, e)
}
