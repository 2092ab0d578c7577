// What a send says, and what a receive takes.
ghost use Rattle.std.specs.Prelude.{◌≡◌, ◌*◌, ◌<◌, length};
ghost use Rattle.grammar.specs.Slots.{slots_of};
ghost use Rattle.graph_tables.specs.Sizes.{variable_room, send_kind, receive_kind};
ghost use Rattle.graph_tables.specs.Words.{variable_count, action_count, action_kind, effect_count};
ghost use Rattle.graph_tables.specs.Sound.{Sound};
ghost use Rattle.run_steps.specs.Messages.{spoken_of, message_of, no_message, value_fits, message_fits, taken_of};
ghost use Rattle.run_steps.specs.Inner.{VarsLeft};

use grammar::inner::{evaluation, slots};
use grammar::values::{Slot, Val};
use graph_tables::handed::Message;
use graph_tables::{inner, sizes};

// The values of a send, what is left of the word, and whether each expression had a value. No Option: values and word are told
// where one has none, too (`spoken_of`).
#[derive(Clone, Copy)]
pub struct Speech {
    pub values: [Slot; sizes::MESSAGE],
    pub word: u64,
    pub fits: bool,
}

pub fn no_message() -> Message
    ensures { result ≡ no_message }
{
    let blank = Slot {
        value: Val::Boolean(false),
    };
    Message {
        values: [blank; sizes::MESSAGE],
        count: 0,
    }
}

// The values of a message's expressions, in order, all on the same variables; the first without a value is the last.
pub fn spoken(t: &[u64], a: usize, vars: &[u64], word: u64) -> Speech
    requires { Sound t.now × (a < action_count t.now) × (action_kind t.now a ≡ send_kind) × (length vars.now ≡ 2 * variable_room) }
    ensures { result ≡ spoken_of t.now a (slots_of vars.now) word }
{
    let none = no_message();
    let mut values = none.values;
    let mut left = word;
    for e in 0..inner::effect_count(t, a) {
        let evaluation = evaluation::evaluate_on(inner::effect_items(t, a, e), vars, left);
        left = evaluation.rest;
        let answer = evaluation.value;
        let Some(x) = answer else {
            return Speech {
                values,
                word: left,
                fits: false,
            };
        };
        values[e] = Slot { value: x };
    }
    Speech {
        values,
        word: left,
        fits: true,
    }
}

// A message of the first n values.
pub fn message(values: [Slot; sizes::MESSAGE], n: usize) -> Message
    ensures { result ≡ message_of values n }
{
    Message { values, count: n }
}

// Value e of a message is of the kind of the variable that takes it.
fn value_fits(t: &[u64], a: usize, message: Message, e: usize) -> bool
    requires { Sound t.now × (a < action_count t.now) × (action_kind t.now a ≡ receive_kind) × (e < effect_count t.now a) }
    ensures { result ≡ value_fits t.now a message e }
{
    let values = message.values;
    let slot = values[e];
    let value = slot.value;
    value.kind().word() == inner::kind_at(t, inner::effect_var(t, a, e))
}

// A message has as many values as are taken, and of their kinds.
pub fn message_fits(t: &[u64], a: usize, message: Message) -> bool
    requires { Sound t.now × (a < action_count t.now) × (action_kind t.now a ≡ receive_kind) }
    ensures { result ≡ message_fits t.now a message }
{
    let n = inner::effect_count(t, a);
    if message.count != n {
        return false;
    }
    (0..n).all(|e| value_fits(t, a, message, e))
}

// The variables take a message's values: where one stands twice, the later value stays.
pub fn take_in(t: &[u64], a: usize, message: Message, vars: &mut [u64])
    requires { Sound t.now × (a < action_count t.now) × (action_kind t.now a ≡ receive_kind) × (length vars.old ≡ 2 * variable_room) }
    ensures { VarsLeft (variable_count t.now) vars.old vars.new (taken_of t.now a message
        (slots_of vars.old)) }
{
    let values = message.values;
    for e in 0..inner::effect_count(t, a) {
        let slot = values[e];
        let x = slot.value;
        slots::put(vars, inner::effect_var(t, a, e), x);
    }
}
