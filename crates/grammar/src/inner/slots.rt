// A value in words, its kind and its payload: read and written here alone.
ghost use Rattle.std.specs.Prelude.{◌≡◌, ◌+◌, ◌*◌, ◌<◌, length, set};
ghost use Rattle.grammar.specs.Slots.{val_of, kind_in, payload_in, is_value, FitVal};

use crate::bits;
use crate::values::Val;

// The payload of a value.
pub fn payload_of(v: Val) -> u64
    ensures { (result ≡ payload_in v) × FitVal v }
{
    match v {
        Val::Boolean(b) => { if b { 1 } else { 0 } }
        Val::Integer(n) => bits::bits_of(n) as u64,
    }
}

// The value of a kind and a payload.
pub fn value_of(kind: u64, payload: u64) -> Val
    ensures { result ≡ val_of kind payload }
{
    if kind == 0 {
        return Val::Boolean(payload == 1);
    }
    Val::Integer(bits::from_bits((payload % 4294967296) as u32))
}

// A kind and a payload are those of the value that they stand for.
pub fn is_value(kind: u64, payload: u64) -> bool
    ensures { result ≡ is_value kind payload }
{
    let x = value_of(kind, payload);
    if x.kind().word() != kind {
        return false;
    }
    payload_of(x) == payload
}

// Variable v gets the value x, in words v * 2 and v * 2 + 1.
pub fn put(vars: &mut [u64], v: usize, x: Val)
    requires { 2 * v + 1 < length vars.old }
    ensures { (vars.new ≡ set (set vars.old (2 * v) (kind_in x)) (2 * v + 1) (payload_in x)) × FitVal x }
{
    vars[2 * v] = x.kind().word();
    vars[2 * v + 1] = payload_of(x);
}
