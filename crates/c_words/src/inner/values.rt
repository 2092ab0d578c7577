// Words at a place of a slice, and a value among them.
ghost use Rattle.std.specs.Prelude.{◌≡◌, ◌+◌, ◌<◌, get_or, set};
ghost use Rattle.grammar.specs.Slots.{kind_in, payload_in};
ghost use Rattle.c_words.specs.Told.{put};

use grammar::inner::slots;
use grammar::values::Val;

// What stands at a place, 0 past the end.
pub fn word_at(ws: &[u64], i: usize) -> u64
    ensures { result ≡ get_or ws.now i 0 }
{
    if ws.len() <= i {
        return 0;
    }
    ws[i]
}

pub fn number_at(ns: &[u32], i: usize) -> u32
    ensures { result ≡ get_or ns.now i 0 }
{
    if ns.len() <= i {
        return 0;
    }
    ns[i]
}

// A word at a place, if the slice has it.
pub fn put(out: &mut [u64], i: usize, w: u64)
    ensures { out.new ≡ set out.old i w }
{
    if i < out.len() {
        out[i] = w;
    }
}

// The kind and the payload of a value.
pub fn put_value(out: &mut [u64], i: usize, x: Val)
    requires { i < 16 }
    ensures { out.new ≡ set (set out.old i (kind_in x)) (i + 1) (payload_in x) }
{
    put(out, i, x.kind().word());
    put(out, i + 1, slots::payload_of(x));
}

// Words from the front on, as many as the slice has.
pub fn put_all(out: &mut [u64], words: &[u64])
    ensures { out.new ≡ put words.now out.old }
{
    for (i, &w) in words.iter().enumerate() {
        put(out, i, w);
    }
}
