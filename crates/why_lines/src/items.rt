// The items of a guard as text.
use grammar::{bits, items};
use graph_tables::layout::WORD32;
use graph_text::replies::Reply;

// The low byte of an item's word is its operation, above it is the payload.
const PAYLOAD: u64 = 256;

// The 32 bits of a payload.
fn small(n: u64) -> u32 {
    (n % WORD32) as u32
}

// One that has a payload: a constant or a variable.
fn put_operand(out: &mut Reply, operation: u64, payload: u64) {
    match operation {
        items::TRUTH => out.put(if payload == 0 { b'f' } else { b't' }),
        items::NUMBER => {
            out.put(b'#');
            out.put_integer(bits::from_bits(small(payload)));
        }
        _ => {
            out.put(b'v');
            out.put_number(payload);
        }
    }
}

fn put_item(out: &mut Reply, word: u64) {
    match word {
        items::NOT => out.put(b'!'),
        items::AND => out.put(b'&'),
        items::OR => out.put(b'|'),
        items::NEGATE => out.put(b'~'),
        items::ADD => out.put(b'+'),
        items::SUBTRACT => out.put(b'-'),
        items::MULTIPLY => out.put(b'*'),
        items::DIVIDE => out.put(b'/'),
        items::REMAINDER => out.put(b'%'),
        items::EQUAL => out.put(b'='),
        items::LESS => out.put(b'<'),
        items::LESS_OR_EQUAL => out.put_all(b"<="),
        items::DRAW => out.put(b'?'),
        _ => put_operand(out, word % PAYLOAD, word / PAYLOAD),
    }
}

// All of them, in braces.
pub fn put_items(out: &mut Reply, words: &[u64]) {
    out.put_all(b" {");
    for &word in words {
        out.put(b' ');
        put_item(out, word);
    }
    out.put_all(b" }");
}
