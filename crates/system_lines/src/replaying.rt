// A line that replays a recording.
ghost use Rattle.std.specs.Prelude.{◌<◌, IfSome};

use graph_text::faults::Fault;
use graph_text::lines::Line;
use graph_text::replies::Reply;
use replays::answers::{Difference, ReplayError};
use text::{rows, tokens};

// The longest recording that a line holds, in bytes.
const ROOM: usize = 2000;

// The value of a hexadecimal digit.
fn digit(byte: u8) -> Option<u8>
    ensures { IfSome result (λ d. d < 16) }
{
    match byte {
        b'0'..=b'9' => Some(byte - b'0'),
        b'a'..=b'f' => Some(byte - b'a' + 10),
        _ => None,
    }
}

// How many bytes a token spells, by two digits each.
fn read_bytes(token: &[u8], to: &mut [u8]) -> Option<usize> {
    let n = token.len() / 2;
    if token.len() != 2 * n {
        return None;
    }
    if to.len() < n {
        return None;
    }
    for (byte, pair) in to.iter_mut().zip(token.chunks_exact(2)) {
        *byte = digit(pair[0])? * 16 + digit(pair[1])?;
    }
    Some(n)
}

// `-` for no bytes.
fn read_recording(token: &[u8], to: &mut [u8]) -> Option<usize> {
    if tokens::is(token, b"-") {
        return Some(0);
    }
    if token.is_empty() {
        return None;
    }
    read_bytes(token, to)
}

fn bad_block(out: &mut Reply, b: u64) {
    out.put_all(b"block ");
    out.put_number(b);
    out.end();
}

// Block, record, recorded number, given number.
fn difference(out: &mut Reply, d: Difference) {
    out.put_all(b"record ");
    out.put_number(d.block);
    out.put(b' ');
    out.put_number(d.entry);
    out.put_next_number(d.recorded);
    out.put_next_number(d.given);
    out.end();
}

fn replayed(out: &mut Reply, r: Result<u64, ReplayError>) -> Result<(), Fault> {
    match r {
        Ok(n) => out.ok_wide(n),
        Err(ReplayError::BadBlock(b)) => bad_block(out, b),
        Err(ReplayError::Differs(d)) => difference(out, d),
        Err(ReplayError::Refused(refusal)) => return Err(Fault::Refused(refusal)),
    }
    Ok(())
}

// HEX
pub fn replay(mut line: Line, t: &[u64], s: &mut [u64], out: &mut Reply) -> Result<(), Fault> {
    let mut bytes = [0; ROOM];
    let token = line.next();
    line.end()?;
    let n = read_recording(token, &mut bytes).ok_or(Fault::Bad)?;
    replayed(out, replays::run::replay(t, s, rows::part(&bytes, n)))
}
