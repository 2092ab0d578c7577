// Whole answers, each a line. Each function gives its length.
use crate::output;

pub fn bad(out: &mut [u8]) -> usize {
    output::put_all(out, 0, b"bad line\n")
}

pub fn ok(out: &mut [u8]) -> usize {
    output::put_all(out, 0, b"ok\n")
}

// The line's end.
pub fn end(out: &mut [u8], at: usize) -> usize {
    output::put(out, at, b'\n')
}

pub fn ok_number(out: &mut [u8], n: u64) -> usize {
    let here = output::put_all(out, 0, b"ok ");
    let last = output::put_number(out, here, n);
    end(out, last)
}

pub fn yes_or_no(out: &mut [u8], yes: bool) -> usize {
    if yes {
        return output::put_all(out, 0, b"yes\n");
    }
    output::put_all(out, 0, b"no\n")
}

// A refusal by its number.
pub fn refused(out: &mut [u8], number: u32) -> usize {
    let here = output::put_all(out, 0, b"refused ");
    let last = output::put_number(out, here, number as u64);
    end(out, last)
}
