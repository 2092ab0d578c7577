// Guards, as lines have them.
use crate::faults::Fault;
use crate::lines::Line;

// Whether there is a guard, and its items: the calls that build take the one beside the other.
#[derive(Clone, Copy)]
pub struct Guard<'a> {
    pub guarded: bool,
    pub items: &'a [u64],
}

// GUARD, its items in the lent words.
pub fn read<'a>(line: &mut Line, words: &'a mut [u64]) -> Result<Guard<'a>, Fault> {
    if line.took(b"-") {
        return Ok(Guard {
            guarded: false,
            items: &[],
        });
    }
    Ok(Guard {
        guarded: true,
        items: line.expression(words)?,
    })
}
