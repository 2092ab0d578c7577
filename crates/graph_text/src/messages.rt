// Messages as lines have them: the expressions of a send, the variables of a receive. A list may be longer than a call takes:
// its count is handed over, and what has no room is left out.
use crate::faults::Fault;
use crate::lines::Line;
use crate::lists;
use graph_tables::handed::Vars;
use graph_tables::ids::Var;
use text::lists::List;
use text::numbers;

// The most variables of a line.
const VARIABLES: usize = 6;

// The most expressions of a line.
const EXPRESSIONS: usize = 6;

// Room for the items of every expression.
pub const WORDS: usize = EXPRESSIONS * lists::ITEMS;

// How many expressions there are, and how many items each has.
#[derive(Clone, Copy)]
pub struct Sizes {
    pub count: usize,
    pub sizes: [usize; EXPRESSIONS],
}

// How many items expression k has, which has its own part of the words.
fn read_nth(line: &mut Line, words: &mut [u64], k: usize) -> Result<usize, Fault> {
    if words.len() / lists::ITEMS <= k {
        return Err(Fault::Bad);
    }
    let from = k * lists::ITEMS;
    let end = from + lists::ITEMS;
    let items = line.expression(&mut words[from..end])?;
    Ok(items.len())
}

// EXPR.. to the line's end. (The count is handed over, and says where the words of each are, so the loop counts.)
pub fn read_expressions(mut line: Line, words: &mut [u64]) -> Result<Sizes, Fault> {
    let mut sizes = [0; EXPRESSIONS];
    for k in 0..EXPRESSIONS {
        if line.ended() {
            return Ok(Sizes { count: k, sizes });
        }
        sizes[k] = read_nth(&mut line, words, k)?;
    }
    line.end()?;
    Ok(Sizes {
        count: EXPRESSIONS,
        sizes,
    })
}

// The first words of expression k.
pub fn nth(words: &[u64], k: usize, size: usize) -> &[u64] {
    if words.len() / lists::ITEMS <= k {
        return &words[0..0];
    }
    if lists::ITEMS < size {
        return &words[0..0];
    }
    let from = k * lists::ITEMS;
    let end = from + size;
    &words[from..end]
}

// V.. to the line's end.
pub fn read_vars(mut line: Line) -> Result<Vars, Fault> {
    let read: List<u32, 8> = line.list(0, numbers::read_small);
    if VARIABLES < read.count {
        return Err(Fault::Bad);
    }
    line.end()?;
    let [a, b, c, d, ..] = read.items;
    Ok(Vars {
        vars: [Var(a), Var(b), Var(c), Var(d)],
        count: read.count,
    })
}
