// A number of a graph with a number of that graph's own, `G:N`.
use crate::faults::Fault;
use crate::lines::Line;
use crate::lists;
use graph_tables::layout::WORD32;
use text::inner::read_list;
use text::lists::List;
use text::numbers;

// The most posts of a line.
pub const POSTS: usize = 8;

#[derive(Clone, Copy)]
pub struct Pair {
    pub graph: u32,
    pub own: u32,
}

// What stands before the first colon of a token, and what behind it.
fn halves(token: &[u8]) -> (&[u8], &[u8]) {
    let colon = token.iter().position(|byte| *byte == b':');
    match colon {
        Some(at) => (&token[..at], &token[at + 1..]),
        None => (token, &[]),
    }
}

// G:A, or G:e
pub fn read_action(token: &[u8]) -> Option<Pair> {
    let (graph, own) = halves(token);
    Some(Pair {
        graph: numbers::read_small(graph)?,
        own: lists::read_action(own)?,
    })
}

// The word of a post.
pub fn post(graph: u32, location: u32) -> u64 {
    u64::from(graph) * WORD32 + u64::from(location)
}

// G:L, the word of a post
fn read_post(token: &[u8]) -> Option<u64> {
    let (graph, location) = halves(token);
    Some(post(numbers::read_small(graph)?, numbers::read_small(location)?))
}

// The posts from a place on, 8 at most.
pub fn read_posts(line: &[u8], at: usize) -> List<u64, POSTS> {
    read_list(line, at, 0, read_post)
}

// ( G:L .. ), as a step takes them.
pub fn take_posts(line: &mut Line) -> Result<List<u64, POSTS>, Fault> {
    line.group(0, read_post)
}
