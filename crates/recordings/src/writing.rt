// A record written into a block. The parts of a step are parameters one by one, as C hands them in (C interface).
ghost use Rattle.std.specs.Prelude.{◌≡◌};
ghost use Rattle.recordings.specs.Records.{step, wait};
ghost use Rattle.recordings.specs.Putting.{put_of};

use crate::inner::writes;
use crate::layout;

// Record i is this step. False, and nothing is written, if the bytes are no block's, there is no record i or the posts are too many.
pub fn put_step(
    block: &mut [u8],
    i: usize,
    graph: u8,
    action: u32,
    posts: &[u16],
    word: u64,
    answer: u8,
) -> bool
    ensures { (result ≡ (put_of block.old i (step graph action posts.now word answer)).answer) × (block.new ≡ (put_of block.old i (step graph action posts.now word answer)).block) }
{
    if block.len() != layout::BLOCK {
        return false;
    }
    if layout::RECORDS <= i {
        return false;
    }
    if layout::POSTS < posts.len() {
        return false;
    }
    let at = layout::HEAD + layout::RECORD * i;
    let count = posts.len() as u8;
    writes::put_front(block, at, layout::STEP, graph, count, action);
    writes::put_posts(block, at + layout::FIRST_POST, posts);
    writes::put_last(block, at + layout::WORD, word, answer);
    true
}

// Record i is this wait. False, and nothing is written, if the bytes are no block's or there is no record i.
pub fn put_wait(block: &mut [u8], i: usize, delta: u32, answer: u8) -> bool
    ensures { (result ≡ (put_of block.old i (wait delta answer)).answer) × (block.new ≡ (put_of block.old i (wait delta answer)).block) }
{
    if block.len() != layout::BLOCK {
        return false;
    }
    if layout::RECORDS <= i {
        return false;
    }
    let at = layout::HEAD + layout::RECORD * i;
    writes::put_front(block, at, layout::WAIT, 0, 0, delta);
    writes::put_zeros(block, at + layout::FIRST_POST, layout::POSTS_BYTES);
    writes::put_last(block, at + layout::WORD, 0, answer);
    true
}
