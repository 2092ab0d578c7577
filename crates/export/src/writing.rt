// A block of a recording, written on lent bytes: its records one after the other, then the rest.
ghost use Rattle.std.specs.Prelude.{◌≡◌};
ghost use Rattle.recordings.specs.Layout.{block_bytes, record_room};
ghost use Rattle.recordings.specs.Records.{step, wait};
ghost use Rattle.recordings.specs.Putting.{put_of, seal_of};
ghost use Rattle.c_words.specs.Given.{Does};
ghost use Rattle.export.specs.Findings.{written_number, writing};

use c_words::inner::given;
use recordings::{blocks, layout, writing};

pub fn njn_block_bytes() -> usize
    ensures { result ≡ block_bytes }
{
    layout::BLOCK
}

pub fn njn_block_records() -> usize
    ensures { result ≡ record_room }
{
    layout::RECORDS
}

fn written(done: bool) -> u32
    ensures { result ≡ written_number done }
{
    if done {
        return 0;
    }
    given::MALFORMED
}

pub fn njn_block_put_step(
    block: &mut [u8],
    i: usize,
    graph: u8,
    action: u32,
    posts: &[u16],
    word: u64,
    answer: u8,
) -> u32
    ensures { Does result block.new (writing (put_of block.old i (step graph action posts.now word answer))) }
{
    written(writing::put_step(block, i, graph, action, posts, word, answer))
}

pub fn njn_block_put_wait(block: &mut [u8], i: usize, delta: u32, answer: u8) -> u32
    ensures { Does result block.new (writing (put_of block.old i (wait delta answer))) }
{
    written(writing::put_wait(block, i, delta, answer))
}

pub fn njn_block_seal(block: &mut [u8], place: u32, count: usize) -> u32
    ensures { Does result block.new (writing (seal_of block.old place count)) }
{
    written(blocks::seal(block, place, count))
}
