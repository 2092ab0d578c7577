// A block, 512 bytes: whether it is good.
ghost use Rattle.std.specs.Prelude.{◌≡◌, ◌<◌, length};
ghost use Rattle.laws.specs.Below.{all_below};
ghost use Rattle.recordings.specs.Layout.{block_bytes, record_room};
ghost use Rattle.recordings.specs.Blocks.{sum_of, good_count, good_slot, good_block, blocks_in};
ghost use Rattle.recordings.specs.Putting.{seal_of};

use crate::inner::{numbers, records, writes};
use crate::layout;

// How many blocks n bytes are, the last one perhaps short.
pub fn blocks_in(n: usize) -> usize
    ensures { result ≡ blocks_in n }
{
    let whole = n / layout::BLOCK;
    if n % layout::BLOCK == 0 {
        return whole;
    }
    whole + 1
}

// The sum over the bytes before it, of each times its place counted from 1.
fn sum(b: &[u8]) -> u64
    requires { length b.now ≡ block_bytes }
    ensures { result ≡ sum_of b.now }
{
    // The index is the weight, so `enumerate` would be no plainer.
    let mut total: u64 = 0;
    for i in 0..layout::SUM {
        total += b[i] as u64 * (i as u64 + 1);
    }
    total
}

// A block that is not the last is full.
fn good_count(n: usize, last: bool) -> bool
    ensures { result ≡ good_count n last }
{
    if last {
        return n <= layout::RECORDS;
    }
    n == layout::RECORDS
}

// Record i is good if there is one, and zeros if not.
fn good_slot(b: &[u8], i: usize) -> bool
    requires { (length b.now ≡ block_bytes) × (i < record_room) }
    ensures { result ≡ good_slot b.now i }
{
    let r = records::record_at(b, i);
    if i < b[layout::COUNT] as usize {
        return records::good_record(r);
    }
    numbers::zeros(r, 0, layout::RECORD)
}

fn good_slots(b: &[u8]) -> bool
    requires { length b.now ≡ block_bytes }
    ensures { result ≡ all_below record_room (good_slot b.now) }
{
    (0..layout::RECORDS).all(|i| good_slot(b, i))
}

// Whether these bytes are a good block at this place of a recording.
pub fn good_block(b: &[u8], place: u64, last: bool) -> bool
    ensures { result ≡ good_block b.now place last }
{
    if b.len() != layout::BLOCK {
        return false;
    }
    if numbers::number(b, 0, layout::PLACE_BYTES) != place {
        return false;
    }
    if !good_count(b[layout::COUNT] as usize, last) {
        return false;
    }
    if !numbers::zeros(b, layout::HEAD_ZEROS, layout::HEAD_ZERO_BYTES) {
        return false;
    }
    if numbers::number(b, layout::SUM, layout::SUM_BYTES) != sum(b) {
        return false;
    }
    good_slots(b)
}

// The block is finished: place, count, zeros and the sum. False, and nothing is written, if the bytes are no block's or the count is too high.
pub fn seal(block: &mut [u8], place: u32, count: usize) -> bool
    ensures { (result ≡ (seal_of block.old place count).answer) × (block.new ≡ (seal_of block.old place count).block) }
{
    if block.len() != layout::BLOCK {
        return false;
    }
    if layout::RECORDS < count {
        return false;
    }
    writes::put_head(block, place, count as u8);
    let past = layout::HEAD + layout::RECORD * count;
    writes::put_zeros(block, past, layout::RECORD * (layout::RECORDS - count));
    let total = sum(block);
    writes::put_number(block, layout::SUM, layout::SUM_BYTES, total);
    true
}
