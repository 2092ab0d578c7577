// A record, 32 bytes: what it says, and whether it is good.
ghost use Rattle.std.specs.Prelude.{◌≡◌, ◌^◌, ◌<◌, length};
ghost use Rattle.recordings.specs.Layout.{block_bytes, record_room, record_bytes, post_room, post_bytes};
ghost use Rattle.recordings.specs.Numbers.{byte};
ghost use Rattle.recordings.specs.Blocks.{record_part};
ghost use Rattle.recordings.specs.Records.{amount_in, post_in, word_in, good_step, good_wait, good_kind, good_record};

use crate::inner::numbers;
use crate::layout;

// Record i of a block.
pub fn record_at(b: &[u8], i: usize) -> &[u8]
    requires { (length b.now ≡ block_bytes) × (i < record_room) }
    ensures { (result.now ≡ record_part b.now i) × (length result.now ≡ record_bytes) }
{
    let a = layout::HEAD + layout::RECORD * i;
    let e = a + layout::RECORD;
    &b[a..e]
}

// ---- What it says.
// The action of a step, the delta of a wait.
pub fn amount(r: &[u8]) -> u32
    requires { length r.now ≡ record_bytes }
    ensures { result ≡ amount_in r.now }
{
    numbers::number(r, layout::AMOUNT, layout::AMOUNT_BYTES) as u32
}

pub fn post(r: &[u8], j: usize) -> u64
    requires { (length r.now ≡ record_bytes) × (j < post_room) }
    ensures { (result ≡ post_in r.now j) × (result < byte ^ post_bytes) }
{
    numbers::number(
        r,
        layout::FIRST_POST + layout::POST_BYTES * j,
        layout::POST_BYTES,
    )
}

pub fn word(r: &[u8]) -> u64
    requires { length r.now ≡ record_bytes }
    ensures { result ≡ word_in r.now }
{
    numbers::number(r, layout::WORD, layout::WORD_BYTES)
}

// ---- Whether it is good.
fn good_step(r: &[u8]) -> bool
    requires { length r.now ≡ record_bytes }
    ensures { result ≡ good_step r.now }
{
    let n = r[layout::POST_COUNT] as usize;
    if layout::POSTS < n {
        return false;
    }
    numbers::zeros(
        r,
        layout::FIRST_POST + layout::POST_BYTES * n,
        layout::POST_BYTES * (layout::POSTS - n),
    )
}

fn good_wait(r: &[u8]) -> bool
    requires { length r.now ≡ record_bytes }
    ensures { result ≡ good_wait r.now }
{
    if r[layout::GRAPH] != 0 {
        return false;
    }
    if r[layout::POST_COUNT] != 0 {
        return false;
    }
    numbers::zeros(
        r,
        layout::FIRST_POST,
        layout::POSTS_BYTES + layout::WORD_BYTES,
    )
}

fn good_kind(r: &[u8]) -> bool
    requires { length r.now ≡ record_bytes }
    ensures { result ≡ good_kind r.now }
{
    let kind = r[layout::KIND];
    if kind == layout::STEP {
        return good_step(r);
    }
    if kind != layout::WAIT {
        return false;
    }
    good_wait(r)
}

pub fn good_record(r: &[u8]) -> bool
    requires { length r.now ≡ record_bytes }
    ensures { result ≡ good_record r.now }
{
    if r[layout::ZERO] != 0 {
        return false;
    }
    if !numbers::zeros(r, layout::TAIL, layout::TAIL_BYTES) {
        return false;
    }
    good_kind(r)
}
