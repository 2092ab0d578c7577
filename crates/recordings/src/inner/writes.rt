// Numbers and zeros written into bytes, and the parts of a record.
ghost use Rattle.std.specs.Prelude.{◌≡◌, ◌+◌, ◌-◌, ◌≤◌, length, replicate};
ghost use Rattle.std.proofs.lemmas.List.Edits.{sets};
ghost use Rattle.recordings.specs.Layout.{block_bytes, record_bytes, first_post, post_bytes, posts_bytes, word_byte};
ghost use Rattle.recordings.specs.Numbers.{bytes_of};
ghost use Rattle.recordings.specs.Writing.{part_of, posts_of};
ghost use Rattle.recordings.specs.Putting.{front_fields, last_fields, with_head};

use crate::layout;

// A number in n bytes from a place on.
pub fn put_number(bytes: &mut [u8], at: usize, n: usize, x: u64)
    requires { at + n ≤ length bytes.old }
    ensures { bytes.new ≡ sets bytes.old at (bytes_of n x) }
{
    // `to_le_bytes` would ask that n be at most 8, and this asks nothing of n (what may not change).
    let mut rest = x;
    for b in &mut bytes[at..at + n] {
        *b = (rest % 256) as u8;
        rest /= 256;
    }
}

// n zeros from a place on.
pub fn put_zeros(bytes: &mut [u8], at: usize, n: usize)
    requires { at + n ≤ length bytes.old }
    ensures { bytes.new ≡ sets bytes.old at (replicate n 0) }
{
    bytes[at..at + n].fill(0);
}

// ---- A record.
// Kind, graph, number of posts, zero, action or delta.
pub fn put_front(bytes: &mut [u8], at: usize, kind: u8, graph: u8, count: u8, amount: u32)
    requires { at + first_post ≤ length bytes.old }
    ensures { bytes.new ≡ sets bytes.old at (front_fields kind graph count amount) }
{
    bytes[at] = kind;
    bytes[at + layout::GRAPH] = graph;
    bytes[at + layout::POST_COUNT] = count;
    bytes[at + layout::ZERO] = 0;
    put_number(
        bytes,
        at + layout::AMOUNT,
        layout::AMOUNT_BYTES,
        amount as u64,
    );
}

// Post j, or zeros if there is none.
fn put_post(bytes: &mut [u8], at: usize, posts: &[u16], j: usize)
    requires { at + post_bytes ≤ length bytes.old }
    ensures { bytes.new ≡ sets bytes.old at (part_of (bytes_of post_bytes) post_bytes posts.now j) }
{
    if j < posts.len() {
        put_number(bytes, at, layout::POST_BYTES, posts[j] as u64);
        return;
    }
    put_zeros(bytes, at, layout::POST_BYTES)
}

pub fn put_posts(bytes: &mut [u8], at: usize, posts: &[u16])
    requires { at + posts_bytes ≤ length bytes.old }
    ensures { bytes.new ≡ sets bytes.old at (posts_of posts.now) }
{
    // The places are four however many posts there are, so a loop over the posts would be no plainer.
    for j in 0..layout::POSTS {
        put_post(bytes, at + layout::POST_BYTES * j, posts, j);
    }
}

// Word, answer, zeros.
pub fn put_last(bytes: &mut [u8], at: usize, word: u64, answer: u8)
    requires { at + (record_bytes - word_byte) ≤ length bytes.old }
    ensures { bytes.new ≡ sets bytes.old at (last_fields word answer) }
{
    put_number(bytes, at, layout::WORD_BYTES, word);
    bytes[at + layout::WORD_BYTES] = answer;
    put_zeros(bytes, at + layout::WORD_BYTES + 1, layout::TAIL_BYTES);
}

// ---- A block: its place, the count of its records, zeros.
pub fn put_head(block: &mut [u8], place: u32, count: u8)
    requires { length block.old ≡ block_bytes }
    ensures { block.new ≡ with_head block.old place count }
{
    put_number(block, 0, layout::PLACE_BYTES, place as u64);
    block[layout::COUNT] = count;
    put_zeros(block, layout::HEAD_ZEROS, layout::HEAD_ZERO_BYTES);
}
