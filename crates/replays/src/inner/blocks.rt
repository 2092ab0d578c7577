// The records of a block and the blocks of a recording, stepped in place on a table and a state that fit.
ghost use Rattle.std.specs.Prelude.{◌≡◌, true, ◌+◌, ◌*◌, ◌<◌, ◌≤◌, length};
ghost use Rattle.laws.specs.Below.{all_below};
ghost use Rattle.recordings.specs.Layout.{block_bytes, record_room};
ghost use Rattle.recordings.specs.Blocks.{count_in, entries_of, good_slot, blocks_in};
ghost use Rattle.replays.specs.Facts.{Ready};
ghost use Rattle.replays.specs.Replay.{records_played, block_played, all_played};

use crate::answers::{Difference, ReplayError};
use crate::inner::calls;
use recordings::inner::records;
use recordings::{blocks, layout};

// The records of a good block, up to the first that answers otherwise. So many went before. A difference tells its place, so they are
// counted.
fn play_records(
    t: &[u64],
    s: &mut [u64],
    block: &[u8],
    b: u64,
    done: u64,
) -> Result<u64, ReplayError>
    requires { Ready t.now s.old × (length block.now ≡ block_bytes) × (count_in block.now ≤ record_room)
        × (all_below record_room (good_slot block.now) ≡ true) × (done ≤ record_room * b) × (b < 36028797018963968) }
    ensures { (result ≡ (records_played t.now s.old b 0 done (entries_of block.now)).answer)
        × (s.new ≡ (records_played t.now s.old b 0 done (entries_of block.now)).state) }
{
    let n = block[layout::COUNT] as usize;
    for i in 0..n {
        let r = records::record_at(block, i);
        let recorded = r[layout::ANSWER] as u32;
        let given = calls::make_call(t, s, r);
        if given != recorded {
            return Err(ReplayError::Differs(Difference {
                block: b,
                entry: i as u64,
                recorded,
                given,
            }));
        }
    }
    Ok(done + n as u64)
}

// Block b, tested whole before any of its records is stepped.
fn play_block(
    t: &[u64],
    s: &mut [u64],
    bytes: &[u8],
    b: usize,
    done: u64,
) -> Result<u64, ReplayError>
    requires { Ready t.now s.old × (b < blocks_in (length bytes.now)) × (done ≤ record_room * b) }
    ensures { (result ≡ (block_played t.now s.old bytes.now b done).answer)
        × (s.new ≡ (block_played t.now s.old bytes.now b done).state) }
{
    let a = layout::BLOCK * b;
    if bytes.len() - a < layout::BLOCK {
        return Err(ReplayError::BadBlock(b as u64));
    }
    let e = a + layout::BLOCK;
    let block = &bytes[a..e];
    if !blocks::good_block(block, b as u64, bytes.len() <= e) {
        return Err(ReplayError::BadBlock(b as u64));
    }
    play_records(t, s, block, b as u64, done)
}

// All blocks, up to the first finding.
pub fn play(t: &[u64], s: &mut [u64], bytes: &[u8]) -> Result<u64, ReplayError>
    requires { Ready t.now s.old }
    ensures { (result ≡ (all_played t.now s.old bytes.now).answer)
        × (s.new ≡ (all_played t.now s.old bytes.now).state) }
{
    let mut done: u64 = 0;
    for b in 0..blocks::blocks_in(bytes.len()) {
        done = play_block(t, s, bytes, b, done)?;
    }
    Ok(done)
}
