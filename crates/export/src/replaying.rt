// A recording stepped again.
ghost use Rattle.std.specs.Prelude.{◌≡◌, true};
ghost use Rattle.replays.specs.Replay.{replay_of};
ghost use Rattle.c_words.specs.Told.{Says};
ghost use Rattle.c_words.specs.Given.{answering, Gives};
ghost use Rattle.export.specs.Findings.{replay_words, replay_told};

use c_words::inner::{given, values};
use replays::answers::ReplayError;
use replays::run;

// Numbers behind those of the calls, as C is told them: a block is bad, a record answers otherwise than it says.
const BAD_BLOCK: u32 = 37;

const DIFFERS: u32 = 38;

// How many words a replay tells.
const WORDS: usize = 4;

pub fn njn_replay_words() -> usize
    ensures { result ≡ replay_words }
{
    WORDS
}

// All four are written where a replay ran, to its end or to a finding.
fn replayed(answer: Result<u64, ReplayError>, out: &mut [u64]) -> u32
    ensures { Says result out.new out.old (replay_told answer) }
{
    match answer {
        Ok(n) => {
            values::put_all(out, &[n, 0, 0, 0]);
            0
        }
        Err(ReplayError::BadBlock(b)) => {
            values::put_all(out, &[b, 0, 0, 0]);
            BAD_BLOCK
        }
        Err(ReplayError::Differs(d)) => {
            values::put_all(out, &[d.block, d.entry, d.recorded as u64, d.given as u64]);
            DIFFERS
        }
        Err(ReplayError::Refused(r)) => r.number(),
    }
}

pub fn njn_state_replay(t: &[u64], s: &mut [u64], bytes: &[u8], out: &mut [u64]) -> u32
    ensures { Gives result s.new out.new (answering replay_words true s.old out.old
        (replay_told (replay_of t.now s.old bytes.now).answer)
        (replay_of t.now s.old bytes.now).state) }
{
    if out.len() < WORDS {
        return given::SHORT;
    }
    replayed(run::replay(t, s, bytes), out)
}
