// A recording stepped again, on a lent table and a lent state.
ghost use Rattle.std.specs.Prelude.{◌≡◌};
ghost use Rattle.replays.specs.Replay.{replay_of};

use crate::answers::ReplayError;
use crate::inner::blocks;
use channel_system::run;
use graph_tables::refusals::Refusal;
use system_state::layout;

// A finding gives the state back as it was. The state is kept beside, and stepped in place: a replay that finishes copies it once.
pub fn replay(t: &[u64], s: &mut [u64], bytes: &[u8]) -> Result<u64, ReplayError>
    ensures { (result ≡ (replay_of t.now s.old bytes.now).answer)
        × (s.new ≡ (replay_of t.now s.old bytes.now).state) }
{
    if !run::system_fits(t, s) {
        return Err(ReplayError::Refused(Refusal::BadState));
    }
    let mut kept = [0; layout::WORDS];
    kept.copy_from_slice(s);
    let r = blocks::play(t, s, bytes);
    if r.is_ok() {
        return r;
    }
    s.copy_from_slice(&kept);
    r
}
