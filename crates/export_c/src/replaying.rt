// A recording stepped again.
ghost use Rattle.std.specs.Prelude.{◌≡◌, true};
ghost use Rattle.replays.specs.Replay.{replay_of};
ghost use Rattle.c_words.specs.Given.{answering, Gives};
ghost use Rattle.export.specs.Findings.{replay_words, replay_told};

#[unsafe(no_mangle)]
pub extern "C" fn njn_replay_words() -> usize
    ensures { result ≡ replay_words }
{
    export::replaying::njn_replay_words()
}

#[unsafe(no_mangle)]
pub extern "C" fn njn_state_replay(t: &[u64], s: &mut [u64], bytes: &[u8], out: &mut [u64]) -> u32
    ensures { Gives result s.new out.new (answering replay_words true s.old out.old
        (replay_told (replay_of t.now s.old bytes.now).answer)
        (replay_of t.now s.old bytes.now).state) }
{
    export::replaying::njn_state_replay(t, s, bytes, out)
}
