// Runs one small system by lines from standard input: `w D` waits, `t A P` steps. Each is answered on a line of its own, and at the
// end the time is told.
#![tactic(auto)]

mod lines;
mod system;

use std::io;

fn main(rt: HostRuntime) -> io::Result<()> {
    let mut t = [0u64; system_tables::sizes::WORDS];
    let mut s = [0u64; system_state::layout::WORDS];
    let mut line = [0u8; lines::ROOM];
    // Where it did not start, each call on it is refused, and says so.
    let _ = system::start(&mut t, &mut s);
    lines::answer_all(&rt, &mut line, &t, &mut s)?;
    lines::tell_time(&rt, &t, &s)
}
