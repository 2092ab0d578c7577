// What an action is to the system.
ghost use Rattle.std.specs.Prelude.{◌≡◌, ◌<◌};
ghost use Rattle.system_tables.specs.Words.{graph_count};
ghost use Rattle.system_tables.specs.Sound.{SystemSound};
ghost use Rattle.channel_system.specs.Steps.{spoken_by};

use graph_tables::inner;
use system_tables::ids::Communication;
use system_tables::inner::words;

// One that the graph does not have is on no channel.
pub fn spoken_by(t: &[u64], g: usize, a: u32) -> Communication
    requires { SystemSound t.now × (g < graph_count t.now) }
    ensures { result ≡ spoken_by t.now g a }
{
    if inner::action_count(words::graph_at(t, g)) <= a as usize {
        return Communication::Plain;
    }
    words::communication_of(t, g, a as usize)
}
