// Building a system: its graphs and its channels.
ghost use Rattle.std.specs.Prelude.{◌≡◌, true};
ghost use Rattle.system_tables.specs.Words.{capacity_as};
ghost use Rattle.system_builder.specs.Systems.{empty_system_of, new_graph_of, new_channel_of, build_system_of, channel_in};
ghost use Rattle.c_words.specs.Told.{channel_words, done_told, channel_told};
ghost use Rattle.c_words.specs.Given.{placing, doing, reading, Gives, Does, Tells};
ghost use Rattle.c_words.specs.Handed.{channel_known, kinds_from};

use c_words::inner::{given, handed};
use system_tables::ids::Channel;

pub fn njn_system_new(t: &mut [u64]) -> u32
    ensures { Does result t.new (doing true t.old (empty_system_of t.old)) }
{
    given::done(system_builder::new(t))
}

pub fn njn_system_new_program_graph(t: &mut [u64], out: &mut [u64]) -> u32
    ensures { Gives result t.new out.new (placing true t.old out.old (new_graph_of t.old)) }
{
    if out.len() < given::NUMBER {
        return given::SHORT;
    }
    given::told(system_builder::new_program_graph(t), out)
}

pub fn njn_system_new_channel(
    t: &mut [u64],
    kinds: &[u32],
    sort: u32,
    bound: u32,
    out: &mut [u64],
) -> u32
    ensures { Gives result t.new out.new (placing (channel_known kinds.now sort) t.old out.old (new_channel_of t.old (kinds_from kinds.now) (capacity_as sort bound))) }
{
    if out.len() < given::NUMBER {
        return given::SHORT;
    }
    if !handed::channel_known(kinds, sort) {
        return given::MALFORMED;
    }
    let read = handed::kinds_of(kinds);
    let capacity = handed::capacity_of(sort, bound);
    given::told(system_builder::new_channel(t, read, capacity), out)
}

pub fn njn_system_channel(t: &[u64], channel: u32, out: &mut [u64]) -> u32
    ensures { Tells result out.new (reading channel_words out.old (channel_told (channel_in t.now channel))) }
{
    if out.len() < given::CHANNEL {
        return given::SHORT;
    }
    given::channel(system_builder::channel(t, Channel(channel)), out)
}

pub fn njn_system_build(t: &[u64]) -> u32
    ensures { result ≡ (done_told (build_system_of t.now)).number }
{
    given::done(system_builder::build(t))
}
