// Building a system: its graphs and its channels.
ghost use Rattle.std.specs.Prelude.{◌≡◌, true};
ghost use Rattle.system_tables.specs.Words.{capacity_as};
ghost use Rattle.system_builder.specs.Systems.{empty_system_of, new_graph_of, new_channel_of, build_system_of, channel_in};
ghost use Rattle.c_words.specs.Told.{channel_words, done_told, channel_told};
ghost use Rattle.c_words.specs.Given.{placing, doing, reading, Gives, Does, Tells};
ghost use Rattle.c_words.specs.Handed.{channel_known, kinds_from};

#[unsafe(no_mangle)]
pub extern "C" fn njn_system_new(t: &mut [u64]) -> u32
    ensures { Does result t.new (doing true t.old (empty_system_of t.old)) }
{
    export::systems::njn_system_new(t)
}

#[unsafe(no_mangle)]
pub extern "C" fn njn_system_new_program_graph(t: &mut [u64], out: &mut [u64]) -> u32
    ensures { Gives result t.new out.new (placing true t.old out.old (new_graph_of t.old)) }
{
    export::systems::njn_system_new_program_graph(t, out)
}

#[unsafe(no_mangle)]
pub extern "C" fn njn_system_new_channel(
    t: &mut [u64],
    kinds: &[u32],
    sort: u32,
    bound: u32,
    out: &mut [u64],
) -> u32
    ensures { Gives result t.new out.new (placing (channel_known kinds.now sort) t.old out.old (new_channel_of t.old (kinds_from kinds.now) (capacity_as sort bound))) }
{
    export::systems::njn_system_new_channel(t, kinds, sort, bound, out)
}

#[unsafe(no_mangle)]
pub extern "C" fn njn_system_channel(t: &[u64], channel: u32, out: &mut [u64]) -> u32
    ensures { Tells result out.new (reading channel_words out.old (channel_told (channel_in t.now channel))) }
{
    export::systems::njn_system_channel(t, channel, out)
}

#[unsafe(no_mangle)]
pub extern "C" fn njn_system_build(t: &[u64]) -> u32
    ensures { result ≡ (done_told (build_system_of t.now)).number }
{
    export::systems::njn_system_build(t)
}
