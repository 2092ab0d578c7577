// Actions that communicate: a graph's own action, and the channel that the system keeps for it. The three calls below are a check, the
// graph's own call and the communication: a generic one would take all three from them, and be no plainer.
ghost use Rattle.std.specs.Prelude.{◌≡◌};
ghost use Rattle.graph_edits.specs.Edits.{chosen};
ghost use Rattle.system_tables.specs.declared.ids.Message.TheVariants.{ProbeEmptyQueue, ProbeFullQueue};
ghost use Rattle.system_builder.specs.Messages.{new_send_on, new_receive_on, new_probe_on};

use crate::inner::{checks, graphs};
use graph_tables::answers::Answer;
use graph_tables::handed::Vars;
use system_tables::ids::{Channel, Communication, Message, PgId};

// A send of the first count of four expressions.
#[tactic(auto, unfolding(crate::specs::Messages::new_send_on))]
pub fn new_send<'a>(
    t: &mut [u64],
    g: PgId,
    channel: Channel,
    count: usize,
    w: &'a [u64],
    x: &'a [u64],
    y: &'a [u64],
    z: &'a [u64],
) -> Answer<u32>
    ensures { (result ≡ (new_send_on t.old g.0 channel (chosen w.now x.now y.now z.now) count).answer) × (t.new ≡ (new_send_on t.old g.0 channel (chosen w.now x.now y.now z.now) count).table) }
{
    checks::send_check(t, g.0, channel.0, w, x, y, z, count)?;
    let placed = graphs::send_on(t, g.0 as usize, count, w, x, y, z);
    graphs::tell(
        t,
        g.0 as usize,
        placed,
        Communication::On(Message::Send, channel),
    );
    placed
}

// A receive into these variables.
#[tactic(auto, unfolding(crate::specs::Messages::new_receive_on))]
pub fn new_receive(t: &mut [u64], g: PgId, channel: Channel, vars: Vars) -> Answer<u32>
    ensures { (result ≡ (new_receive_on t.old g.0 channel vars).answer) × (t.new ≡ (new_receive_on t.old g.0 channel vars).table) }
{
    checks::receive_check(t, g.0, channel.0, vars)?;
    let placed = graphs::receive_on(t, g.0 as usize, vars);
    graphs::tell(
        t,
        g.0 as usize,
        placed,
        Communication::On(Message::Receive, channel),
    );
    placed
}

// A probe of this kind: in its graph it is a send of no values.
#[tactic(auto, unfolding(crate::specs::Messages::new_probe_on))]
fn new_probe(t: &mut [u64], g: PgId, kind: Message, channel: Channel) -> Answer<u32>
    ensures { (result ≡ (new_probe_on t.old g.0 kind channel).answer) × (t.new ≡ (new_probe_on t.old g.0 kind channel).table) }
{
    checks::known_check(t, g.0, channel.0)?;
    let none = [0u64; 0];
    let placed = graphs::send_on(t, g.0 as usize, 0, &none, &none, &none, &none);
    graphs::tell(t, g.0 as usize, placed, Communication::On(kind, channel));
    placed
}

pub fn new_probe_empty_queue(t: &mut [u64], g: PgId, channel: Channel) -> Answer<u32>
    ensures { (result ≡ (new_probe_on t.old g.0 ProbeEmptyQueue channel).answer) × (t.new ≡ (new_probe_on t.old g.0 ProbeEmptyQueue channel).table) }
{
    new_probe(t, g, Message::ProbeEmptyQueue, channel)
}

pub fn new_probe_full_queue(t: &mut [u64], g: PgId, channel: Channel) -> Answer<u32>
    ensures { (result ≡ (new_probe_on t.old g.0 ProbeFullQueue channel).answer) × (t.new ≡ (new_probe_on t.old g.0 ProbeFullQueue channel).table) }
{
    new_probe(t, g, Message::ProbeFullQueue, channel)
}
