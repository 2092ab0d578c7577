// What calls on a running system answer, beside the answers of graph_tables.
ghost use Rattle.std.specs.Prelude.{◌≡◌};
ghost use Rattle.channel_system.specs.declared.answers.WaitError.TheVariants.{Refused};

use graph_tables::handed::Message;
use graph_tables::refusals::Refusal;
use system_tables::ids::{Communication, PgId};

// What an accepted communication did: on which channel, of which kind, its values. `on` is plain of a plain step, which has no event.
#[derive(Clone, Copy)]
pub struct Event {
    pub pg_id: PgId,
    pub on: Communication,
    pub values: Message,
}

// What stands against a wait: a refusal, or invariants, of which the lowest graph that has one is named.
#[derive(Clone, Copy)]
pub enum WaitError {
    Invariant(PgId),
    Refused(Refusal),
}

impl From<Refusal> for WaitError {
    ghost from_gives = { λ r e. e ≡ Refused r };

    fn from(r: Refusal) -> WaitError {
        WaitError::Refused(r)
    }
}
