// The number of an answer: 0 for ok.
ghost use Rattle.std.specs.Prelude.{◌≡◌};
ghost use Rattle.graph_tables.specs.Answers.{answer_number};
ghost use Rattle.channel_system.specs.Told.{waited_number};

use channel_system::answers::WaitError;
use graph_tables::answers::Answer;

pub fn answer_number<T: Copy>(d: Answer<T>) -> u32
    ensures { result ≡ answer_number d }
{
    match d {
        Ok(_) => 0,
        Err(r) => r.number(),
    }
}

// Which graph objects is not told.
pub fn waited_number(w: Result<(), WaitError>) -> u32
    ensures { result ≡ waited_number w }
{
    match w {
        Ok(()) => 0,
        Err(WaitError::Invariant(_)) => 9,
        Err(WaitError::Refused(r)) => r.number(),
    }
}
