// Why a line is not answered by what it asks for.
use graph_tables::refusals::Refusal;

// It asks for nothing that there is, or the call that it names refused.
#[derive(Clone, Copy)]
pub enum Fault {
    Bad,
    Refused(Refusal),
}

impl From<Refusal> for Fault {
    fn from(refusal: Refusal) -> Fault {
        Fault::Refused(refusal)
    }
}
