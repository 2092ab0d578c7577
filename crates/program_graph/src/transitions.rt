// Listing what a run may do next, one entry at a time.
ghost use Rattle.std.specs.Prelude.{◌≡◌};
ghost use Rattle.program_graph.specs.Transitions.{possible_of, nosync_of};

use crate::inner::by_value;
use crate::record::ProgramGraphRun;
use crate::run;
use graph_tables::answers::{Answer, Entry};
use graph_tables::refusals::Refusal;

impl ProgramGraphRun {
    // Entry k of what the run may do next.
    pub fn possible_transitions(self, t: &[u64], k: usize) -> Answer<Option<Entry>>
        ensures { result ≡ possible_of t.now self k }
    {
        if !run::fits_table(t, self) {
            return Err(Refusal::BadState);
        }
        by_value::entry(self, t, k)
    }

    // The same for a graph of one process.
    pub fn nosync_possible_transitions(self, t: &[u64], k: usize) -> Answer<Option<Entry>>
        ensures { result ≡ nosync_of t.now self k }
    {
        if !run::fits_table(t, self) {
            return Err(Refusal::BadState);
        }
        if self.processes != 1 {
            return Err(Refusal::Sync);
        }
        by_value::entry(self, t, k)
    }
}
