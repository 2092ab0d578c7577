// A run of one graph. A call changes it in place, and leaves it as it was where it refuses; the table that it runs on is lent beside it.
ghost use Rattle.std.specs.Prelude.{◌≡◌};
ghost use Rattle.program_graph.specs.Running.{fits_table, transition_of, wait_of, can_wait_of, is_waiting_of, new_run_of, states_of, value_in};
ghost use Rattle.program_graph.specs.Running.{time_of, made};
ghost use Rattle.program_graph.specs.Outcomes.{outcome, sent, states};
ghost use Rattle.program_graph.specs.Messaging.{send_of, receive_of};

use crate::answers::Places;
use crate::inner::{by_value, fits, fresh};
use crate::record::ProgramGraphRun;
use grammar::values::Val;
use graph_tables::answers::Answer;
use graph_tables::handed::Message;
use graph_tables::ids::{Action, Clock, Var};
use graph_tables::refusals::Refusal;
use graph_tables::{formed, inner};

// The test behind 32.
pub fn fits_table(t: &[u64], run: ProgramGraphRun) -> bool
    ensures { result ≡ fits_table t.now run }
{
    if !formed::well_formed(t, false) {
        return false;
    }
    fits::run_formed(t, run)
}

impl ProgramGraphRun {
    // A fresh run of a graph.
    pub fn new(t: &[u64]) -> Answer<ProgramGraphRun>
        ensures { made result ≡ new_run_of t.now }
    {
        if !formed::well_formed(t, false) {
            return Err(Refusal::BadState);
        }
        Ok(fresh::fresh(t))
    }

    // A step of a plain action, or of the reserved one.
    pub fn transition(&mut self, t: &[u64], action: Action, posts: &[u32], word: u64) -> Answer<()>
        ensures { outcome result self.new ≡ transition_of t.now self.old action.0 posts.now word }
    {
        if !fits_table(t, *self) {
            return Err(Refusal::BadState);
        }
        by_value::step(self, t, action.0, posts, word)
    }

    // Time passes, if no clock overflows and every invariant holds at the end.
    pub fn wait(&mut self, t: &[u64], delta: u32) -> Answer<()>
        ensures { outcome result self.new ≡ wait_of t.now self.old delta }
    {
        if !fits_table(t, *self) {
            return Err(Refusal::BadState);
        }
        by_value::wait(self, t, delta)
    }

    pub fn can_wait(self, t: &[u64], delta: u32) -> Answer<bool>
        ensures { result ≡ can_wait_of t.now self delta }
    {
        if !fits_table(t, self) {
            return Err(Refusal::BadState);
        }
        Ok(by_value::can_wait(self, t, delta))
    }

    // The values that a communication's expressions have. Nothing is reset.
    pub fn send(&mut self, t: &[u64], action: Action, posts: &[u32], word: u64) -> Answer<Message>
        ensures { sent result self.new ≡ send_of t.now self.old action.0 posts.now word }
    {
        if !fits_table(t, *self) {
            return Err(Refusal::BadState);
        }
        by_value::send(self, t, action.0, posts, word)
    }

    // The variables of a communication take the values. Nothing is reset.
    pub fn receive(
        &mut self,
        t: &[u64],
        action: Action,
        posts: &[u32],
        message: Message,
    ) -> Answer<()>
        ensures { outcome result self.new ≡ receive_of t.now self.old action.0 posts.now message }
    {
        if !fits_table(t, *self) {
            return Err(Refusal::BadState);
        }
        by_value::receive(self, t, action.0, posts, message)
    }

    // Whether some transition will be open later.
    pub fn is_waiting(self, t: &[u64]) -> Answer<bool>
        ensures { result ≡ is_waiting_of t.now self }
    {
        if !fits_table(t, self) {
            return Err(Refusal::BadState);
        }
        Ok(by_value::is_waiting(self, t))
    }

    // Where the processes are.
    pub fn current_states(self, t: &[u64]) -> Answer<Places>
        ensures { states result ≡ states_of t.now self }
    {
        if !fits_table(t, self) {
            return Err(Refusal::BadState);
        }
        let places = self.places;
        Ok(Places {
            places,
            count: self.processes,
        })
    }

    // The value of a variable.
    pub fn value(self, t: &[u64], var: Var) -> Answer<Val>
        ensures { result ≡ value_in t.now self var.0 }
    {
        if !fits_table(t, self) {
            return Err(Refusal::BadState);
        }
        let v = var.0 as usize;
        if inner::variable_count(t) <= v {
            return Err(Refusal::MissingVar);
        }
        let vars = self.vars;
        let slot = vars[v];
        let value = slot.value;
        Ok(value)
    }

    // The time of a clock.
    pub fn time(self, t: &[u64], clock: Clock) -> Answer<u32>
        ensures { result ≡ time_of t.now self clock.0 }
    {
        if !fits_table(t, self) {
            return Err(Refusal::BadState);
        }
        let c = clock.0 as usize;
        if inner::clock_count(t) <= c {
            return Err(Refusal::MissingClock);
        }
        let times = self.times;
        Ok(times[c])
    }
}
