// The building calls on a graph: on its own table, or on the table of the system that has it.
use grammar::values::{Type, Val};
use graph_builder;
use graph_tables::answers::Answer;
use graph_tables::handed::Limits;
use graph_tables::ids::{Action, Clock, Location, Var};
use graph_text::guards::Guard;
use system_builder::on_graph;
use system_tables::ids::PgId;

// What a graph is built in.
pub trait Builder {
    fn new_var(&mut self, val: Val) -> Answer<u32>;

    fn var_type(&self, var: Var) -> Answer<Type>;

    fn new_clock(&mut self) -> Answer<u32>;

    fn new_action(&mut self) -> Answer<u32>;

    fn new_process(&mut self, location: Location) -> Answer<()>;

    fn add_reset(&mut self, action: Action, clock: Clock) -> Answer<()>;

    fn add_effect(&mut self, action: Action, var: Var, effect: &[u64]) -> Answer<()>;

    fn new_location(&mut self) -> Answer<u32>;

    fn new_timed_location(&mut self, limits: Limits) -> Answer<u32>;

    fn new_initial_location(&mut self) -> Answer<u32>;

    fn new_initial_timed_location(&mut self, limits: Limits) -> Answer<u32>;

    fn add_transition(
        &mut self,
        pre: Location,
        action: Action,
        post: Location,
        guard: Guard,
    ) -> Answer<()>;

    fn add_timed_transition(
        &mut self,
        pre: Location,
        action: Action,
        post: Location,
        guard: Guard,
        limits: Limits,
    ) -> Answer<()>;

    fn add_autonomous_transition(
        &mut self,
        pre: Location,
        post: Location,
        guard: Guard,
    ) -> Answer<()>;

    fn add_autonomous_timed_transition(
        &mut self,
        pre: Location,
        post: Location,
        guard: Guard,
        limits: Limits,
    ) -> Answer<()>;
}

// A table of its own.
#[derive(Drop)]
pub struct Alone<'a> {
    pub table: &'a mut [u64],
}

impl<'a> Builder for Alone<'a> {
    fn new_var(&mut self, val: Val) -> Answer<u32> {
        graph_builder::new_var(self.table, val)
    }

    fn var_type(&self, var: Var) -> Answer<Type> {
        graph_builder::var_type(self.table, var)
    }

    fn new_clock(&mut self) -> Answer<u32> {
        graph_builder::new_clock(self.table)
    }

    fn new_action(&mut self) -> Answer<u32> {
        graph_builder::new_action(self.table)
    }

    fn new_process(&mut self, location: Location) -> Answer<()> {
        graph_builder::new_process(self.table, location)
    }

    fn add_reset(&mut self, action: Action, clock: Clock) -> Answer<()> {
        graph_builder::add_reset(self.table, action, clock)
    }

    fn add_effect(&mut self, action: Action, var: Var, effect: &[u64]) -> Answer<()> {
        graph_builder::add_effect(self.table, action, var, effect)
    }

    fn new_location(&mut self) -> Answer<u32> {
        graph_builder::new_location(self.table)
    }

    fn new_timed_location(&mut self, limits: Limits) -> Answer<u32> {
        graph_builder::new_timed_location(self.table, limits)
    }

    fn new_initial_location(&mut self) -> Answer<u32> {
        graph_builder::new_initial_location(self.table)
    }

    fn new_initial_timed_location(&mut self, limits: Limits) -> Answer<u32> {
        graph_builder::new_initial_timed_location(self.table, limits)
    }

    fn add_transition(
        &mut self,
        pre: Location,
        action: Action,
        post: Location,
        guard: Guard,
    ) -> Answer<()> {
        let Guard { guarded, items } = guard;
        graph_builder::add_transition(self.table, pre, action, post, guarded, items)
    }

    fn add_timed_transition(
        &mut self,
        pre: Location,
        action: Action,
        post: Location,
        guard: Guard,
        limits: Limits,
    ) -> Answer<()> {
        let Guard { guarded, items } = guard;
        graph_builder::add_timed_transition(self.table, pre, action, post, guarded, items, limits)
    }

    fn add_autonomous_transition(
        &mut self,
        pre: Location,
        post: Location,
        guard: Guard,
    ) -> Answer<()> {
        let Guard { guarded, items } = guard;
        graph_builder::add_autonomous_transition(self.table, pre, post, guarded, items)
    }

    fn add_autonomous_timed_transition(
        &mut self,
        pre: Location,
        post: Location,
        guard: Guard,
        limits: Limits,
    ) -> Answer<()> {
        let Guard { guarded, items } = guard;
        graph_builder::add_autonomous_timed_transition(
            self.table, pre, post, guarded, items, limits,
        )
    }
}

// The table of a system, and the graph's number there.
#[derive(Drop)]
pub struct OfSystem<'a> {
    pub table: &'a mut [u64],
    pub graph: PgId,
}

impl<'a> Builder for OfSystem<'a> {
    fn new_var(&mut self, val: Val) -> Answer<u32> {
        on_graph::new_var(self.table, self.graph, val)
    }

    fn var_type(&self, var: Var) -> Answer<Type> {
        on_graph::var_type(self.table, self.graph, var)
    }

    fn new_clock(&mut self) -> Answer<u32> {
        on_graph::new_clock(self.table, self.graph)
    }

    fn new_action(&mut self) -> Answer<u32> {
        on_graph::new_action(self.table, self.graph)
    }

    fn new_process(&mut self, location: Location) -> Answer<()> {
        on_graph::new_process(self.table, self.graph, location)
    }

    fn add_reset(&mut self, action: Action, clock: Clock) -> Answer<()> {
        on_graph::add_reset(self.table, self.graph, action, clock)
    }

    fn add_effect(&mut self, action: Action, var: Var, effect: &[u64]) -> Answer<()> {
        on_graph::add_effect(self.table, self.graph, action, var, effect)
    }

    fn new_location(&mut self) -> Answer<u32> {
        on_graph::new_location(self.table, self.graph)
    }

    fn new_timed_location(&mut self, limits: Limits) -> Answer<u32> {
        on_graph::new_timed_location(self.table, self.graph, limits)
    }

    fn new_initial_location(&mut self) -> Answer<u32> {
        on_graph::new_initial_location(self.table, self.graph)
    }

    fn new_initial_timed_location(&mut self, limits: Limits) -> Answer<u32> {
        on_graph::new_initial_timed_location(self.table, self.graph, limits)
    }

    fn add_transition(
        &mut self,
        pre: Location,
        action: Action,
        post: Location,
        guard: Guard,
    ) -> Answer<()> {
        let Guard { guarded, items } = guard;
        on_graph::add_transition(self.table, self.graph, pre, action, post, guarded, items)
    }

    fn add_timed_transition(
        &mut self,
        pre: Location,
        action: Action,
        post: Location,
        guard: Guard,
        limits: Limits,
    ) -> Answer<()> {
        let Guard { guarded, items } = guard;
        on_graph::add_timed_transition(
            self.table, self.graph, pre, action, post, guarded, items, limits,
        )
    }

    fn add_autonomous_transition(
        &mut self,
        pre: Location,
        post: Location,
        guard: Guard,
    ) -> Answer<()> {
        let Guard { guarded, items } = guard;
        on_graph::add_autonomous_transition(self.table, self.graph, pre, post, guarded, items)
    }

    fn add_autonomous_timed_transition(
        &mut self,
        pre: Location,
        post: Location,
        guard: Guard,
        limits: Limits,
    ) -> Answer<()> {
        let Guard { guarded, items } = guard;
        on_graph::add_autonomous_timed_transition(
            self.table, self.graph, pre, post, guarded, items, limits,
        )
    }
}
