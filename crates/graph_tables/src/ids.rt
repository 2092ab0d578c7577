// The numbers that name a graph's parts.
#[derive(Clone, Copy, Debug, PartialEq, Eq)]
pub struct Action(pub u32);

#[derive(Clone, Copy, Debug, PartialEq, Eq)]
pub struct Location(pub u32);

#[derive(Clone, Copy, Debug, PartialEq, Eq)]
pub struct Clock(pub u32);

#[derive(Clone, Copy, Debug, PartialEq, Eq)]
pub struct Var(pub u32);

impl Action {
    // The reserved action: it has no effects and no resets.
    pub const EPSILON: Action = Action(4294967295);
}
