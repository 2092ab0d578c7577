// Lists that are handed to calls, each with its count, which may be above what there is room for.
// They stay arrays with a count: public calls take them by value, and what they answer to a count above the room is promised (28).
ghost use Rattle.std.specs.Prelude.{◌≡◌};
ghost use Rattle.graph_tables.specs.Handed.{no_limits};

use crate::ids::{Clock, Var};
use crate::sizes;
use grammar::values::Slot;
use time::{Bound, TimeRange};

// A clock, and the times at which it may stand.
#[derive(Clone, Copy)]
pub struct Limit {
    pub clock: Clock,
    pub range: TimeRange,
}

#[derive(Clone, Copy)]
pub struct Limits {
    pub limits: [Limit; sizes::LIMITS],
    pub count: usize,
}

impl Limits {
    pub fn none() -> Limits
        ensures { result ≡ no_limits }
    {
        let blank = Limit {
            clock: Clock(0),
            range: TimeRange::new(Bound::Included(0), Bound::Included(0)),
        };
        Limits {
            limits: [blank; sizes::LIMITS],
            count: 0,
        }
    }
}

#[derive(Clone, Copy)]
pub struct Vars {
    pub vars: [Var; sizes::MESSAGE],
    pub count: usize,
}

// The values of a message.
#[derive(Clone, Copy)]
pub struct Message {
    pub values: [Slot; sizes::MESSAGE],
    pub count: usize,
}
