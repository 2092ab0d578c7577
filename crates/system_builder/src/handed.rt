// The kinds of a message, with their count, which may be above what there is room for.
ghost use Rattle.std.specs.Prelude.{◌≡◌};
ghost use Rattle.system_builder.specs.Systems.{no_kinds};

use grammar::values::Type;
use graph_tables::sizes;

// A kind in an array.
#[derive(Clone, Copy)]
pub struct Kind {
    pub kind: Type,
}

// Fixed memory: an array with its count, and no heap. What a call answers to a count above the room is promised (28).
#[derive(Clone, Copy)]
pub struct Kinds {
    pub kinds: [Kind; sizes::MESSAGE],
    pub count: usize,
}

impl Kinds {
    pub fn none() -> Kinds
        ensures { result ≡ no_kinds }
    {
        let blank = Kind {
            kind: Type::Boolean,
        };
        Kinds {
            kinds: [blank; sizes::MESSAGE],
            count: 0,
        }
    }
}
