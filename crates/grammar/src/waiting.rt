// The operands that wait while an expression is typed, and what an operation leaves of them.
ghost use Rattle.std.specs.Prelude.{◌≡◌, [], ◌<◌, ◌^◌};
ghost use Rattle.grammar.specs.Items.{item_of};
ghost use Rattle.grammar.specs.Run.{change, join};
ghost use Rattle.grammar.specs.Typing.{takes1, takes2, alike, kind_step};
ghost use Rattle.grammar.specs.declared.values.«Type».TheVariants.{Boolean, Integer};
ghost use Rattle.grammar.specs.Inner.{Left};

use crate::items;

// How many wait, and a bit for each, the last the lowest: 1 for an integer, 0 for a boolean. A third kind would be a second
// number of such bits.
#[derive(Clone, Copy)]
pub(crate) struct Waiting {
    pub(crate) depth: usize,
    pub(crate) integers: u64,
}

// None wait after an operation that is ill typed; one that is well typed leaves its result. An `Option<Waiting>` misses the bar of
// speed: 211 instructions a pass for 199, at 7 items.
fn ill() -> Waiting
    ensures { (result.depth ≡ 0) × (result.integers ≡ 0) }
{
    Waiting {
        depth: 0,
        integers: 0,
    }
}

impl Waiting {
    // + - * / %
    fn arithmetic(self) -> Waiting
        requires { self.integers < 2 ^ self.depth }
        ensures { Left (join (takes2 Integer Integer)) self.depth self.integers result }
    {
        if self.integers % 4 != 3 {
            return ill();
        }
        Waiting {
            depth: self.depth - 1,
            integers: self.integers / 2,
        }
    }

    // < and <=
    fn order(self) -> Waiting
        requires { self.integers < 2 ^ self.depth }
        ensures { Left (join (takes2 Integer Boolean)) self.depth self.integers result }
    {
        if self.integers % 4 != 3 {
            return ill();
        }
        Waiting {
            depth: self.depth - 1,
            integers: self.integers / 2 - 1,
        }
    }

    // and, or
    fn logic(self) -> Waiting
        requires { self.integers < 2 ^ self.depth }
        ensures { Left (join (takes2 Boolean Boolean)) self.depth self.integers result }
    {
        if self.depth < 2 {
            return ill();
        }
        if self.integers % 4 != 0 {
            return ill();
        }
        Waiting {
            depth: self.depth - 1,
            integers: self.integers / 2,
        }
    }

    // =
    fn equal(self) -> Waiting
        requires { self.integers < 2 ^ self.depth }
        ensures { Left (join alike) self.depth self.integers result }
    {
        if self.integers % 4 == 3 {
            return Waiting {
                depth: self.depth - 1,
                integers: self.integers / 2 - 1,
            };
        }
        if self.depth < 2 {
            return ill();
        }
        if self.integers % 4 != 0 {
            return ill();
        }
        Waiting {
            depth: self.depth - 1,
            integers: self.integers / 2,
        }
    }

    fn negate(self) -> Waiting
        requires { self.integers < 2 ^ self.depth }
        ensures { Left (change (takes1 Integer Integer)) self.depth self.integers result }
    {
        if self.integers % 2 != 1 {
            return ill();
        }
        self
    }

    fn not(self) -> Waiting
        requires { self.integers < 2 ^ self.depth }
        ensures { Left (change (takes1 Boolean Boolean)) self.depth self.integers result }
    {
        if self.integers % 2 != 0 {
            return ill();
        }
        self
    }

    // What the operation of a word leaves.
    pub(crate) fn operated(self, w: u64) -> Waiting
        requires { (w < 13) × (self.integers < 2 ^ self.depth) }
        ensures { Left (kind_step [] (item_of w)) self.depth self.integers result }
    {
        if w < items::ADD {
            if w == items::NEGATE {
                return self.negate();
            }
            if w == items::NOT {
                return self.not();
            }
            if w == 0 {
                return ill();
            }
            return self.logic();
        }
        if w < items::EQUAL {
            return self.arithmetic();
        }
        if w == items::EQUAL {
            return self.equal();
        }
        self.order()
    }
}
