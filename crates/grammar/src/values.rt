// Values: booleans and signed 32-bit integers.
ghost use Rattle.std.specs.Prelude.{◌≡◌};
ghost use Rattle.grammar.specs.Values.{kind_of, same_val, kind_word};

#[derive(Clone, Copy, Debug, PartialEq, Eq)]
pub enum Type {
    Boolean,
    Integer,
}

#[derive(Clone, Copy, Debug, PartialEq, Eq)]
pub enum Val {
    Boolean(bool),
    Integer(i32),
}

// A value in an array. It stays a struct: `evaluate`, which is public, takes `[Slot; 16]`.
#[derive(Clone, Copy, Debug, PartialEq, Eq)]
pub struct Slot {
    pub value: Val,
}

// The kinds, as the words of a table have them.
pub const BOOLEAN: u64 = 0;

pub const INTEGER: u64 = 1;

impl Type {
    // The word of a kind. `From` is no plainer: `k.word()` says which number it is, `u64::from(k)` does not. So it is with an item's.
    pub fn word(self) -> u64
        ensures { result ≡ kind_word self }
    {
        match self {
            Type::Boolean => BOOLEAN,
            Type::Integer => INTEGER,
        }
    }
}

impl Val {
    // The kind of the value.
    pub fn kind(self) -> Type
        ensures { result ≡ kind_of self }
    {
        match self {
            Val::Boolean(_) => Type::Boolean,
            Val::Integer(_) => Type::Integer,
        }
    }

    // Equal in kind and in value.
    pub fn equals(self, other: Val) -> bool
        ensures { result ≡ same_val self other }
    {
        self == other
    }
}
