// What a line is answered, written into lent bytes; what has no room is left out.
ghost use Rattle.std.specs.Prelude.{◌≡◌, [], ◌∷◌, take};
ghost use Rattle.text.specs.Writing.{Put, number_text, integer_text, value_text, bound_text};

use crate::faults::Fault;
use grammar::values::{Slot, Type, Val};
use graph_tables::ids::Action;
use text::{answers, output, rows};
use time::Bound;

// The bytes, and how many are written.
#[derive(Drop)]
pub struct Reply<'a> {
    pub out: &'a mut [u8],
    pub length: usize,
}

impl<'a> Reply<'a> {
    // Nothing of it is written.
    pub fn new(out: &'a mut [u8]) -> Reply<'a>
        ensures bytes { result.out.now ≡ out.old }
        ensures start { result.length ≡ 0 }
        ensures same_reference { result.out.ghost_name ≡ out.entry.ghost_name }
    {
        Reply { out, length: 0 }
    }

    // Whatever is written is given up: an answer begins.
    pub fn begin(&mut self)
        ensures start { self.new.length ≡ 0 }
        ensures bytes { self.new.out.now ≡ self.old.out.now }
        ensures same_reference { self.new.out.ghost_name ≡ self.old.out.ghost_name }
    {
        self.length = 0;
    }

    // What is written.
    pub fn written(&self) -> &[u8]
        ensures { result.now ≡ take self.now.length self.now.out.now }
    {
        rows::part(self.out, self.length)
    }

    pub fn put(&mut self, byte: u8)
        ensures put { Put self.old.out.now self.old.length (byte ∷ []) self.new.out.now self.new.length }
        ensures same_reference { self.new.out.ghost_name ≡ self.old.out.ghost_name }
    {
        self.length = output::put(self.out, self.length, byte);
    }

    pub fn put_all(&mut self, bytes: &[u8])
        ensures put { Put self.old.out.now self.old.length bytes.now self.new.out.now self.new.length }
        ensures same_reference { self.new.out.ghost_name ≡ self.old.out.ghost_name }
    {
        self.length = output::put_all(self.out, self.length, bytes);
    }

    pub fn put_number(&mut self, n: u64)
        ensures put { Put self.old.out.now self.old.length (number_text n) self.new.out.now self.new.length }
        ensures same_reference { self.new.out.ghost_name ≡ self.old.out.ghost_name }
    {
        self.length = output::put_number(self.out, self.length, n);
    }

    pub fn put_integer(&mut self, n: i32)
        ensures put { Put self.old.out.now self.old.length (integer_text n) self.new.out.now self.new.length }
        ensures same_reference { self.new.out.ghost_name ≡ self.old.out.ghost_name }
    {
        self.length = output::put_integer(self.out, self.length, n);
    }

    pub fn put_value(&mut self, value: Val)
        ensures put { Put self.old.out.now self.old.length (value_text value) self.new.out.now self.new.length }
        ensures same_reference { self.new.out.ghost_name ≡ self.old.out.ghost_name }
    {
        self.length = output::put_value(self.out, self.length, value);
    }

    pub fn put_bound(&mut self, bound: Bound)
        ensures put { Put self.old.out.now self.old.length (bound_text bound) self.new.out.now self.new.length }
        ensures same_reference { self.new.out.ghost_name ≡ self.old.out.ghost_name }
    {
        self.length = output::put_bound(self.out, self.length, bound);
    }

    // An action's number, or `e` for EPSILON.
    pub fn put_action(&mut self, action: Action) {
        if action.0 == Action::EPSILON.0 {
            return self.put(b'e');
        }
        self.put_number(u64::from(action.0));
    }

    // A number, a blank before it.
    pub fn put_next_number(&mut self, n: u32) {
        self.put(b' ');
        self.put_number(u64::from(n));
    }

    // The first numbers, a blank before each.
    pub fn put_numbers(&mut self, numbers: &[u32], count: usize) {
        for &n in rows::part(numbers, count) {
            self.put_next_number(n);
        }
    }

    // A value, a blank before it.
    pub fn put_next_value(&mut self, value: Val) {
        self.put(b' ');
        self.put_value(value);
    }

    // The first values, a blank before each.
    pub fn put_values(&mut self, slots: &[Slot], count: usize) {
        for slot in rows::part(slots, count) {
            self.put_next_value(slot.value);
        }
    }

    // The line's end.
    pub fn end(&mut self) {
        self.put(b'\n');
    }

    pub fn ok(&mut self) {
        self.length = answers::ok(self.out);
    }

    pub fn ok_number(&mut self, n: u32) {
        self.ok_wide(u64::from(n));
    }

    pub fn ok_wide(&mut self, n: u64) {
        self.length = answers::ok_number(self.out, n);
    }

    pub fn ok_value(&mut self, value: Val) {
        self.begin();
        self.put_all(b"ok");
        self.put_next_value(value);
        self.end();
    }

    pub fn yes_or_no(&mut self, yes: bool) {
        self.length = answers::yes_or_no(self.out, yes);
    }

    pub fn kind(&mut self, kind: Type) {
        self.begin();
        match kind {
            Type::Boolean => self.put_all(b"ok b\n"),
            Type::Integer => self.put_all(b"ok i\n"),
        }
    }

    // A refusal by its number.
    pub fn refused(&mut self, number: u32) {
        self.length = answers::refused(self.out, number);
    }

    // Why there is no answer, if there is none.
    pub fn tell(&mut self, told: Result<(), Fault>) {
        match told {
            Ok(()) => (),
            Err(Fault::Bad) => self.length = answers::bad(self.out),
            Err(Fault::Refused(r)) => self.refused(r.number()),
        }
    }
}
