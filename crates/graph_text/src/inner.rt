// For the crates above: what a line is taken by with a closure, which has to be one that can be called.
ghost use Rattle.std.specs.Prelude.{◌≡◌, ◌≤◌};
ghost use Rattle.graph_text.specs.Lines.{token_at};
ghost use Rattle.text.specs.Tokens.{next_of};

use crate::faults::Fault;
use crate::lines::Line;
use text::inner::read_list;
use text::lists::List;

impl<'a> Line<'a> {
    // Takes what a token reads as.
    pub fn read<T, R: FnOnce(&[u8]) -> Option<T>>(&mut self, read: R) -> Result<T, Fault>
        requires { R.IsAlwaysCallable read }
        ensures after { self.new.at ≡ next_of self.old.bytes.now self.old.at }
        ensures line { self.new.bytes ≡ self.old.bytes }
    {
        read(self.next()).ok_or(Fault::Bad)
    }

    // Takes the items of a list, as far as they are read.
    pub fn list<T: Copy, const N: usize, R: Fn(&[u8]) -> Option<T>>(
        &mut self,
        blank: T,
        read: R,
    ) -> List<T, N>
        requires { R.IsAlwaysCallable read }
        ensures after { self.new.at ≡ result.next }
        ensures line { self.new.bytes ≡ self.old.bytes }
        ensures room { result.count ≤ N }
    {
        let list = read_list(self.bytes, self.at, blank, read);
        self.at = list.next;
        list
    }

    // Takes a list in parentheses.
    pub fn group<T: Copy, const N: usize, R: Fn(&[u8]) -> Option<T>>(
        &mut self,
        blank: T,
        read: R,
    ) -> Result<List<T, N>, Fault>
        requires { R.IsAlwaysCallable read }
    {
        self.word(b"(")?;
        let list = self.list(blank, read);
        self.word(b")")?;
        Ok(list)
    }
}
