// For the crates above: what takes a closure, and asks that it can be called.
ghost use Rattle.std.specs.Prelude.{◌≤◌};

use crate::lists::List;
use crate::tokens;

// The items from a place on, as many as there is room for. (How many there are is answered, so the loop counts them.)
pub fn read_list<T: Copy, const N: usize, R: Fn(&[u8]) -> Option<T>>(
    line: &[u8],
    at: usize,
    blank: T,
    read: R,
) -> List<T, N>
    requires { R.IsAlwaysCallable read }
    ensures { result.count ≤ N }
{
    let mut items = [blank; N];
    let mut next = at;
    for count in 0..N {
        let Some(item) = read(tokens::token(line, next)) else {
            return List { items, count, next };
        };
        items[count] = item;
        next = tokens::next(line, next);
    }
    List {
        items,
        count: N,
        next,
    }
}
