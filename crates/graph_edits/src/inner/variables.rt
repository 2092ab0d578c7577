// A variable more, and a clock more.
ghost use Rattle.std.specs.Prelude.{◌≡◌, ◌<◌};
ghost use Rattle.graph_tables.specs.Sizes.{variable_room, clock_room};
ghost use Rattle.graph_tables.specs.Words.{Words, variable_count, clock_count};
ghost use Rattle.graph_edits.specs.Edits.{with_var, with_clock};

use graph_tables::inner;
use graph_tables::inner::writers;

// A variable of this kind, with a value at the start.
pub fn put_var(t: &mut [u64], kind: u64, value: u64)
    requires { Words t.old × (variable_count t.old < variable_room) }
    ensures { t.new ≡ with_var t.old kind value }
{
    let n = inner::variable_count(t);
    writers::set_kind(t, n, kind);
    writers::set_value(t, n, value);
    writers::set_variable_count(t, n + 1);
}

pub fn put_clock(t: &mut [u64])
    requires { Words t.old × (clock_count t.old < clock_room) }
    ensures { t.new ≡ with_clock t.old }
{
    let n = inner::clock_count(t);
    writers::set_clock_count(t, n + 1);
}
