// Limits, in the order of their clocks.
ghost use Rattle.std.specs.Prelude.{◌≡◌, ◌≤◌, ◌<◌};
ghost use Rattle.graph_tables.specs.Sizes.{limit_room, group_room};
ghost use Rattle.graph_tables.specs.Words.{Words};
ghost use Rattle.graph_edits.specs.Edits.{limit_place, with_limit, with_limits};

use crate::inner::rows;
use graph_tables::handed::Limits;
use graph_tables::inner::{places, writers};
use graph_tables::{inner, layout};
use time::TimeRange;

fn limit_place(t: &[u64], g: usize, n: usize, clock: u64) -> usize
    requires { Words t.now × (g < group_room) × (n ≤ limit_room) }
    ensures value { result ≡ limit_place t.now g n clock }
    ensures upper_bound { result ≤ n }
{
    rows::place(t, places::group_start(g), layout::LIMIT_WIDTH, n, clock)
}

// A limit more in a group that has n.
#[tactic(auto, unfolding(crate::specs::Edits::with_limit))]
fn put_limit(t: &mut [u64], g: usize, n: usize, clock: u32, range: TimeRange)
    requires { Words t.old × (g < group_room) × (n < limit_room) }
    ensures { t.new ≡ with_limit t.old g n clock range }
{
    let low = range.lower;
    let high = range.upper;
    let lower = inner::bound_word(low);
    let upper = inner::bound_word(high);
    let p = limit_place(t, g, n, clock as u64);
    rows::open_gap(
        t,
        places::limit_row(g, p),
        places::limit_row(g, n),
        layout::LIMIT_WIDTH,
    );
    writers::set_clock(t, g, p, clock as usize);
    writers::set_lower(t, g, p, lower);
    writers::set_upper(t, g, p, upper);
}

// The handed limits in an empty group.
#[tactic(auto, unfolding(crate::specs::Edits::with_limits))]
pub(crate) fn put_limits(t: &mut [u64], g: usize, handed: Limits)
    requires { Words t.old × (g < group_room) × (handed.count ≤ limit_room) }
    ensures { t.new ≡ with_limits t.old g handed handed.count }
{
    for (n, limit) in handed.limits[..handed.count].iter().enumerate() {
        put_limit(t, g, n, limit.clock.0, limit.range);
    }
}
