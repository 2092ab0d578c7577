// The graphs of a system, each on its own part of the table.
ghost use Rattle.std.specs.Prelude.{◌≡◌, ℕ, List, ◌≤◌, ◌<◌};
ghost use Rattle.std.specs.Fn.{FnOnceReturnsAtMut};
ghost use Rattle.laws.specs.Below.{all_below};
ghost use Rattle.system_tables.specs.Sizes.{graph_room};
ghost use Rattle.system_tables.specs.Words.{SystemWords, graph_part, with_graph};
ghost use Rattle.graph_tables.specs.Sizes.{action_room};
ghost use Rattle.system_builder.specs.Systems.{started, with_no_parts};
ghost use Rattle.graph_edits.specs.Edits.{chosen};
ghost use Rattle.system_builder.specs.Graphs.{told};
ghost use Rattle.system_builder.specs.Messages.{send_part, receive_part};

use graph_tables::answers::Answer;
use graph_tables::handed::Vars;
use graph_tables::{inner, sizes};
use system_tables::ids::Communication;
use system_tables::inner::{words, writers};

// A call that is lent the words of graph g.
pub(crate) fn on_part<R, F: FnOnce(&mut [u64]) -> R>(t: &mut [u64], g: usize, call: F) -> R
    requires words { SystemWords t.old × (g < graph_room) }
    requires callable { F.IsAlwaysCallable call }
    ensures { (G : List ℕ) × FnOnceReturnsAtMut F.FnOnce call (graph_part t.old g) result G × (t.new ≡ with_graph t.old g G) }
{
    let a = words::graph_start(g);
    call(&mut t[a..a + sizes::WORDS])
}

// The words of a graph without parts.
pub fn clear_graph(t: &mut [u64], g: usize)
    requires { SystemWords t.old × (g < graph_room) }
    ensures { t.new ≡ with_no_parts t.old g }
{
    let _done = on_part(t, g, |graph| graph_builder::new(graph));
}

// Whether a graph has a process.
#[tactic(auto, unfolding(crate::specs::Systems::started))]
fn is_started(t: &[u64], g: usize) -> bool
    requires { SystemWords t.now × (g < graph_room) }
    ensures { result ≡ started t.now g }
{
    0 < inner::process_count(words::graph_at(t, g))
}

// Whether each of the first n graphs has one.
pub fn all_started(t: &[u64], n: usize) -> bool
    requires { SystemWords t.now × (n ≤ graph_room) }
    ensures { result ≡ all_below n (started t.now) }
{
    (0..n).all(|g| is_started(t, g))
}

// The communication of an action that was added; a refusal has none.
pub fn tell(t: &mut [u64], g: usize, placed: Answer<u32>, c: Communication)
    requires { (a : ℕ) → placed ≡ Ok a → SystemWords t.old × (g < graph_room) × (a < action_room) }
    ensures { t.new ≡ told g c placed t.old }
{
    if let Ok(a) = placed {
        writers::set_communication(t, g, a as usize, c);
    }
}

// A send, in the graph alone.
pub fn send_on<'a>(
    t: &mut [u64],
    g: usize,
    count: usize,
    w: &'a [u64],
    x: &'a [u64],
    y: &'a [u64],
    z: &'a [u64],
) -> Answer<u32>
    requires { SystemWords t.old × (g < graph_room) }
    ensures { (result ≡ (send_part t.old g (chosen w.now x.now y.now z.now) count).answer) × (t.new ≡ (send_part t.old g (chosen w.now x.now y.now z.now) count).table) }
{
    on_part(
        t,
        g,
        |graph| graph_builder::new_send(graph, count, w, x, y, z),
    )
}

// A receive, in the graph alone.
pub fn receive_on(t: &mut [u64], g: usize, vars: Vars) -> Answer<u32>
    requires { SystemWords t.old × (g < graph_room) }
    ensures { (result ≡ (receive_part t.old g vars).answer) × (t.new ≡ (receive_part t.old g vars).table) }
{
    on_part(t, g, |graph| graph_builder::new_receive(graph, vars))
}
