// The posts of a step, a word each: graph * 2^32 + location.
ghost use Rattle.std.specs.Prelude.{◌≡◌, ◌≤◌, length, take};
ghost use Rattle.laws.specs.Below.{all_below};
ghost use Rattle.channel_system.specs.Steps.{own_post, locations_of, few_posts, few_of};

use graph_tables::layout::WORD32;
use graph_tables::sizes;

// One post more than a run ever has processes is enough to be refused.
pub const FEW: usize = sizes::PROCESSES + 1;

// Every post is of graph g.
pub fn own(posts: &[u64], g: u32) -> bool
    ensures { result ≡ all_below (length posts.now) (own_post posts.now g) }
{
    posts.iter().all(|post| *post / WORD32 == g as u64)
}

// How many of n posts are looked at.
#[tactic(auto, unfolding(crate::specs::Steps::few_of))]
pub fn few(n: usize) -> usize
    ensures { result ≡ few_of n }
{
    n.min(FEW)
}

// The locations of the first n.
pub fn locations(posts: &[u64], n: usize, to: &mut [u32])
    requires { (n ≤ length posts.now) × (n ≤ length to.old) }
    ensures { (take n to.new ≡ take n (locations_of posts.now))
        × (length to.new ≡ length to.old) }
{
    for (i, &post) in posts[..n].iter().enumerate() {
        to[i] = (post % WORD32) as u32;
    }
}
