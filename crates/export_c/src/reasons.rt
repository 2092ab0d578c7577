// Why a plain step answered 8.
ghost use Rattle.std.specs.Prelude.{◌≡◌};
ghost use Rattle.explainer.specs.Layout.{all_guards, all_limits};
ghost use Rattle.explainer.specs.Why.{found_of};
ghost use Rattle.c_words.specs.Given.{reading, Tells};
ghost use Rattle.export.specs.Findings.{cause_words, cause_told};

#[unsafe(no_mangle)]
pub extern "C" fn njn_cause_words() -> usize
    ensures { result ≡ cause_words }
{
    export::reasons::njn_cause_words()
}

// The two tables that are lent.
#[unsafe(no_mangle)]
pub extern "C" fn njn_guards_words() -> usize
    ensures { result ≡ all_guards }
{
    export::reasons::njn_guards_words()
}

#[unsafe(no_mangle)]
pub extern "C" fn njn_limits_words() -> usize
    ensures { result ≡ all_limits }
{
    export::reasons::njn_limits_words()
}

// The part that fails is told by its place: a caller has the table that it lent.
#[unsafe(no_mangle)]
pub extern "C" fn njn_state_why(
    t: &[u64],
    s: &[u64],
    guards: &[u64],
    limits: &[u64],
    pg: u32,
    owner: u32,
    action: u32,
    posts: &[u64],
    word: u64,
    out: &mut [u64],
) -> u32
    ensures { Tells result out.new (reading cause_words out.old (cause_told (found_of t.now s.now
        guards.now limits.now pg owner action posts.now word))) }
{
    export::reasons::njn_state_why(t, s, guards, limits, pg, owner, action, posts, word, out)
}
