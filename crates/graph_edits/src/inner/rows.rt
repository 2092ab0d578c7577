// Rows of a table, over any width.
ghost use Rattle.std.specs.Prelude.{◌≡◌, ◌+◌, ◌*◌, ◌≤◌, length};
ghost use Rattle.graph_edits.specs.Rows.{number_at, place_of, gap_of, pasted_at};

// The first of n rows of w words whose number is above k.
#[tactic(auto, using(crate::proofs::RowLaws::place_next))]
pub(crate) fn place(t: &[u64], base: usize, w: usize, n: usize, k: u64) -> usize
    requires { (1 ≤ w) × (base + w * n ≤ length t.now) }
    ensures value { result ≡ place_of (number_at t.now base w) n k }
    ensures upper_bound { result ≤ n }
{
    // As `(0..n).position(|i| k < t[base + w * i])` a reset more takes a third more instructions; by `chunks_exact(w)` a location 3 % more.
    let mut at = base;
    for i in 0..n {
        if k < t[at] {
            return i;
        }
        at += w;
    }
    n
}

// The words from lo to hi moved up by w.
pub(crate) fn open_gap(t: &mut [u64], lo: usize, hi: usize, w: usize)
    requires { (lo ≤ hi) × (hi + w ≤ length t.old) }
    ensures { t.new ≡ gap_of t.old lo hi w }
{
    t.copy_within(lo..hi, lo + w);
}

pub(crate) fn write_words(t: &mut [u64], at: usize, row: &[u64])
    requires { at + length row.now ≤ length t.old }
    ensures { t.new ≡ pasted_at t.old at row.now }
{
    // (`copy_from_slice` makes the archive for C need `memmove`.)
    for k in 0..row.len() {
        t[at + k] = row[k];
    }
}
