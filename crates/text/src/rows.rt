// Parts of rows.
ghost use Rattle.std.specs.Prelude.{◌≡◌, take};

// The first items of a row, as many as it has of them.
pub fn part<T>(row: &[T], n: usize) -> &[T]
    ensures { result.now ≡ take n row.now }
{
    row.get(..n).unwrap_or(row)
}
