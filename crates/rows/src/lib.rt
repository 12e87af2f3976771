// Rows of fixed width in flat slices: the code that every table shares.
//
// A slice comes with the place to go on from, since what is promised speaks of the whole slice. Rows are gone through by their
// index, as `numbers_at` goes: an iterator in steps of w would need a law of its own.
#![tactic(auto)]

ghost use Rattle.std.specs.Prelude.{◌≡◌, ◌+◌, ◌*◌, ◌≤◌, ◌<◌, length};
ghost use Rattle.rows.specs.Table.{rising};
ghost use Rattle.rows.specs.Rows.{cut, pasted, moved, numbers_at, index_of};

// A number as an index.
pub fn index(x: u64) -> usize
    ensures { result ≡ x }
{
    x as usize
}

// Writes row into t from index at.
pub fn put<T: Copy>(t: &mut [T], at: usize, row: &[T])
    requires { at + length row.now ≤ length t.old }
    ensures { t.new ≡ pasted t.old at row.now (length row.now) }
{
    t[at..at + row.len()].copy_from_slice(row);
}

// Reads as many numbers as out has, from index at.
pub fn get(t: &[u64], at: usize, out: &mut [u64])
    requires { at + length out.old ≤ length t.now }
    ensures { out.new ≡ cut t.now at (length out.old) }
{
    let e = at + out.len();
    put(out, 0, &t[at..e]);
}

// Moves the n elements at from down to to.
pub fn shift<T: Copy>(t: &mut [T], to: usize, from: usize, n: usize)
    requires { (to ≤ from) × (from + n ≤ length t.old) }
    ensures { t.new ≡ moved t.old to from n }
{
    for j in 0..n {
        t[to + j] = t[from + j];
    }
}

// The index of the first of n rows whose number is x, or n.
pub fn find(t: &[u64], base: usize, w: usize, n: usize, x: u64) -> usize
    requires { (0 < w) × (base + n * w ≤ length t.now) }
    ensures { result ≡ index_of x (numbers_at t.now w n base) }
{
    for i in 0..n {
        if t[base + i * w] == x {
            return i;
        }
    }
    n
}

// Whether the numbers of n rows rise strictly and are below next.
pub fn rising(t: &[u64], base: usize, w: usize, n: usize, next: u64) -> bool
    requires { (0 < w) × (base + n * w ≤ length t.now) }
    ensures { result ≡ rising (λ x. x) 0 next (numbers_at t.now w n base) }
{
    let mut low = 0;
    for i in 0..n {
        let x = t[base + i * w];
        if x < low || next <= x {
            return false;
        }
        low = x + 1;
    }
    true
}
