// Tests a table for refusals 1 and 2: whether its size is right, and whether its rows are an order in which 0 is the least type and
// n - 1 the greatest.
ghost use Rattle.std.specs.Prelude.{◌≡◌, ◌<◌, ◌≤◌};
ghost use Rattle.lattice.specs.Table.{every, sized};
ghost use Rattle.lattice.specs.Words.{row_inside, row_set, row_ordered, Owned, CoversOf};

// Whether n is 2 to 64 and the table has 8 bytes for each type.
pub fn is_sized(n: usize, table: &[u8]) -> bool
    ensures { result ≡ sized n table.now }
{
    if n < 2 {
        return false;
    }
    if 64 < n {
        return false;
    }
    table.len() == 8 * n
}

// Whether a row lies inside `all` and has bit i and bit 0.
fn is_row_inside(all: u64, row: u64, i: usize) -> bool
    requires { i < 64 }
    ensures { result ≡ row_inside all row i }
{
    if row & all != row {
        return false;
    }
    if !lattice::words::has_bit(row, i) {
        return false;
    }
    lattice::words::has_bit(row, 0)
}

// Whether each row i has no bit at n or above, its own bit and bit 0, and row n - 1 has bit i. It is enough that row n - 1 has no bit at
// n or above and that every row lies inside row n - 1 and has its own bit and bit 0.
pub fn are_rows_set(n: usize, down: &[u64; 64]) -> bool
    requires { n ≤ 64 }
    ensures { result ≡ every n (row_set n down.now) }
{
    if n == 0 {
        return true;
    }
    let all = down[n - 1];
    if 1 < all >> (n - 1) {
        return false;
    }
    for (i, row) in down[..n].iter().enumerate() {
        if !is_row_inside(all, *row, i) {
            return false;
        }
    }
    true
}

// The types that type i covers, or none if a pair of i is not ordered. Of the types strictly below i the loop takes the highest numbered, puts aside all types below that one, and
// so on. It drops a taken type that lies below a later one, as in a table that is not numbered along its order. It ends at a taken type
// with a type below it that is not strictly below i. Where no row ends so, all pairs are ordered.
pub fn covers_of(n: usize, down: &[u64; 64], i: usize) -> Option<u64>
    requires { (i < n) × (n ≤ 64) × Owned n down.now }
    ensures { CoversOf n down.now i result }
{
    let row = down[i];
    let lower = lattice::words::cleared(row, i);
    let mut left = lower;
    let mut word = 0u64;
    while left != 0 {
        let c = lattice::words::end_bit(left, false);
        let below = down[c];
        if below & lower != below {
            return None;
        }
        word = lattice::words::without(word, below) | (1u64 << c);
        left = lattice::words::without(left, below);
    }
    Some(word)
}

// Whether the rows pass all the tests of refusal 2.
pub fn is_ordered(n: usize, down: &[u64; 64]) -> bool
    requires { n ≤ 64 }
    ensures { result ≡ every n (row_ordered n down.now) }
{
    if !are_rows_set(n, down) {
        return false;
    }
    for i in 0..n {
        if covers_of(n, down, i).is_none() {
            return false;
        }
    }
    true
}
