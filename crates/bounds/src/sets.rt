// Holds types as sets (document 02, Paper 12), and answers meets and joins. Where every irreducible type is prime, a type is held as the
// word of the irreducible types below it: the meet of two types is the type with the overlap of their sets, the join the type with the
// union. In other tables the greatest type is held with the empty set, which tells that the bounds stand in cells.
ghost use Rattle.std.specs.Prelude.{◌≡◌, true, false, ℕ, ◌+◌, ◌-◌, ◌<◌, ◌≤◌, length};
ghost use Rattle.lattice.specs.Table.{every, answer};
ghost use Rattle.lattice.specs.Words.{Sided, holder};
ghost use Rattle.bounds.specs.Primes.{word_prime};
ghost use Rattle.bounds.specs.Sets.{set_in, meet_in, join_in, Among, Seekable, Above, Sets};

// The number of words. `sets[a]` is the set of type a; `sets[64 + a]`: candidate types when a set is turned back into a type. Sets and cells are
// lent side by side and not as one struct of two references: each clause would say `bounds.entry.sets.now` for `sets.now`, which is no plainer.
pub const WORDS: usize = 128;

// Holds the types of an order as sets, and answers whether every irreducible type is prime. If one is not, the greatest type gets
// the empty set. For `up`, `sets[64 + a]` gets the types above a if a is irreducible, else 0; for meets, the types below a.
pub fn hold(n: usize, down: &[u64; 64], up: bool, sets: &mut [u64; WORDS]) -> bool
    requires n_nonzero { (0 < n) × (n ≤ 64) × Sided n down.now }
    requires sets_len { length sets.old ≡ 128 }
    ensures value { result ≡ every n (word_prime n down.now) }
    ensures sets { result ≡ true → Sets up n down.now sets.new n }
    ensures n_after { result ≡ false → set_in sets.new (n - 1) ≡ 0 }
{
    let Some(found) = super::primes::find_irreducibles(n, down) else {
        sets[n - 1] = 0;
        return false;
    };
    for a in 0..n {
        sets[a] = down[a] & found.types;
        if up {
            sets[64 + a] = found.above[a];
        } else {
            sets[64 + a] = down[a];
        }
    }
    true
}

// The type whose set is `set`, if there is one. The type is sought among the types of `part`, from both ends in turn, beginning
// with the lowest for `low`.
fn find_set(sets: &[u64; WORDS], set: u64, part: u64, low: bool) -> Option<u8>
    ensures { (n : ℕ) → n ≤ 64 → Among n sets.now set part → result ≡ answer (holder n sets.now set) }
{
    let mut left = part;
    let mut end = low;
    while left != 0 {
        let c = lattice::words::end_bit(left, end);
        if sets[c] == set {
            return Some(c as u8);
        }
        left = lattice::words::cleared(left, c);
        end = !end;
    }
    None
}

// The types above all members of a set.
fn above_all(sets: &[u64; WORDS], set: u64) -> u64
    requires { 0 < set }
    ensures { Above sets.now set result }
{
    let first = lattice::words::end_bit(set, true);
    let mut part = sets[64 + first];
    let mut left = lattice::words::without_lowest(set);
    while left != 0 {
        let j = lattice::words::end_bit(left, true);
        part &= sets[64 + j];
        left = lattice::words::without_lowest(left);
    }
    part
}

// The meet of types a and b, as they are held. `meet_in` has the number of a cell, so 64 stays for none.
pub fn meet<'a>(n: usize, sets: &'a [u64; WORDS], cells: &'a [[u8; 64]], a: usize, b: usize) -> u8
    requires a_lt_n { (a < n) × (b < n) × (n ≤ 64) }
    requires seekable { Seekable false n sets.now cells.now }
    ensures { result ≡ meet_in n sets.now cells.now a b }
{
    if sets[n - 1] == 0 {
        return cells[a][b];
    }
    let set = sets[a] & sets[b];
    if set == sets[a] {
        return a as u8;
    }
    if set == sets[b] {
        return b as u8;
    }
    find_set(sets, set, sets[64 + a] & sets[64 + b], false).unwrap_or(64)
}

// The join of types a and b, as they are held. `join_in` has the number of a cell, so 64 stays for none.
pub fn join<'a>(n: usize, sets: &'a [u64; WORDS], cells: &'a [[u8; 64]], a: usize, b: usize) -> u8
    requires a_lt_n { (a < n) × (b < n) × (n ≤ 64) }
    requires seekable { Seekable true n sets.now cells.now }
    ensures { result ≡ join_in n sets.now cells.now a b }
{
    if sets[n - 1] == 0 {
        return cells[a][b];
    }
    let set = sets[a] | sets[b];
    if set == sets[a] {
        return a as u8;
    }
    if set == sets[b] {
        return b as u8;
    }
    find_set(sets, set, above_all(sets, set), true).unwrap_or(64)
}
