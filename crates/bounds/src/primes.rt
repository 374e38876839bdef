// Finds the irreducible types of an order, and whether all of them are prime. If they are, an accepted table is distributive and
// admits differences.
ghost use Rattle.std.specs.Prelude.{◌≡◌, ◌+◌, ◌<◌, ◌≤◌};
ghost use Rattle.lattice.specs.Words.{Sided};
ghost use Rattle.bounds.specs.Primes.{word_irreducible, word_splits, Finds};

// Whether type j is irreducible: the types strictly below it are those below one type.
fn is_irreducible(n: usize, down: &[u64; 64], j: usize) -> bool
    requires { (j < n) × (n ≤ 64) × Sided n down.now }
    ensures { result ≡ word_irreducible n down.now j }
{
    let lower = lattice::words::cleared(down[j], j);
    lattice::search::find_word(down, lower, false).is_some()
}

// Whether an irreducible type is prime, from the word of the types above it: the types not above it are those below one type.
fn is_prime(n: usize, down: &[u64; 64], above: u64) -> bool
    requires { (0 < n) × (n ≤ 64) × Sided n down.now }
    ensures { result ≡ word_splits n down.now above }
{
    let others = lattice::words::without(down[n - 1], above);
    lattice::search::find_word(down, others, false).is_some()
}

// The irreducible types of an order: `types` is their word, and `above[j]` is the word of the types above the irreducible type j.
#[derive(Clone, Copy)]
pub struct Irreducibles {
    pub types: u64,
    pub above: [u64; 64],
}

// Finds the irreducible ones of the n types, if all of them are prime. The search stops at the first that is not.
pub fn find_irreducibles(n: usize, down: &[u64; 64]) -> Option<Irreducibles>
    requires { (n ≤ 64) × Sided n down.now }
    ensures { Finds n down.now result }
{
    let mut types = 0u64;
    let mut above = [0u64; 64];
    for j in 0..n {
        let stands = is_irreducible(n, down, j);
        if stands {
            let up = lattice::words::turn_word(n, down, j);
            if !is_prime(n, down, up) {
                return None;
            }
            above[j] = up;
        }
        types = lattice::words::with_bit(types, j, stands);
    }
    Some(Irreducibles { types, above })
}
