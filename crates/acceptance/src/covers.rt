// Tests whether every two types of an order have a meet. It is enough to test every two types that one type covers.
ghost use Rattle.std.specs.Prelude.{◌≡◌, ℕ, ◌<◌, ◌≤◌};
ghost use Rattle.lattice.specs.Words.{all_found, word_bound, Sided, Inside, Lower, BoundsWith, BoundsWithin};

// Whether type a has a meet with every type of a word.
fn is_bounded_with(down: &[u64; 64], a: usize, word: u64) -> bool
    requires { a < 64 }
    ensures { (n : ℕ) → a < n → n ≤ 64 → Sided n down.now → Inside n word → BoundsWith n down.now a word result }
{
    let mut left = word;
    while left != 0 {
        let b = lattice::words::end_bit(left, true);
        if lattice::search::find_word(down, down[a] & down[b], false).is_none() {
            return false;
        }
        left = lattice::words::without_lowest(left);
    }
    true
}

// Whether every two types of a word have a meet; each pair is tested once.
pub fn are_bounded_within(down: &[u64; 64], word: u64) -> bool
    ensures { (n : ℕ) → n ≤ 64 → Sided n down.now → Inside n word → BoundsWithin n down.now word result }
{
    let mut left = word;
    while left != 0 {
        let a = lattice::words::end_bit(left, true);
        left = lattice::words::without_lowest(left);
        if !is_bounded_with(down, a, left) {
            return false;
        }
    }
    true
}

// Whether every two types have a meet.
pub fn are_bounded(n: usize, down: &[u64; 64]) -> bool
    requires { (n ≤ 64) × Lower n down.now }
    ensures { result ≡ all_found n (word_bound n down.now) }
{
    for i in 0..n {
        let Some(word) = super::order::covers_of(n, down, i) else {
            return false;
        };
        if !are_bounded_within(down, word) {
            return false;
        }
    }
    true
}
