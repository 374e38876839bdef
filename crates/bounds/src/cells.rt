// Fills the table of meets or of joins from the words of one side of an order: the bound of a and b is the type whose word has the bits
// that their words share.
ghost use Rattle.std.specs.Prelude.{◌≡◌, ℕ, ◌+◌, ◌<◌, ◌≤◌, [], get_or, leb};
ghost use Rattle.lattice.specs.Table.{every, implies, found as foundOf, answer, bound_row, overwrite};
ghost use Rattle.lattice.specs.Words.{word_bound, all_found, Sided};
ghost use Rattle.bounds.specs.Cells.{Columns};

// The bound of types a and b, if there is one. Fast paths: the end bit's type, a, or b.
fn bound(words: &[u64; 64], low: bool, a: usize, b: usize) -> Option<u8>
    requires { (a < 64) × (b < 64) }
    ensures { (n : ℕ) → n ≤ 64 → Sided n words.now → a < n → b < n → result ≡ answer (word_bound n words.now a b) }
{
    let word = words[a] & words[b];
    if word == 0 {
        return None;
    }
    let c = lattice::words::end_bit(word, low);
    if words[c] == word {
        return Some(c as u8);
    }
    if words[a] == word {
        return Some(a as u8);
    }
    if words[b] == word {
        return Some(b as u8);
    }
    lattice::search::find_word(words, word, low)
}

// Writes the bounds of type a with the types from a on into row a and into column a, and answers whether all were found.
// A cell holds a type, or 64 for none: 4,096 cells are one byte each in the memory that the caller lends.
fn bound_row(n: usize, words: &[u64; 64], low: bool, a: usize, rows: &mut [[u8; 64]; 64]) -> bool
    requires { (a < n) × (n ≤ 64) × Sided n words.now × Columns n words.now rows.old a }
    ensures found { result ≡ every n (λ b. implies (leb a b) (foundOf (word_bound n words.now a b))) }
    ensures row { get_or rows.new a [] ≡ bound_row n (word_bound n words.now) a }
    ensures columns { Columns n words.now rows.new (a + 1) }
{
    let mut found = true;
    for b in a..n {
        let c = bound(words, low, a, b);
        if c.is_none() {
            found = false;
        }
        let cell = c.unwrap_or(64);
        rows[a][b] = cell;
        rows[b][a] = cell;
    }
    found
}

// Fills the first n rows of the table, and answers whether every two types have a bound. The bound of each pair is sought once.
pub fn fill(n: usize, words: &[u64; 64], low: bool, table: &mut [[u8; 64]; 64]) -> bool
    requires { (n ≤ 64) × Sided n words.now }
    ensures all { result ≡ all_found n (word_bound n words.now) }
    ensures rows { table.new ≡ overwrite n (bound_row n (word_bound n words.now)) table.old }
{
    let mut rows = [[0u8; 64]; 64];
    let mut found = true;
    for a in 0..n {
        if !bound_row(n, words, low, a, &mut rows) {
            found = false;
        }
        let cells = rows[a];
        table[a] = cells;
    }
    found
}
