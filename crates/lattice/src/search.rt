// Searches the words of one side of an order for the type that has a given word. Meets, joins and wanted types are found so.
ghost use Rattle.std.specs.Prelude.{◌≡◌, ℕ, ◌≤◌};
ghost use Rattle.lattice.specs.Table.{answer};
ghost use Rattle.lattice.specs.Words.{holder, Sided, Inside, Seeking};

// The type whose word is `word`, if there is one. A type has its own bit in its word, so it is sought among the set bits,
// beginning with the lowest for `low`, else with the highest.
pub fn find_word(words: &[u64; 64], word: u64, low: bool) -> Option<u8>
    ensures { (n : ℕ) → n ≤ 64 → Sided n words.now → Inside n word → result ≡ answer (holder n words.now word) }
{
    if word == 0 {
        return None;
    }
    let c = super::words::end_bit(word, low);
    if words[c] == word {
        return Some(c as u8);
    }
    let others = super::words::cleared(word, c);
    let left = super::words::without(others, words[c]);
    find_among(words, word, left, !low)
}

// The type whose word is `word`, if there is one, sought among the bits of a part from both ends in turn. This search serves
// tables that are not numbered along the order. A type with another word is put aside with all types on its side.
fn find_among(words: &[u64; 64], word: u64, part: u64, low: bool) -> Option<u8>
    requires { Seeking words.now word part }
    ensures { (n : ℕ) → n ≤ 64 → Sided n words.now → Inside n word → result ≡ answer (holder n words.now word) }
{
    let mut left = part;
    let mut end = low;
    while left != 0 {
        let c = super::words::end_bit(left, end);
        if words[c] == word {
            return Some(c as u8);
        }
        let others = super::words::cleared(left, c);
        left = super::words::without(others, words[c]);
        end = !end;
    }
    None
}
