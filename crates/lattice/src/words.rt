// Reads the bits of a table and makes words of them: bit j of word i is set where type j is on one side of type i, below it or above
// it. The operations on words stand here too.
ghost use Rattle.std.specs.Prelude.{◌≡◌, true, false, ℕ, ◌+◌, ◌*◌, ◌^◌, ◌<◌, ◌≤◌, length, get_or};
ghost use Rattle.std.specs.Int.Count.{count_trailing_zeros};
ghost use Rattle.lattice.specs.Table.{below};
ghost use Rattle.lattice.specs.Words.{digit, word, related, Words, bit, without as withoutOf, turned, Spread};

// Whether the table's bit says that type j is below or equal to type i. Past the end of the table no bit is set.
pub fn is_below(table: &[u8], j: usize, i: usize) -> bool
    requires { (j < 64) × (i < 64) }
    ensures { result ≡ below table.now j i }
{
    let at = 8 * i + j / 8;
    if at < table.len() {
        (table[at] >> (j % 8)) % 2 == 1
    } else {
        false
    }
}

// Whether bit j of a word is set.
pub fn has_bit(word: u64, j: usize) -> bool
    requires { j < 64 }
    ensures { result ≡ bit word j }
{
    (word >> j) % 2 == 1
}

// The bits of a word that are not set in another.
pub fn without(word: u64, other: u64) -> u64
    ensures { result ≡ withoutOf word other }
{
    word ^ (word & other)
}

// The word with bit j cleared.
pub fn cleared(word: u64, j: usize) -> u64
    requires { j < 64 }
    ensures { result ≡ withoutOf word (2 ^ j) }
{
    without(word, 1u64 << j)
}

// The word with its lowest bit cleared.
pub fn without_lowest(word: u64) -> u64
    requires { 0 < word }
    ensures { result ≡ withoutOf word (2 ^ count_trailing_zeros 64 word) }
{
    word & (word - 1)
}

// A set bit: the lowest for `low`, else the highest.
pub fn end_bit(word: u64, low: bool) -> usize
    requires { 0 < word }
    ensures { (result < 64) × (bit word result ≡ true) × (low ≡ true → result ≡ count_trailing_zeros 64 word) }
{
    if low {
        u64::trailing_zeros(word) as usize
    } else {
        (63 - u64::leading_zeros(word)) as usize
    }
}

// The word with bit j set if `stands`. Bit j is above all bits that the word has.
pub fn with_bit(word: u64, j: usize, stands: bool) -> u64
    requires { (j < 64) × (word < 2 ^ j) }
    ensures { result ≡ digit stands * 2 ^ j + word }
{
    word + ((stands as u64) << j)
}

// The word of a row, from at most eight bytes. Bytes that are missing count as 0.
fn read_row(row: &[u8]) -> u64
    requires { length row.now ≤ 8 }
    ensures { result ≡ word 64 (related row.now false 0) }
{
    let mut word = 0u64;
    for (k, byte) in row.iter().enumerate() {
        word += (*byte as u64) << (8 * k);
    }
    word
}

// The word of the types below type i. Past the end of the table no bit is set. A whole row has a known length, so that it is read at once.
fn read_word(table: &[u8], i: usize) -> u64
    requires { i < 64 }
    ensures { result ≡ word 64 (related table.now false i) }
{
    let start = 8 * i;
    if start + 8 <= table.len() {
        return read_row(&table[start..start + 8]);
    }
    if table.len() <= start {
        return 0;
    }
    read_row(&table[start..])
}

// The words of the types below each type below n.
pub fn read_words(n: usize, table: &[u8]) -> [u64; 64]
    requires { n ≤ 64 }
    ensures { Words n table.now false result }
{
    let mut words = [0u64; 64];
    for i in 0..n {
        words[i] = read_word(table, i);
    }
    words
}

// The word of the types above type i, from the words of those below.
pub fn turn_word(n: usize, words: &[u64; 64], i: usize) -> u64
    requires { (n ≤ 64) × (i < 64) }
    ensures { result ≡ turned n words.now i }
{
    let mut word = 0u64;
    for j in (0..n).rev() {
        word = 2 * word + (words[j] >> i) % 2;
    }
    word
}

// Sets bit j in the words of the types of `word`, above all bits that these words have.
fn spread(word: u64, j: usize, res: &mut [u64; 64])
    requires { (j < 64) × (length res.old ≡ 64) × ((i : ℕ) → i < 64 → get_or res.old i 0 < 2 ^ j) }
    ensures { Spread word j res.old 0 res.new }
{
    let mut left = word;
    while left != 0 {
        let i = end_bit(left, true);
        let met = res[i];
        res[i] = with_bit(met, j, true);
        left = without_lowest(left);
    }
}

// The words of the types above each type below n, from the words of those below. Only set bits are gone through.
pub fn turn_words(n: usize, words: &[u64; 64]) -> [u64; 64]
    requires { n ≤ 64 }
    ensures { (i : ℕ) → i < n → get_or result i 0 ≡ turned n words.now i }
{
    let mut result = [0u64; 64];
    for (j, word) in words[..n].iter().enumerate() {
        spread(*word, j, &mut result);
    }
    result
}
