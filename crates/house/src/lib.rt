// This crate has the house types (document 02, Paper 8): 64 types of three grades, each 0 to 3, where 3 tells nothing. The number of a
// type is 16 times its first grade plus 4 times its second plus its third. A type is below another when each of its grades is at most the
// other's. `meets` has the meets of all pairs as a constant, and `fill_table` writes the type table that states the order. The crate knows
// what a type table is, and nothing of records.

#![tactic(auto)]

ghost use Rattle.std.specs.Prelude.{◌≡◌, ◌<◌};
ghost use Rattle.house.specs.House.{under, byte_of, answer_with, filling};

pub mod meets;

// Whether type a is below type b.
fn is_below(a: usize, b: usize) -> bool
    ensures { result ≡ under a b }
{
    if b / 16 < a / 16 {
        return false;
    }
    if b / 4 % 4 < a / 4 % 4 {
        return false;
    }
    a % 4 <= b % 4
}

// Byte k of the type table: it stands in the row of type k / 8, and has the bits of the eight types from 8 times k % 8 on.
fn byte_at(k: usize) -> u8
    requires { k < 512 }
    ensures { result ≡ byte_of k }
{
    let mut word = 0u64;
    for j in 0..8 {
        let stands = is_below(8 * (k % 8) + j, k / 8);
        word = lattice::words::with_bit(word, j, stands);
    }
    word as u8
}

// Writes the 512 bytes of the type table, for n = 64, and answers whether the output has room for them. The output's bytes past the
// table stay as they were; where there is no room, all of them do.
pub fn fill_table(out: &mut [u8]) -> bool
    ensures { answer_with result out.new ≡ filling out.old }
{
    if out.len() < 512 {
        return false;
    }
    for k in 0..512 {
        out[k] = byte_at(k);
    }
    true
}
