// The order of two records, or of two graphs in words, over a table that is already accepted (document 02, Paper 3): which of the two is the
// broader, seen from the first. It serves `calls` and the crates that open a table themselves. This crate knows records, an accepted table and
// the order; it opens no table and writes no record.

#![tactic(auto)]

ghost use Rattle.std.specs.Prelude.{◌≡◌, ℕ, ◌≤◌};
ghost use Rattle.layout.specs.Layout.{rows_of};
ghost use Rattle.decode.specs.Answers.{Roomy};
ghost use Rattle.record.specs.Read.{reading};
ghost use Rattle.record.specs.Reads.{Loaded};
ghost use Rattle.pairs.specs.Pair.{read_both};
ghost use Rattle.orders.specs.Ordering.{compared, ordered};

use replies::{Reply, Success};

// The order of two records over an accepted table with n types.
pub fn of_records(n: usize, table: &[u8], first: &[u8], second: &[u8]) -> Reply
    requires { n ≤ 64 }
    ensures { result ≡ read_both (λ q. q) (reading n first.now) (reading n second.now) (ordered n table.now) }
{
    if pairs::are_short(first, second) {
        let mut s = [0u16; layout::SHORT];
        let mut g = [0u16; layout::SHORT];
        return order_in(n, table, first, second, &mut s, &mut g);
    }
    let mut s = [0u16; layout::LONGEST];
    let mut g = [0u16; layout::LONGEST];
    order_in(n, table, first, second, &mut s, &mut g)
}

// Replies as `of_records` does. `s` and `g` are lent for the words of the first and the second graph.
fn order_in(
    n: usize,
    table: &[u8],
    first: &[u8],
    second: &[u8],
    s: &mut [u16],
    g: &mut [u16],
) -> Reply
    requires { (n ≤ 64) × Roomy first.now s.old × Roomy second.now g.old }
    ensures { result ≡ read_both (λ q. q) (reading n first.now) (reading n second.now) (ordered n table.now) }
{
    pairs::read_both(n, table, &[], first, second, s, g)?;
    of_graphs(table, s, g)
}

// The order of two graphs in words.
pub fn of_graphs<'a>(table: &'a [u8], s: &'a [u16], g: &'a [u16]) -> Reply
    requires { (n : ℕ) × ((n ≤ 64) × (Loaded n s.now × Loaded n g.now)) }
    ensures { (n : ℕ) → Loaded n s.now → Loaded n g.now → result ≡ ordered n table.now (rows_of s.now) (rows_of g.now) }
{
    let below = subsume::subsume(table, s, g).is_some();
    let above = subsume::subsume(table, g, s).is_some();
    order_reply(below, above)
}

// The reply for two graphs, by whether the first is below the second, and whether the second is below the first.
fn order_reply(below: bool, above: bool) -> Reply
    ensures { result ≡ compared below above }
{
    match (below, above) {
        (true, true) => Ok(Success::Same),
        (true, false) => Ok(Success::Under),
        (false, true) => Ok(Success::Above),
        (false, false) => Ok(Success::Neither),
    }
}
