// Reads the records of a call over an accepted table, with the first graph's refusal before the second's (document 01, "Returned by a call"),
// with a list of types for features (document 02, Paper 9) or without one. An empty list stands for no list. This crate knows records and an
// accepted table, and no operation.

#![tactic(auto)]

ghost use Rattle.std.specs.Prelude.{◌≡◌, true, ◌≤◌, length};
ghost use Rattle.decode.specs.Answers.{Roomy};
ghost use Rattle.record.specs.Reads.{ReadsAs};
ghost use Rattle.pairs.specs.Pair.{Optional, ReadsBeside, reading_beside};

use record::GraphFault;
use replies::{Refusal, Side};

// Whether both records are short, so that `layout::SHORT` words have room for the graph of each.
pub fn are_short(first: &[u8], second: &[u8]) -> bool
    ensures { result ≡ true → (length first.now ≤ 510) × (length second.now ≤ 510) }
{
    first.len() <= decode::rows::SHORT && second.len() <= decode::rows::SHORT
}

// Reads a record over a table with n types into lent words. On a refusal nothing is said of the words.
pub fn read_one(
    n: usize,
    table: &[u8],
    list: &[u8],
    bytes: &[u8],
    graph: &mut [u16],
) -> Result<(), GraphFault>
    requires { (n ≤ 64) × Optional n list.now × Roomy bytes.now graph.old }
    ensures { ReadsAs n (reading_beside n table.now list.now bytes.now) result graph.new }
{
    if list.is_empty() {
        return record::reading::read(n, bytes, graph);
    }
    record::appropriate::read(n, table, list, bytes, graph)
}

// Reads two records over a table with n types, each into lent words. The second is read only where the first is accepted.
pub fn read_both(
    n: usize,
    table: &[u8],
    list: &[u8],
    first: &[u8],
    second: &[u8],
    a: &mut [u16],
    b: &mut [u16],
) -> Result<(), Refusal>
    requires n_bound { (n ≤ 64) × Optional n list.now }
    requires roomy { Roomy first.now a.old × Roomy second.now b.old }
    ensures { ReadsBeside n table.now list.now first.now second.now result a.new b.new }
{
    if let Err(fault) = read_one(n, table, list, first, a) {
        return Err(Refusal::Graph(fault, Side::First));
    }
    if let Err(fault) = read_one(n, table, list, second, b) {
        return Err(Refusal::Graph(fault, Side::Second));
    }
    Ok(())
}
