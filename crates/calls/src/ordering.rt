// The call that tells which of two records is the broader (document 02, Paper 3).

ghost use Rattle.std.specs.Prelude.{◌≡◌};
ghost use Rattle.calls.specs.Calls.{ordering};

use replies::Reply;

// Tells which of two records is the broader: same, under, above or neither, seen from the first.
pub fn order(n: usize, table: &[u8], first: &[u8], second: &[u8]) -> Reply
    ensures { result ≡ ordering n table.now first.now second.now }
{
    acceptance::accept(n, table)?;
    orders::of_records(n, table, first, second)
}
