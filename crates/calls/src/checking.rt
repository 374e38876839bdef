// The call that tells whether a table is accepted (document 01, "Type table").

ghost use Rattle.std.specs.Prelude.{◌≡◌};
ghost use Rattle.calls.specs.Calls.{checking};

use replies::{Reply, Success};

// Replies with a length of 0 if the table is accepted, else with the refusal 1, 2 or 3.
pub fn check(n: usize, table: &[u8]) -> Reply
    ensures { result ≡ checking n table.now }
{
    acceptance::accept(n, table)?;
    Ok(Success::Length(0))
}
