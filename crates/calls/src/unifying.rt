// The calls that write the combination of two records (document 01, "Combination"), without a list of types for features or with one (document 02,
// Paper 9).

ghost use Rattle.std.specs.Prelude.{◌≡◌};
ghost use Rattle.replies.specs.Reply.{resulting};
ghost use Rattle.calls.specs.Calls.{unifying};
ghost use Rattle.calls.specs.Appropriate.{unifying_appropriate};
ghost use Rattle.replies.specs.Replies.{told};

use crate::operating::operate_beside;
use engine::unifying::Combination;
use replies::Refusal;

// Writes the combination of two records.
pub fn unify(
    n: usize,
    table: &[u8],
    first: &[u8],
    second: &[u8],
    out: &mut [u8],
) -> Result<usize, Refusal>
    ensures { resulting (told result) out.new ≡ unifying n table.now first.now second.now out.old }
{
    operate_beside::<Combination>(n, table, false, &[], first, second, out)
}

// Writes the combination of two records if both obey a list. The list gives for each feature the broadest type that may have it.
pub fn unify_appropriate(
    n: usize,
    table: &[u8],
    list: &[u8],
    first: &[u8],
    second: &[u8],
    out: &mut [u8],
) -> Result<usize, Refusal>
    ensures { resulting (told result) out.new ≡ unifying_appropriate n table.now list.now first.now second.now out.old }
{
    operate_beside::<Combination>(n, table, true, list, first, second, out)
}
