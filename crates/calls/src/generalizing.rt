// The calls that write the common part of two records (document 01, "Common part"), without a list of types for features or with one (document 02,
// Paper 9).

ghost use Rattle.std.specs.Prelude.{◌≡◌};
ghost use Rattle.replies.specs.Reply.{resulting};
ghost use Rattle.calls.specs.Calls.{generalizing};
ghost use Rattle.calls.specs.Appropriate.{generalizing_appropriate};
ghost use Rattle.replies.specs.Replies.{told};

use crate::operating::operate_beside;
use engine::generalizing::CommonPart;
use replies::Refusal;

// Writes the common part of two records.
pub fn generalize(
    n: usize,
    table: &[u8],
    first: &[u8],
    second: &[u8],
    out: &mut [u8],
) -> Result<usize, Refusal>
    ensures { resulting (told result) out.new ≡ generalizing n table.now first.now second.now out.old }
{
    operate_beside::<CommonPart>(n, table, false, &[], first, second, out)
}

// Writes the common part of two records if both obey a list. The list gives for each feature the broadest type that may have it.
pub fn generalize_appropriate(
    n: usize,
    table: &[u8],
    list: &[u8],
    first: &[u8],
    second: &[u8],
    out: &mut [u8],
) -> Result<usize, Refusal>
    ensures { resulting (told result) out.new ≡ generalizing_appropriate n table.now list.now first.now second.now out.old }
{
    operate_beside::<CommonPart>(n, table, true, list, first, second, out)
}
