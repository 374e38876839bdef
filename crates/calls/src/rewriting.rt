// The calls that write a record in written form (document 01, "Returned by a call"), without a list of types for features or with one (document 02,
// Paper 9).

ghost use Rattle.std.specs.Prelude.{◌≡◌, false, length};
ghost use Rattle.replies.specs.Reply.{resulting};
ghost use Rattle.calls.specs.Calls.{rewriting};
ghost use Rattle.calls.specs.Appropriate.{rewriting_appropriate};
ghost use Rattle.calls.specs.Beside.{rewriting_beside};
ghost use Rattle.replies.specs.Replies.{told};

use replies::Refusal;

// Writes a record in written form.
pub fn rewrite(n: usize, table: &[u8], bytes: &[u8], out: &mut [u8]) -> Result<usize, Refusal>
    ensures { resulting (told result) out.new ≡ rewriting n table.now bytes.now out.old }
{
    rewrite_beside(n, table, false, &table[..0], bytes, out)
}

// Writes a record in written form if the record obeys a list. The list gives for each feature the broadest type that may have it.
pub fn rewrite_appropriate(
    n: usize,
    table: &[u8],
    list: &[u8],
    bytes: &[u8],
    out: &mut [u8],
) -> Result<usize, Refusal>
    ensures { resulting (told result) out.new ≡ rewriting_appropriate n table.now list.now bytes.now out.old }
{
    rewrite_beside(n, table, true, list, bytes, out)
}

// Replies as `rewrite_appropriate` does if `listed`, else as `rewrite` does. Without a list, `list` is empty.
fn rewrite_beside(
    n: usize,
    table: &[u8],
    listed: bool,
    list: &[u8],
    bytes: &[u8],
    out: &mut [u8],
) -> Result<usize, Refusal>
    requires { listed ≡ false → length list.now ≡ 0 }
    ensures { resulting (told result) out.new ≡ rewriting_beside n table.now listed list.now bytes.now out.old }
{
    acceptance::accept(n, table)?;
    if listed && !record::appropriate::is_list_accepted(n, list) {
        return Err(Refusal::TypeList);
    }
    engine::rewriting::of_record(n, table, list, bytes, out)
}
