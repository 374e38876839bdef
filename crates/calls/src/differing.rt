// The calls that write the difference of two records (document 01, "Difference"). g is the first graph, s the second. Links are ordered by
// number, or by a list of features (document 02, Paper 10). Two of the calls write the reasons beside the record (document 02, Paper 13).

ghost use Rattle.std.specs.Prelude.{◌≡◌};
ghost use Rattle.replies.specs.Reply.{resulting};
ghost use Rattle.difference.specs.Explained.{explained_result};
ghost use Rattle.calls.specs.Calls.{differing, differing_by};
ghost use Rattle.calls.specs.Explained.{explaining, explaining_by, differing_with, differing_by_with};
ghost use Rattle.replies.specs.Replies.{told};

use difference::Options;
use replies::Refusal;

// Writes the difference of the first graph, g, and the second, s. Links are ordered by parent number, then feature.
pub fn difference(
    n: usize,
    table: &[u8],
    first: &[u8],
    second: &[u8],
    out: &mut [u8],
) -> Result<usize, Refusal>
    ensures { resulting (told result) out.new ≡ differing n table.now first.now second.now out.old }
{
    let mut none = [0u8; 0];
    difference_with(n, table, false, first, second, out, &mut none)
}

// Writes the difference of g and s, with links ordered by a list of all 64 features, each once. Any other list is refused by 19.
pub fn difference_by(
    n: usize,
    table: &[u8],
    list: &[u8],
    first: &[u8],
    second: &[u8],
    out: &mut [u8],
) -> Result<usize, Refusal>
    ensures { resulting (told result) out.new ≡ differing_by n table.now list.now first.now second.now out.old }
{
    let mut none = [0u8; 0];
    difference_by_with(n, table, list, false, first, second, out, &mut none)
}

// Writes the difference of g and s and, beside its record, one byte for each of its links, in record order: the reason why the link is kept.
pub fn difference_explained(
    n: usize,
    table: &[u8],
    first: &[u8],
    second: &[u8],
    out: &mut [u8],
    reasons: &mut [u8],
) -> Result<usize, Refusal>
    ensures { explained_result (told result) out.new reasons.new ≡
        explaining n table.now first.now second.now out.old reasons.old }
{
    difference_with(n, table, true, first, second, out, reasons)
}

// Writes the difference of g and s with its reasons, as `difference_explained` does, with links ordered by a list of all 64 features, each once.
pub fn difference_explained_by(
    n: usize,
    table: &[u8],
    list: &[u8],
    first: &[u8],
    second: &[u8],
    out: &mut [u8],
    reasons: &mut [u8],
) -> Result<usize, Refusal>
    ensures { explained_result (told result) out.new reasons.new ≡
        explaining_by n table.now list.now first.now second.now out.old reasons.old }
{
    difference_by_with(n, table, list, true, first, second, out, reasons)
}

// Writes the difference of g and s, with links ordered by number, and, if `explained`, its reasons.
fn difference_with(
    n: usize,
    table: &[u8],
    explained: bool,
    first: &[u8],
    second: &[u8],
    out: &mut [u8],
    reasons: &mut [u8],
) -> Result<usize, Refusal>
    ensures { explained_result (told result) out.new reasons.new ≡
        differing_with explained n table.now first.now second.now out.old reasons.old }
{
    acceptance::accept(n, table)?;
    let order = link_orders::by_number();
    let options = Options { order, explained };
    engine::differing::of_records(n, table, options, first, second, out, reasons)
}

// Writes the difference of g and s, with links ordered by a list of features, and, if `explained`, its reasons.
fn difference_by_with(
    n: usize,
    table: &[u8],
    list: &[u8],
    explained: bool,
    first: &[u8],
    second: &[u8],
    out: &mut [u8],
    reasons: &mut [u8],
) -> Result<usize, Refusal>
    ensures { explained_result (told result) out.new reasons.new ≡
        differing_by_with explained n table.now list.now first.now second.now out.old reasons.old }
{
    acceptance::accept(n, table)?;
    if !link_orders::is_reading_order(list) {
        return Err(Refusal::ReadingOrder);
    }
    let order = link_orders::by_list(list);
    let options = Options { order, explained };
    engine::differing::of_records(n, table, options, first, second, out, reasons)
}
