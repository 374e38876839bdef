// The difference of two records over an accepted table (document 01, "Difference"). g is the first graph, s the second. s is numbered as
// written before it is compared with g.

ghost use Rattle.std.specs.Prelude.{◌≡◌, true, ◌≤◌, length};
ghost use Rattle.lattice.specs.Table.{accepted};
ghost use Rattle.layout.specs.Layout.{longest};
ghost use Rattle.link_orders.specs.LinkOrders.{Fitting};
ghost use Rattle.difference.specs.Explained.{explained_result};
ghost use Rattle.engine.specs.Differing.{parting_with};
ghost use Rattle.engine.specs.Operation.{RoomFor};
ghost use Rattle.replies.specs.Replies.{told};

use difference::Options;
use layout::{LONGEST, SHORT};
use replies::Refusal;

// Writes the difference of two records over an accepted table with n types and, if the options ask for them, the reasons for its links.
pub fn of_records<'a>(
    n: usize,
    table: &'a [u8],
    options: Options,
    first: &[u8],
    second: &[u8],
    out: &mut [u8],
    reasons: &mut [u8],
) -> Result<usize, Refusal>
    requires { (accepted n table.now ≡ true) × Fitting options.order }
    ensures { explained_result (told result) out.new reasons.new ≡
        parting_with options n table.now first.now second.now out.old reasons.old }
{
    if pairs::are_short(first, second) {
        return differ_sized::<SHORT>(n, table, options, first, second, out, reasons);
    }
    differ_sized::<LONGEST>(n, table, options, first, second, out, reasons)
}

// Replies as `of_records` does, with so many words for each graph: for g, for s as it is read, and for s numbered as written.
fn differ_sized<'a, const WORDS: usize>(
    n: usize,
    table: &'a [u8],
    options: Options,
    first: &[u8],
    second: &[u8],
    out: &mut [u8],
    reasons: &mut [u8],
) -> Result<usize, Refusal>
    requires few { WORDS ≤ longest }
    requires table_value { (accepted n table.now ≡ true) × Fitting options.order }
    requires roomy { RoomFor first.now WORDS × RoomFor second.now WORDS }
    ensures { explained_result (told result) out.new reasons.new ≡
        parting_with options n table.now first.now second.now out.old reasons.old }
{
    let mut g = [0u16; WORDS];
    let mut given = [0u16; WORDS];
    let mut s = [0u16; WORDS];
    pairs::read_both(n, table, &[], first, second, &mut g, &mut given)?;
    // An accepted graph can always be written, so the answer of `renumber` is not needed.
    numbering::renumber(&given, &mut s);
    difference::difference(n, table, options, &mut g, &s, out, reasons)
}
