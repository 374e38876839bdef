// An operation on two graphs that writes a record over an accepted table: the common part or the combination, each in a module of its own. Here
// the two records are read. `sets` and `cells` hold the joins or the meets of the table, as opening the table left them.

ghost use Rattle.std.specs.Prelude.{◌≡◌, ◌≤◌, Bool, List, ℕ};
ghost use Rattle.bounds.specs.Opening.{OpenedFor};
ghost use Rattle.layout.specs.Layout.{rows_of};
ghost use Rattle.record.specs.Reads.{Loaded};
ghost use Rattle.pairs.specs.Pair.{Optional};
ghost use Rattle.replies.specs.Replies.{told};
ghost use Rattle.replies.specs.Reply.{resulting};
ghost use Rattle.engine.specs.Operation.{Operating, RoomFor, operated_beside};

use layout::{LONGEST, SHORT};
use replies::Refusal;

pub trait Operation {
    // whether the operation takes the joins of the table; else it takes the meets
    const JOINS: bool;

    ghost JOINS: { Bool };

    // the result that is written for two graphs
    ghost written: { Operating };

    // Writes the result for two graphs in words.
    fn of_graphs<'a>(
        n: usize,
        sets: &'a [u64; bounds::sets::WORDS],
        cells: &'a [[u8; 64]],
        a: &'a [u16],
        b: &'a [u16],
        out: &mut [u8],
    ) -> Result<usize, Refusal>
        requires { ((t : List ℕ) × OpenedFor JOINS n t sets.now cells.now) × (Loaded n a.now × Loaded n b.now) }
        ensures { (t : List ℕ) → OpenedFor JOINS n t sets.now cells.now →
            resulting (told result) out.new ≡ written n t out.old (rows_of a.now) (rows_of b.now) };
}

// Writes the result of an operation on two records. The records are read with a list of types for features, unless the list is empty.
pub fn of_records<'a, O: Operation>(
    n: usize,
    table: &[u8],
    list: &[u8],
    sets: &'a [u64; bounds::sets::WORDS],
    cells: &'a [[u8; 64]],
    first: &[u8],
    second: &[u8],
    out: &mut [u8],
) -> Result<usize, Refusal>
    requires { OpenedFor O.JOINS n table.now sets.now cells.now × Optional n list.now }
    ensures { resulting (told result) out.new ≡
        operated_beside O.written n table.now list.now first.now second.now out.old }
{
    if pairs::are_short(first, second) {
        return operate_sized::<O, SHORT>(n, table, list, sets, cells, first, second, out);
    }
    operate_sized::<O, LONGEST>(n, table, list, sets, cells, first, second, out)
}

// Replies as `of_records` does, with so many words for each of the two graphs.
fn operate_sized<'a, O: Operation, const WORDS: usize>(
    n: usize,
    table: &[u8],
    list: &[u8],
    sets: &'a [u64; bounds::sets::WORDS],
    cells: &'a [[u8; 64]],
    first: &[u8],
    second: &[u8],
    out: &mut [u8],
) -> Result<usize, Refusal>
    requires few { WORDS ≤ 65535 }
    requires opened { OpenedFor O.JOINS n table.now sets.now cells.now × Optional n list.now }
    requires roomy { RoomFor first.now WORDS × RoomFor second.now WORDS }
    ensures { resulting (told result) out.new ≡
        operated_beside O.written n table.now list.now first.now second.now out.old }
{
    let mut a = [0u16; WORDS];
    let mut b = [0u16; WORDS];
    pairs::read_both(n, table, list, first, second, &mut a, &mut b)?;
    O::of_graphs(n, sets, cells, &a, &b, out)
}
