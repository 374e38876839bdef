// The calls that write the result of an operation on two records, the common part or the combination, for both of them: without a list of types
// for features or with one.

ghost use Rattle.std.specs.Prelude.{◌≡◌, false, length};
ghost use Rattle.bounds.specs.Opening.{CellsNeeded};
ghost use Rattle.replies.specs.Reply.{resulting};
ghost use Rattle.engine.specs.Operation.{operated_beside};
ghost use Rattle.calls.specs.Beside.{checked_beside};
ghost use Rattle.replies.specs.Replies.{told};

use bounds::Form;
use engine::operation::Operation;
use replies::Refusal;

// Writes the result of an operation on two records, which obey a list if `listed`. Without a list, `list` is empty.
pub fn operate_beside<O: Operation>(
    n: usize,
    table: &[u8],
    listed: bool,
    list: &[u8],
    first: &[u8],
    second: &[u8],
    out: &mut [u8],
) -> Result<usize, Refusal>
    requires { listed ≡ false → length list.now ≡ 0 }
    ensures { resulting (told result) out.new ≡
        checked_beside n table.now listed list.now out.old
        (operated_beside O.written n table.now list.now first.now second.now out.old) }
{
    let mut sets = [0u64; bounds::sets::WORDS];
    match bounds::choose(n, table, O::JOINS, &mut sets)? {
        Form::Cells => operate_by_cells::<O>(n, table, listed, list, &sets, first, second, out),
        Form::Sets => {
            if listed && !record::appropriate::is_list_accepted(n, list) {
                return Err(Refusal::TypeList);
            }
            let none = [[0u8; 64]; 0];
            engine::operation::of_records::<O>(n, table, list, &sets, &none, first, second, out)
        }
    }
}

// Replies as `operate_beside` does, for a table that needs cells.
fn operate_by_cells<'a, O: Operation>(
    n: usize,
    table: &[u8],
    listed: bool,
    list: &[u8],
    sets: &'a [u64; bounds::sets::WORDS],
    first: &[u8],
    second: &[u8],
    out: &mut [u8],
) -> Result<usize, Refusal>
    requires { CellsNeeded n table.now sets.now × (listed ≡ false → length list.now ≡ 0) }
    ensures { resulting (told result) out.new ≡
        checked_beside n table.now listed list.now out.old
        (operated_beside O.written n table.now list.now first.now second.now out.old) }
{
    let mut cells = [[0u8; 64]; 64];
    bounds::fill(n, table, O::JOINS, &mut cells)?;
    if listed && !record::appropriate::is_list_accepted(n, list) {
        return Err(Refusal::TypeList);
    }
    engine::operation::of_records::<O>(n, table, list, sets, &cells, first, second, out)
}
