// Tests rows for refusals 14 and 15 (document 02, Paper 2), and makes the table of targets. This table has a place for each parent and
// feature: 0 where no row has both, else the row's target plus 1.

ghost use Rattle.std.specs.Prelude.{◌≡◌, true, not, length};
ghost use Rattle.rows.specs.Rows.{is_known, all_known, has_twice};
ghost use Rattle.rows.specs.Placing.{Near, AllNear, Empty, Placed, Places};

use crate::Row;

// The number of places of the table: 255 parents with 64 features each.
pub const PLACES: usize = 255 * 64;

// Whether a row's feature is below 64, and its parent and its target are below `nodes`.
fn is_known(row: Row, nodes: usize) -> bool
    ensures { result ≡ is_known nodes row }
{
    row.feature < 64 && (row.parent as usize) < nodes && (row.target as usize) < nodes
}

// Whether no row has a feature above 63 or a node number outside the count (refusal 14).
pub fn all_known(rows: &[Row], nodes: usize) -> bool
    ensures { result ≡ all_known nodes rows.now }
{
    for &row in rows {
        if !is_known(row, nodes) {
            return false;
        }
    }
    true
}

// Places a row's target in the table. Answers whether its place was free.
fn place(row: Row, targets: &mut [u16; PLACES]) -> bool
    requires { Near row × (length targets.old ≡ 16320) }
    ensures { Places row targets.old result targets.new }
{
    let at = row.parent as usize * 64 + row.feature as usize;
    if targets[at] != 0 {
        return false;
    }
    targets[at] = row.target as u16 + 1;
    true
}

// Places rows in an empty table. Answers whether no two of them have one parent and feature (refusal 15).
pub fn place_rows(rows: &[Row], targets: &mut [u16; PLACES]) -> bool
    requires targets_len { length targets.old ≡ 16320 }
    requires all_near { AllNear rows.now × Empty targets.old }
    ensures { (result ≡ not (has_twice rows.now)) × (result ≡ true → Placed rows.now targets.new) × (length targets.new ≡ 16320) }
{
    for &row in rows {
        if !place(row, targets) {
            return false;
        }
    }
    true
}
