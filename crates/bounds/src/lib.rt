// This crate opens a table for meets or for joins (document 01, "Type table"; document 02, Paper 12): the table is accepted, or refused
// by 1, 2 or 3. After acceptance the sets or cells that the caller lends hold the bounds of one side. The crate knows tables, and
// nothing of records.

#![tactic(auto)]

ghost use Rattle.std.specs.Prelude.{◌≡◌, true, length};
ghost use Rattle.lattice.specs.Table.{sized, ordered, side_bound};
ghost use Rattle.bounds.specs.Opening.{Chooses, Fills, Opening};

use acceptance::TableFault;

mod cells;
mod primes;
pub mod sets;

// The form in which the bounds of a table are held: as sets, or in cells that are still to be filled.
#[derive(Clone, Copy)]
pub enum Form {
    Sets,
    Cells,
}

// Chooses the form for a table, joins for `up`, else meets. If every irreducible type is prime, the types are held as sets, and the table
// is accepted or refused. Else the cells decide about refusal 3.
pub fn choose(
    n: usize,
    table: &[u8],
    up: bool,
    sets: &mut [u64; sets::WORDS],
) -> Result<Form, TableFault>
    requires { length sets.old ≡ 128 }
    ensures { Chooses up n table.now result sets.new }
{
    if !acceptance::order::is_sized(n, table) {
        return Err(TableFault::Size);
    }
    let down = lattice::words::read_words(n, table);
    if !acceptance::order::is_ordered(n, &down) {
        return Err(TableFault::Order);
    }
    if !sets::hold(n, &down, up, sets) {
        return Ok(Form::Cells);
    }
    if !acceptance::covers::are_bounded(n, &down) {
        return Err(TableFault::Bounds);
    }
    Ok(Form::Sets)
}

// Fills the cells of an ordered table with joins for `up`, else with meets, and answers whether the table is accepted. The bounds of one
// side are enough for refusal 3: if every two types have one on one side, every two have one on the other.
pub fn fill(n: usize, table: &[u8], up: bool, cells: &mut [[u8; 64]; 64]) -> Result<(), TableFault>
    requires { (sized n table.now ≡ true) × (ordered n table.now ≡ true) }
    ensures { Fills up n table.now result cells.old cells.new }
{
    let down = lattice::words::read_words(n, table);
    if up {
        let above = lattice::words::turn_words(n, &down);
        return acceptance::bounded(cells::fill(n, &above, true, cells));
    }
    acceptance::bounded(cells::fill(n, &down, false, cells))
}

// Opens a table for joins for `up`, else for meets, where the caller lends cells for both forms.
pub fn open(
    n: usize,
    table: &[u8],
    up: bool,
    sets: &mut [u64; sets::WORDS],
    cells: &mut [[u8; 64]; 64],
) -> Result<(), TableFault>
    requires { (length sets.old ≡ 128) × (length cells.old ≡ 64) }
    ensures { Opening up n table.now (side_bound n table.now up) result sets.new cells.old cells.new }
{
    let form = choose(n, table, up, sets)?;
    match form {
        Form::Sets => Ok(()),
        Form::Cells => fill(n, table, up, cells),
    }
}
