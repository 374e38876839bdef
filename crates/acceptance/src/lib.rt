// This crate tests a type table (document 01, "Type table"): the table is accepted, or refused by 1, 2 or 3. It tests the size, then the order
// (`order`) and the bounds (`covers`) by the words of `lattice`, and it fills no table of bounds: crate `bounds` does. The crate knows tables,
// and nothing of records.

#![tactic(auto)]

ghost use Rattle.std.specs.Prelude.{◌≡◌, true, false, cond, List, ℕ, ◌≤◌, Ok, Err};
ghost use Rattle.acceptance.specs.declared.TableFault.TheVariants.{Bounds};
ghost use Rattle.acceptance.specs.Reply.{opened};
ghost use Rattle.lattice.specs.Table.{sized};
ghost use Rattle.lattice.specs.Words.{Words};

pub mod covers;
pub mod order;

// Why a table is refused, by the numbers of document 01's refusals.
#[derive(Clone, Copy)]
pub enum TableFault {
    Size = 1,
    Order = 2,
    Bounds = 3,
}

// Whether a table is accepted, or the first of refusals 1 to 3 that applies. No join is sought: where every two types have a meet,
// every two have a join, the meet of all types above both.
pub fn accept(n: usize, table: &[u8]) -> Result<(), TableFault>
    ensures { result ≡ opened n table.now }
{
    if !order::is_sized(n, table) {
        return Err(TableFault::Size);
    }
    let down = lattice::words::read_words(n, table);
    judge(n, &down)
}

// What document 01 returns for a table of the right size, from its words. One pass over the types serves both tests. A row that is
// not ordered is refused at once. A missing meet is refused after the last row, since 2 goes before 3.
fn judge(n: usize, down: &[u64; 64]) -> Result<(), TableFault>
    requires { n ≤ 64 }
    ensures { (t : List ℕ) → sized n t ≡ true → Words n t false down.now → result ≡ opened n t }
{
    if !order::are_rows_set(n, down) {
        return Err(TableFault::Order);
    }
    let mut all = true;
    for i in 0..n {
        let Some(word) = order::covers_of(n, down, i) else {
            return Err(TableFault::Order);
        };
        if all {
            all = covers::are_bounded_within(down, word);
        }
    }
    bounded(all)
}

// The answer for a table that passes 1 and 2: accepted if every two types have a bound, which `all` tells, else refused by 3.
pub fn bounded(all: bool) -> Result<(), TableFault>
    ensures { result ≡ cond all (Ok tt) (Err Bounds) }
{
    if !all {
        return Err(TableFault::Bounds);
    }
    Ok(())
}
