// What an addition does once the table in the state is accepted.

ghost use Rattle.std.specs.Prelude.{◌≡◌, true, List, ℕ, take};
ghost use Rattle.bounds.specs.Opening.{OpenedFor};
ghost use Rattle.layout.specs.Layout.{rows_of};
ghost use Rattle.record.specs.Read.{reading};
ghost use Rattle.record.specs.Reads.{Loaded};
ghost use Rattle.replies.specs.Replies.{told};
ghost use Rattle.replies.specs.Reply.{resulting};
ghost use Rattle.gathering.specs.Gathering.{first_of};
ghost use Rattle.gathering.specs.Joined.{joined, joined_rows};

use engine::generalizing::CommonPart;
use engine::operation::Operation;
use replies::{Refusal, Side};

// Writes the new common part over the room: the program's own record where nothing is gathered, else the common part of the program and the
// record that stands first in the room.
pub fn join<'a>(
    n: usize,
    gathered: usize,
    sets: &'a [u64; bounds::sets::WORDS],
    cells: &'a [[u8; 64]],
    bytes: &[u8],
    room: &mut [u8],
) -> Result<usize, Refusal>
    requires { (t : List ℕ) × OpenedFor true n t sets.now cells.now }
    ensures { (t : List ℕ) → OpenedFor true n t sets.now cells.now →
        resulting (told result) room.new ≡ joined n t (first_of gathered room.old) bytes.now room.old }
{
    let mut program = [0u16; layout::LONGEST];
    if let Err(fault) = record::reading::read(n, bytes, &mut program) {
        return Err(Refusal::Graph(fault, Side::First));
    }
    if gathered == 0 {
        return engine::rewriting::of_graph(&program, room);
    }
    join_graph(n, gathered, sets, cells, &program, room)
}

// Writes over the room the common part of a program's graph and the record that stands first in the room.
fn join_graph<'a>(
    n: usize,
    gathered: usize,
    sets: &'a [u64; bounds::sets::WORDS],
    cells: &'a [[u8; 64]],
    program: &'a [u16],
    room: &mut [u8],
) -> Result<usize, Refusal>
    requires { ((t : List ℕ) × OpenedFor true n t sets.now cells.now) × Loaded n program.now }
    ensures { (t : List ℕ) → OpenedFor true n t sets.now cells.now →
        resulting (told result) room.new ≡ joined_rows n t room.old (rows_of program.now) (reading n (take gathered room.old)) }
{
    let end = crate::parts::end_of(room, 0, gathered);
    let mut part = [0u16; layout::LONGEST];
    if let Err(fault) = record::reading::read(n, &room[..end], &mut part) {
        return Err(Refusal::Graph(fault, Side::Second));
    }
    CommonPart::of_graphs(n, sets, cells, program, &part, room)
}
