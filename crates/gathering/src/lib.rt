// Gathering while the session is open (document 02, Paper 4): programs are added one after another, and their common part is kept. A gathering is
// bytes that the caller lends: the number of types, the table, the length of the common part so far, which is 0 before the first addition, the
// written record of that common part, and room for the longest record. Bytes that hold no gathering are refused by what is wrong with them. A
// refused call changes no byte. This crate knows the bytes of a gathering; `acceptance` and `bounds` open its table, and `record`, `engine` and
// `orders` work on records.

#![tactic(auto)]

ghost use Rattle.std.specs.Prelude.{◌≡◌};
ghost use Rattle.record.specs.Read.{reading};
ghost use Rattle.replies.specs.Reply.{resulting};
ghost use Rattle.gathering.specs.Gathering.{adding, begun, comparing, finishing, nothing_after, written_from};
ghost use Rattle.replies.specs.Replies.{told};

use parts::Parts;
use replies::{Refusal, Reply, Side};

mod joining;
pub mod parts;

// The most bytes of a written record.
pub const LONGEST: usize = 4854;

// Begins a gathering over a table in lent bytes. The answer tells how many bytes are used.
pub fn begin(n: usize, table: &[u8], state: &mut [u8]) -> Result<usize, Refusal>
    ensures { resulting (told result) state.new ≡ begun n table.now state.old }
{
    acceptance::accept(n, table)?;
    if state.len() < 1 + 8 * n + 2 + LONGEST {
        return Err(Refusal::NoRoom);
    }
    state[0] = n as u8;
    parts::copy(table, 1, state);
    parts::put_length(1 + 8 * n, 0, state);
    Ok(3 + 8 * n)
}

// Adds a program to what is gathered. The program is the first graph, what is gathered the second. The answer tells the length of the common
// part.
pub fn add(state: &mut [u8], bytes: &[u8]) -> Result<usize, Refusal>
    ensures { resulting (told result) state.new ≡ adding state.old bytes.now }
{
    let Parts {
        types,
        start,
        end,
        room,
        gathered,
        ..
    } = parts::find(state);
    let mut sets = [0u64; bounds::sets::WORDS];
    let mut cells = [[0u8; 64]; 64];
    bounds::open(types, &state[start..end], true, &mut sets, &mut cells)?;
    let length = joining::join(types, gathered, &sets, &cells, bytes, &mut state[room..])?;
    parts::put_length(end, length, state);
    Ok(length)
}

// The order of a program, as first graph, to what is gathered.
pub fn order(state: &[u8], bytes: &[u8]) -> Reply
    ensures { result ≡ comparing state.now bytes.now }
{
    let Parts {
        types,
        start,
        end,
        room,
        gathered,
        last,
    } = parts::find(state);
    acceptance::accept(types, &state[start..end])?;
    if gathered == 0 {
        return nothing_after(types, bytes);
    }
    orders::of_records(types, &state[start..end], bytes, &state[room..last])
}

// The order's answer where nothing is gathered: the program's refusal, else 16.
fn nothing_after(n: usize, bytes: &[u8]) -> Reply
    ensures { result ≡ nothing_after (reading n bytes.now) }
{
    let mut program = [0u16; layout::LONGEST];
    match record::reading::read(n, bytes, &mut program) {
        Err(fault) => Err(Refusal::Graph(fault, Side::First)),
        Ok(()) => Err(Refusal::NothingGathered),
    }
}

// Writes what is gathered. The gathering stays open.
pub fn finish(state: &[u8], out: &mut [u8]) -> Result<usize, Refusal>
    ensures { resulting (told result) out.new ≡ finishing state.now out.old }
{
    let Parts {
        types,
        start,
        end,
        room,
        gathered,
        last,
    } = parts::find(state);
    acceptance::accept(types, &state[start..end])?;
    if gathered == 0 {
        return Err(Refusal::NothingGathered);
    }
    write(types, &state[room..last], out)
}

// Writes the record of what is gathered.
fn write(n: usize, part: &[u8], out: &mut [u8]) -> Result<usize, Refusal>
    ensures { resulting (told result) out.new ≡ written_from (reading n part.now) out.old }
{
    let mut graph = [0u16; layout::LONGEST];
    if let Err(fault) = record::reading::read(n, part, &mut graph) {
        return Err(Refusal::Graph(fault, Side::Second));
    }
    engine::rewriting::of_graph(&graph, out)
}
