// A patient's versions in one buffer (document 02, Paper 11): up to 16 versions of a program, as their common part and the difference of each
// from it. The caller lends the buffer; a refused call changes no byte of it. A buffer is trusted only where the way of its programs ends in its
// first bytes. It knows tables, records and the operations on them.

#![tactic(auto)]

ghost use Rattle.std.specs.Prelude.{◌≡◌, ◌≤◌, length};
ghost use Rattle.replies.specs.Replies.{Length, told};
ghost use Rattle.replies.specs.Reply.{resulting};
ghost use Rattle.versions.specs.State.{taken};
ghost use Rattle.store.specs.Opening.{Opens};
ghost use Rattle.store.specs.Calls.{dropping, fetching, putting, settled};

use record::GraphFault;
use replies::{Refusal, Side};

// Puts a program into a store as a version that is absent. The answer tells how many bytes are used.
pub fn put(
    n: usize,
    table: &[u8],
    store: &mut [u8],
    version: usize,
    bytes: &[u8],
) -> Result<usize, Refusal>
    ensures { resulting (told result) store.new ≡ putting n table.now store.old version bytes.now }
{
    let mut sets = [0u64; bounds::sets::WORDS];
    let mut cells = [[0u8; 64]; 64];
    let room = store.len();
    open(n, table, room, &mut sets, &mut cells)?;
    let mut state = [0u8; contents::MOST];
    let used = contents::put_among(
        n,
        table,
        &sets,
        &cells,
        store,
        version,
        bytes,
        &mut state[..room],
    )?;
    settle(used, &state[..room], store);
    Ok(used)
}

// Drops a version of a store. The answer tells how many bytes are used.
pub fn drop(n: usize, table: &[u8], store: &mut [u8], version: usize) -> Result<usize, Refusal>
    ensures { resulting (told result) store.new ≡ dropping n table.now store.old version }
{
    let mut sets = [0u64; bounds::sets::WORDS];
    let mut cells = [[0u8; 64]; 64];
    let room = store.len();
    open(n, table, room, &mut sets, &mut cells)?;
    let mut state = [0u8; contents::MOST];
    let used = contents::drop_among(n, table, &sets, &cells, store, version, &mut state[..room])?;
    settle(used, &state[..room], store);
    Ok(used)
}

// Writes the record of a version of a store.
pub fn read(
    n: usize,
    table: &[u8],
    store: &[u8],
    version: usize,
    out: &mut [u8],
) -> Result<usize, Refusal>
    ensures { resulting (told result) out.new ≡ fetching n table.now store.now version out.old }
{
    let mut sets = [0u64; bounds::sets::WORDS];
    let mut cells = [[0u8; 64]; 64];
    open(n, table, store.len(), &mut sets, &mut cells)?;
    contents::read_among(n, table, &sets, &cells, store, version, out)
}

// Opens the table of a call over a buffer of `room` bytes: it fills `sets` and `cells` with the joins of the table. A buffer above the most bytes
// of a store is refused behind the table.
fn open(
    n: usize,
    table: &[u8],
    room: usize,
    sets: &mut [u64; bounds::sets::WORDS],
    cells: &mut [[u8; 64]; 64],
) -> Result<(), Refusal>
    requires { (length sets.old ≡ 128) × (length cells.old ≡ 64) }
    ensures { Opens n table.now room result sets.new cells.new }
{
    bounds::open(n, table, true, sets, cells)?;
    if room > contents::MOST {
        return Err(Refusal::Graph(GraphFault::Malformed, Side::First));
    }
    Ok(())
}

// Copies the used bytes of a state into the store; the bytes behind them stay.
fn settle(used: usize, state: &[u8], store: &mut [u8])
    requires { (used ≤ length state.now) × (length state.now ≡ length store.old) }
    ensures { resulting (Length used) store.new ≡ settled store.old (taken (resulting (Length used) state.now)) }
{
    gathering::parts::copy(&state[..used], 0, store);
}
