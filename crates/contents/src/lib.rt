// The programs that a trusted buffer holds (document 02, Paper 11): a version is put among them, dropped from them or read. A buffer is trusted
// only where the way of its programs ends in its first bytes. The crate knows an accepted table, records and the way of the programs.

#![tactic(auto)]

ghost use Rattle.std.specs.Prelude.{◌≡◌, true, ◌≤◌, get_or, length};
ghost use Rattle.std.proofs.Math.Option.{none};
ghost use Rattle.bounds.specs.Opening.{OpenedFor};
ghost use Rattle.replies.specs.Reply.{resulting};
ghost use Rattle.versions.specs.State.{held, made};
ghost use Rattle.contents.specs.Contents.{drop_among, given, on_held, on_present, put_among};
ghost use Rattle.contents.specs.Promise.{Among, Programmed};
ghost use Rattle.replies.specs.Replies.{told};

use record::GraphFault;
use replies::{Refusal, Side};

// The most bytes of a store.
pub const MOST: usize = 16384;

// Makes the state of a store with one version more.
pub fn put_among<'a>(
    n: usize,
    table: &[u8],
    sets: &'a [u64; bounds::sets::WORDS],
    cells: &'a [[u8; 64]],
    store: &[u8],
    version: usize,
    bytes: &[u8],
    state: &mut [u8],
) -> Result<usize, Refusal>
    requires { OpenedFor true n table.now sets.now cells.now × (length state.old ≡ length store.now) × (length store.now ≤ 16384) }
    ensures { Among (on_held (held n table.now store.now)
        (put_among n table.now (length store.now) version bytes.now)) state.old (told result) state.new }
{
    let mut slots = [0u8; versions::slots::SLOTS];
    let mut part = [0u8; versions::slots::SLOT];
    if !way::is_held(n, table, sets, cells, store, &mut slots, &mut part, state) {
        return Err(Refusal::Graph(GraphFault::Malformed, Side::First));
    }
    let mut record = [0u8; gathering::LONGEST];
    let length = write_program(n, bytes, &mut record)?;
    if version >= versions::slots::VERSIONS {
        return Err(Refusal::WrongVersion);
    }
    if versions::slots::length_in(&slots, version) != 0 {
        return Err(Refusal::WrongVersion);
    }
    let last = versions::slots::is_none_from(&slots, version);
    versions::slots::put_measured(
        &record[..length],
        version * versions::slots::SLOT,
        &mut slots,
    );
    if last {
        return way::step(n, table, sets, cells, &slots, version, &mut part, state);
    }
    way::go(n, table, sets, cells, &slots, &mut part, state)
}

// Makes the state of a store with one version less.
pub fn drop_among<'a>(
    n: usize,
    table: &[u8],
    sets: &'a [u64; bounds::sets::WORDS],
    cells: &'a [[u8; 64]],
    store: &[u8],
    version: usize,
    state: &mut [u8],
) -> Result<usize, Refusal>
    requires { OpenedFor true n table.now sets.now cells.now × (length state.old ≡ length store.now) × (length store.now ≤ 16384) }
    ensures { Among (on_held (held n table.now store.now)
        (drop_among n table.now (length store.now) version)) state.old (told result) state.new }
{
    let mut slots = [0u8; versions::slots::SLOTS];
    let mut part = [0u8; versions::slots::SLOT];
    if !way::is_held(n, table, sets, cells, store, &mut slots, &mut part, state) {
        return Err(Refusal::Graph(GraphFault::Malformed, Side::First));
    }
    if version >= versions::slots::VERSIONS {
        return Err(Refusal::WrongVersion);
    }
    if versions::slots::length_in(&slots, version) == 0 {
        return Err(Refusal::WrongVersion);
    }
    gathering::parts::put_length(version * versions::slots::SLOT, 0, &mut slots);
    way::go(n, table, sets, cells, &slots, &mut part, state)
}

// Writes the record of a version among the programs of a store.
pub fn read_among<'a>(
    n: usize,
    table: &[u8],
    sets: &'a [u64; bounds::sets::WORDS],
    cells: &'a [[u8; 64]],
    store: &[u8],
    version: usize,
    out: &mut [u8],
) -> Result<usize, Refusal>
    requires { OpenedFor true n table.now sets.now cells.now × (length store.now ≤ 16384) }
    ensures { resulting (told result) out.new ≡ given out.old (on_held (held n table.now store.now) (λ ps. on_present (get_or ps version none) made)) }
{
    let mut slots = [0u8; versions::slots::SLOTS];
    let mut part = [0u8; versions::slots::SLOT];
    let mut state = [0u8; MOST];
    let room = store.len();
    if !way::is_held(
        n,
        table,
        sets,
        cells,
        store,
        &mut slots,
        &mut part,
        &mut state[..room],
    ) {
        return Err(Refusal::Graph(GraphFault::Malformed, Side::First));
    }
    if version >= versions::slots::VERSIONS {
        return Err(Refusal::WrongVersion);
    }
    let length = versions::slots::length_in(&slots, version);
    if length == 0 {
        return Err(Refusal::WrongVersion);
    }
    if out.len() < length {
        return Err(Refusal::NoRoom);
    }
    let start = version * versions::slots::SLOT + 2;
    gathering::parts::copy(&slots[start..start + length], 0, out);
    Ok(length)
}

// Writes the record of a program, the second graph.
fn write_program(n: usize, bytes: &[u8], output: &mut [u8]) -> Result<usize, Refusal>
    requires { (n ≤ 64) × (length output.old ≡ 4854) }
    ensures { Programmed n bytes.now (told result) output.new }
{
    let mut graph = [0u16; layout::LONGEST];
    if let Err(fault) = record::reading::read(n, bytes, &mut graph) {
        return Err(Refusal::Graph(fault, Side::Second));
    }
    engine::rewriting::of_graph(&graph, output)
}
