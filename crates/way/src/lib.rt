// The way of a store's programs (document 02, Paper 11) is an empty store into which the programs are put in version order. A buffer holds
// programs where their way ends in its first bytes. This crate goes the way and opens a buffer, and knows tables, records, the operations on them
// and the state of a store.

#![tactic(auto)]

ghost use Rattle.std.specs.Prelude.{◌≡◌, true, ℕ, ◌*◌, ◌≤◌, ◌<◌, length, drop, take};
ghost use Rattle.bounds.specs.Opening.{OpenedFor};
ghost use Rattle.replies.specs.Replies.{Length, told};
ghost use Rattle.replies.specs.Reply.{Bounded, resulting};
ghost use Rattle.gathering.specs.Gathering.{length_at};
ghost use Rattle.versions.specs.State.{joined, taken, way};
ghost use Rattle.versions.specs.Slots.{Absent, Parted, Slotted, measured_in, programs_in};
ghost use Rattle.way.specs.Promise.{Joins, Led, Opens, Steps};

use engine::generalizing::CommonPart;
use replies::Refusal;

// Opens a buffer: fills the slots with its programs and goes their way. Answers whether the way ends in the first bytes of the buffer.
pub fn is_held<'a>(
    n: usize,
    table: &[u8],
    sets: &'a [u64; bounds::sets::WORDS],
    cells: &'a [[u8; 64]],
    buffer: &[u8],
    slots: &mut [u8],
    part: &mut [u8],
    state: &mut [u8],
) -> bool
    requires { OpenedFor true n table.now sets.now cells.now × Absent slots.old 0 × Parted part.old × (length state.old ≡ length buffer.now) × (length buffer.now ≤ 16384) }
    ensures { Opens n table.now buffer.now result slots.new part.new state.new }
{
    if buffer.len() < 2 {
        return false;
    }
    if !versions::unpacking::unpack(n, table, buffer, slots) {
        return false;
    }
    let Ok(used) = go(n, table, sets, cells, slots, part, state) else {
        return false;
    };
    buffer.starts_with(&state[..used])
}

// Goes the way of the programs, in a room of the state's length. The answer tells how many bytes are used, or is 11, 13 or 21 where the way
// stops.
pub fn go<'a>(
    n: usize,
    table: &[u8],
    sets: &'a [u64; bounds::sets::WORDS],
    cells: &'a [[u8; 64]],
    slots: &[u8],
    part: &mut [u8],
    state: &mut [u8],
) -> Result<usize, Refusal>
    requires { OpenedFor true n table.now sets.now cells.now × Slotted slots.now × Parted part.old × (2 ≤ length state.old) × (length state.old ≤ 16384) }
    ensures long { length state.new ≡ length state.old }
    ensures inside { Bounded (told result) (length state.old) }
    ensures parted { Parted part.new }
    ensures goes { taken (resulting (told result) state.new) ≡ way n table.now (length state.old) (programs_in slots.now) }
    ensures led { (used : ℕ) → (told result) ≡ Length used →
        Led n table.now (length state.old) (programs_in slots.now) 16 part.new (take used state.new) }
{
    gathering::parts::put_length(0, 0, part);
    gathering::parts::put_length(0, 0, state);
    let mut used = 2;
    for version in 0..versions::slots::VERSIONS {
        if versions::slots::length_in(slots, version) != 0 {
            used = step(n, table, sets, cells, slots, version, part, state)?;
        }
    }
    Ok(used)
}

// One step of the way: joins the program of a version to the common part and makes the new state.
pub fn step<'a>(
    n: usize,
    table: &[u8],
    sets: &'a [u64; bounds::sets::WORDS],
    cells: &'a [[u8; 64]],
    slots: &[u8],
    version: usize,
    part: &mut [u8],
    state: &mut [u8],
) -> Result<usize, Refusal>
    requires { OpenedFor true n table.now sets.now cells.now × Slotted slots.now ×
        (version < 16) × (1 ≤ length_at (drop (version * 4856) slots.now)) × Parted part.old × (2 ≤ length state.old) × (length state.old ≤ 16384) }
    ensures { Steps n table.now (programs_in slots.now) version part.old state.old (told result) part.new state.new }
{
    let start = version * versions::slots::SLOT + 2;
    let length = versions::slots::length_in(slots, version);
    let size = join(n, table, sets, cells, &slots[start..start + length], part)?;
    versions::packing::pack(n, table, slots, version + 1, &part[2..2 + size], state)
}

// Joins a program to the common part so far. Where there is none, the program becomes the common part. The answer tells the length of the common
// part, or is 11 where it is too large.
fn join<'a>(
    n: usize,
    table: &[u8],
    sets: &'a [u64; bounds::sets::WORDS],
    cells: &'a [[u8; 64]],
    program: &[u8],
    part: &mut [u8],
) -> Result<usize, Refusal>
    requires { OpenedFor true n table.now sets.now cells.now × (1 ≤ length program.now) × (length program.now ≤ 4854) × Parted part.old }
    ensures { Joins (joined n table.now (measured_in part.old) program.now) (told result) part.new }
{
    let length = gathering::parts::length_at(part, 0);
    if length == 0 {
        versions::slots::put_measured(program, 0, part);
        return Ok(program.len());
    }
    let mut record = [0u8; gathering::LONGEST];
    let size = engine::operation::of_records::<CommonPart>(
        n,
        table,
        &table[..0],
        sets,
        cells,
        &part[2..2 + length],
        program,
        &mut record,
    )?;
    versions::slots::put_measured(&record[..size], 0, part);
    Ok(size)
}
