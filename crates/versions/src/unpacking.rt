// Unpacks the programs of a buffer: each is the common part combined with a difference.

ghost use Rattle.std.specs.Prelude.{◌≡◌, true, false, cond, ◌≤◌, ◌<◌, length};
ghost use Rattle.std.proofs.Math.Option.{none, some};
ghost use Rattle.lattice.specs.Table.{accepted};
ghost use Rattle.bounds.specs.Opening.{OpenedFor};
ghost use Rattle.versions.specs.State.{combination, restored};
ghost use Rattle.versions.specs.Slots.{Absent, Slotted, programs_in};
ghost use Rattle.versions.specs.Promise.{Restores, Unpacks};

use engine::unifying::Combination;

// Fills the slots with the programs of a buffer. Answers whether the bytes can be those of a state.
pub fn unpack(n: usize, table: &[u8], buffer: &[u8], slots: &mut [u8]) -> bool
    requires { (accepted n table.now ≡ true) × (2 ≤ length buffer.now) × Absent slots.old 0 }
    ensures { Unpacks n table.now buffer.now result slots.new }
{
    let bits = gathering::parts::length_at(buffer, 0);
    if bits == 0 {
        return true;
    }
    let end = crate::slots::end_at(buffer, 2);
    if end == 0 {
        return false;
    }
    let mut sets = [0u64; bounds::sets::WORDS];
    let mut cells = [[0u8; 64]; 64];
    if bounds::open(n, table, false, &mut sets, &mut cells).is_err() {
        return false;
    }
    restore_all(
        n,
        table,
        &sets,
        &cells,
        bits,
        &buffer[4..end],
        &buffer[end..],
        slots,
    )
}

// Restores the programs of the versions in a map. The differences stand one after another, each behind its length.
fn restore_all<'a>(
    n: usize,
    table: &[u8],
    sets: &'a [u64; bounds::sets::WORDS],
    cells: &'a [[u8; 64]],
    bits: usize,
    part: &[u8],
    differences: &[u8],
    slots: &mut [u8],
) -> bool
    requires { OpenedFor false n table.now sets.now cells.now × Absent slots.old 0 }
    ensures slotted { Slotted slots.new }
    ensures differences_value { restored n table.now part.now 16 bits differences.now ≡ cond result (some (programs_in slots.new)) none }
{
    let mut left = bits;
    let mut at = 0;
    for version in 0..crate::slots::VERSIONS {
        if left % 2 == 1 {
            let end = crate::slots::end_at(differences, at);
            if end == 0 {
                return false;
            }
            if !restore(
                n,
                table,
                sets,
                cells,
                part,
                &differences[at + 2..end],
                version,
                slots,
            ) {
                return false;
            }
            at = end;
        }
        left = left / 2;
    }
    true
}

// Fills the slot of a version with its program: the common part combined with a difference.
fn restore<'a>(
    n: usize,
    table: &[u8],
    sets: &'a [u64; bounds::sets::WORDS],
    cells: &'a [[u8; 64]],
    part: &[u8],
    difference: &[u8],
    version: usize,
    slots: &mut [u8],
) -> bool
    requires { OpenedFor false n table.now sets.now cells.now × Absent slots.old version × (version < 16) }
    ensures { Restores (combination n table.now difference.now part.now) version slots.old result slots.new }
{
    let mut record = [0u8; gathering::LONGEST];
    let combined = engine::operation::of_records::<Combination>(
        n,
        table,
        &table[..0],
        sets,
        cells,
        difference,
        part,
        &mut record,
    );
    let Ok(length) = combined else {
        return false;
    };
    crate::slots::put_measured(&record[..length], version * crate::slots::SLOT, slots);
    true
}
