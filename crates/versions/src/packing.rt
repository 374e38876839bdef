// Packs the state of a step: the map of its versions, their common part, and each program's difference from it.

ghost use Rattle.std.specs.Prelude.{◌≡◌, true, ◌∷◌, ◌*◌, ◌+◌, ◌≤◌, ◌<◌, length, take};
ghost use Rattle.lattice.specs.Table.{accepted};
ghost use Rattle.replies.specs.Reply.{Bounded, resulting};
ghost use Rattle.calls.specs.Calls.{differing};
ghost use Rattle.versions.specs.State.{Programs, stored, taken};
ghost use Rattle.versions.specs.Slots.{Slotted, programs_in, slot_at};
ghost use Rattle.versions.specs.Promise.{onward, packed, standing};
ghost use Rattle.replies.specs.Replies.{told};

use difference::Options;
use replies::Refusal;

// Writes the state of the first `count` versions with their common part. The answer tells how many bytes are used, or is 13 or 21, in this order.
pub fn pack(
    n: usize,
    table: &[u8],
    slots: &[u8],
    count: usize,
    part: &[u8],
    state: &mut [u8],
) -> Result<usize, Refusal>
    requires { (accepted n table.now ≡ true) × Slotted slots.now × (count ≤ 16) × (length part.now ≤ 4854) × (2 ≤ length state.old) × (length state.old ≤ 16384) }
    ensures long { length state.new ≡ length state.old }
    ensures inside { Bounded (told result) (length state.old) }
    ensures packs { taken (resulting (told result) state.new) ≡
        stored n table.now (length state.old) part.now (take count (programs_in slots.now)) }
{
    gathering::parts::put_length(0, crate::slots::map_of(slots, count), state);
    crate::slots::put_measured(part, 2, state);
    let mut at = 4 + part.len();
    for version in 0..count {
        at = pack_version(n, table, slots, version, part, at, state)?;
    }
    if state.len() < at {
        return Err(Refusal::NoStoreRoom);
    }
    Ok(at)
}

// Writes the difference of a version, if the version exists, from `at` on. The answer tells the place behind it, which is past the end where
// there is no room.
fn pack_version(
    n: usize,
    table: &[u8],
    slots: &[u8],
    version: usize,
    part: &[u8],
    at: usize,
    state: &mut [u8],
) -> Result<usize, Refusal>
    requires { (accepted n table.now ≡ true) × Slotted slots.now × (version < 16) × (at ≤ 4858 + version * 4856) }
    ensures long { length state.new ≡ length state.old }
    ensures near { Bounded (told result) (4858 + (version + 1) * 4856) }
    ensures goes { (ps : Programs) →
        packed n table.now (length state.old) (standing at state.old) part.now (slot_at slots.now version ∷ ps) ≡
        onward (told result) (λ next. packed n table.now (length state.old) (standing next state.new) part.now ps) }
{
    let length = crate::slots::length_in(slots, version);
    if length == 0 {
        return Ok(at);
    }
    let start = version * crate::slots::SLOT + 2;
    let mut record = [0u8; gathering::LONGEST];
    let size = part_from(n, table, part, &slots[start..start + length], &mut record)?;
    crate::slots::put_measured(&record[..size], at, state);
    Ok(at + 2 + size)
}

// Writes the difference of a program from a common part.
fn part_from(
    n: usize,
    table: &[u8],
    part: &[u8],
    program: &[u8],
    output: &mut [u8],
) -> Result<usize, Refusal>
    requires { accepted n table.now ≡ true }
    ensures { resulting (told result) output.new ≡ differing n table.now part.now program.now output.old }
{
    let mut none = [0u8; 0];
    let order = link_orders::by_number();
    let options = Options {
        order,
        explained: false,
    };
    engine::differing::of_records(n, table, options, part, program, output, &mut none)
}
