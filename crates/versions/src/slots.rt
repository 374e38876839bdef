// Records behind their lengths, which are two bytes each, low byte first, and the programs of a store in 16 slots of such records.

ghost use Rattle.std.specs.Prelude.{◌≡◌, true, ◌*◌, ◌≤◌, ◌<◌, drop, length, take};
ghost use Rattle.gathering.specs.Gathering.{length_at};
ghost use Rattle.versions.specs.State.{map_of};
ghost use Rattle.versions.specs.Slots.{Slotted, programs_in};
ghost use Rattle.versions.specs.Promise.{EndsAt, NoneFrom, Puts};

// The number of versions, the bytes of a slot, and those of all slots. The programs stand in one array of fixed size, since the engine has no heap.
pub const VERSIONS: usize = 16;

pub const SLOT: usize = 4856;

pub const SLOTS: usize = 77696;

// Writes bytes behind their length from a place on, if there is room for both.
pub fn put_measured(bytes: &[u8], at: usize, state: &mut [u8])
    requires { (length bytes.now ≤ 4854) × (at ≤ 131072) }
    ensures { Puts bytes.now at state.old state.new }
{
    if state.len() < at + 2 + bytes.len() {
        return;
    }
    gathering::parts::put_length(at, bytes.len(), state);
    gathering::parts::copy(bytes, at + 2, state);
}

// The place behind the record that stands at `at` behind its length; 0 where the bytes end early.
pub fn end_at(bytes: &[u8], at: usize) -> usize
    requires { at ≤ length bytes.now }
    ensures { EndsAt bytes.now at result }
{
    let length = gathering::parts::length_at(bytes, at);
    if bytes.len() - at < 2 + length {
        return 0;
    }
    at + 2 + length
}

// The length of the record in a slot; 0 where the version is absent.
pub fn length_in(slots: &[u8], version: usize) -> usize
    requires { Slotted slots.now × (version < 16) }
    ensures { (result ≡ length_at (drop (version * 4856) slots.now)) × (result ≤ 4854) }
{
    gathering::parts::length_at(slots, version * SLOT)
}

// Whether no version from this one on exists.
pub fn is_none_from(slots: &[u8], version: usize) -> bool
    requires { Slotted slots.now × (version ≤ 16) }
    ensures { result ≡ true → NoneFrom version 16 (programs_in slots.now) }
{
    for v in version..VERSIONS {
        if length_in(slots, v) != 0 {
            return false;
        }
    }
    true
}

// The map of the first `count` versions: bit v is set where version v exists.
pub fn map_of(slots: &[u8], count: usize) -> usize
    requires { Slotted slots.now × (count ≤ 16) }
    ensures { (result ≡ map_of (take count (programs_in slots.now))) × (result < 65536) }
{
    let mut bits = 0;
    for v in (0..count).rev() {
        bits = bits * 2;
        if length_in(slots, v) != 0 {
            bits += 1;
        }
    }
    bits
}
