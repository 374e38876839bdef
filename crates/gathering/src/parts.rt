// Where the parts of a gathering's state stand, whatever its bytes.

ghost use Rattle.std.specs.Prelude.{◌≡◌, ◌++◌, ◌+◌, ◌≤◌, ◌<◌, drop, get_or, length, take};
ghost use Rattle.std.proofs.Math.Seq.{paste};
ghost use Rattle.gathering.specs.Gathering.{length_at, two_bytes};
ghost use Rattle.gathering.specs.Parts.{PartsOf, Span};

// The number of types, where the table starts and ends, where the room starts, how many bytes are gathered, and where they end. A part that is
// cut off ends at the end of the state.
#[derive(Clone, Copy)]
pub struct Parts {
    pub types: usize,
    pub start: usize,
    pub end: usize,
    pub room: usize,
    pub gathered: usize,
    pub last: usize,
}

// The end of the next `count` bytes from `at` on, or the end of the bytes where there are fewer.
pub fn end_of(bytes: &[u8], at: usize, count: usize) -> usize
    requires { at ≤ length bytes.now }
    ensures { Span bytes.now at count result }
{
    if count < bytes.len() - at {
        return at + count;
    }
    bytes.len()
}

// The byte at a place, 0 past the end.
fn byte_at(bytes: &[u8], at: usize) -> usize
    ensures { (result ≡ get_or bytes.now at 0) × (result < 256) }
{
    bytes.get(at).copied().unwrap_or(0) as usize
}

// The length that stands in two bytes, low byte first.
pub fn length_at(bytes: &[u8], at: usize) -> usize
    requires { at ≤ length bytes.now }
    ensures { result ≡ length_at (drop at bytes.now) }
{
    byte_at(bytes, at) + 256 * byte_at(bytes, at + 1)
}

// Finds the parts of a state.
pub fn find(state: &[u8]) -> Parts
    ensures { PartsOf state.now result }
{
    let types = byte_at(state, 0);
    let start = end_of(state, 0, 1);
    let end = end_of(state, start, 8 * types);
    let room = end_of(state, end, 2);
    let gathered = length_at(state, end);
    let last = end_of(state, room, gathered);
    Parts {
        types,
        start,
        end,
        room,
        gathered,
        last,
    }
}

// Writes a length into two bytes from a place on.
pub fn put_length(at: usize, count: usize, state: &mut [u8])
    requires { at + 2 ≤ length state.old }
    ensures { state.new ≡ take at state.old ++ (two_bytes count ++ drop (at + 2) state.old) }
{
    state[at] = (count % 256) as u8;
    state[at + 1] = (count / 256 % 256) as u8;
}

// Copies bytes into a state from a place on.
pub fn copy(bytes: &[u8], at: usize, state: &mut [u8])
    requires { at + length bytes.now ≤ length state.old }
    ensures { state.new ≡ paste state.old at bytes.now (length bytes.now) }
{
    for (i, &byte) in bytes.iter().enumerate() {
        state[at + i] = byte;
    }
}
