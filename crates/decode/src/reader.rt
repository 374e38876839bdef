// The reader of a record keeps the record's bytes and the position of the next byte together. The reader takes a byte, a feature map or a
// label and moves behind it. One reader walks over the whole record. `byte_from` and `map_from` tell what a reader takes at a position, and
// the position behind it.

ghost use Rattle.std.specs.Prelude.{ℕ, ◌+◌, ◌<◌, ◌≤◌, ◌≡◌, ◌↔◌, IsTrue, drop, length, slice_index};
ghost use Rattle.decode.specs.Word.{word_of};
ghost use Rattle.decode.specs.Reader.{ByteStep, LabelStep, MapStep, byte_step, map_step};

use layout::Label;

// A record's bytes and the position of the next byte, which is the end where no byte is left.
#[derive(Clone, Copy)]
pub struct Reader<'a> {
    pub bytes: &'a [u8],
    pub next: usize,
    ghost inside: { next ≤ length bytes.now },
    ghost small: { (i : ℕ) → slice_index bytes.now i < 256 },
}

impl<'a> Reader<'a> {
    // A reader at the first byte.
    pub fn new(bytes: &'a [u8]) -> Self
        ensures same { result.bytes.now ≡ bytes.now }
        ensures start { result.next ≡ 0 }
    {
        Reader { bytes, next: 0 }
    }

    // Whether no byte is left.
    pub fn is_at_end(&self) -> bool
        ensures { IsTrue result ↔ (length self.now.bytes.now ≤ self.now.next) }
    {
        self.bytes.len() <= self.next
    }

    // Takes the next byte, or tells that the record ends.
    pub fn byte(&mut self) -> Option<u8>
        ensures same { self.new.bytes.now ≡ self.old.bytes.now }
        ensures step { ByteStep self.old.bytes.now self.old.next result self.new.next }
    {
        let (byte, next) = byte_from(self.bytes, self.next)?;
        self.next = next;
        Some(byte)
    }

    // Takes the next eight bytes as a feature map, or tells that fewer are left.
    pub fn map(&mut self) -> Option<u64>
        ensures same { self.new.bytes.now ≡ self.old.bytes.now }
        ensures step { MapStep self.old.bytes.now self.old.next result self.new.next }
    {
        let (map, next) = map_from(self.bytes, self.next)?;
        self.next = next;
        Some(map)
    }

    // Takes a label: the type, and where its bit 7 is set the lowest and the highest level; or tells that the record ends before the label
    // does.
    pub fn label(&mut self) -> Option<Label>
        ensures same { self.new.bytes.now ≡ self.old.bytes.now }
        ensures step { LabelStep self.old.bytes.now self.old.next result self.new.next }
    {
        let kind = self.byte()?;
        if kind < 128 {
            return Some(Label {
                kind,
                lowest: 0,
                highest: 255,
            });
        }
        let lowest = self.byte()?;
        let highest = self.byte()?;
        Some(Label {
            kind: kind - 128,
            lowest,
            highest,
        })
    }
}

// The byte at a position and the position behind it, or that the bytes end.
pub fn byte_from(bytes: &[u8], at: usize) -> Option<(u8, usize)>
    ensures { result ≡ byte_step bytes.now at }
{
    let byte = *bytes.get(at)?;
    Some((byte, at + 1))
}

// The feature map of the eight bytes at a position and the position behind them, or that fewer bytes are left.
pub fn map_from(bytes: &[u8], at: usize) -> Option<(u64, usize)>
    ensures { result ≡ map_step bytes.now at }
{
    if bytes.len().saturating_sub(at) < 8 {
        return None;
    }
    Some((map_at(bytes, at), at + 8))
}

// The feature map at a place, bit f for feature f.
fn map_at(bytes: &[u8], at: usize) -> u64
    requires { at + 8 ≤ length bytes.now }
    ensures { result ≡ word_of 8 (drop at bytes.now) }
{
    u64::from_le_bytes(bytes[at..at + 8].try_into().unwrap())
}
