// This crate encodes a graph in words, whose nodes are numbered, as a record's bytes. There is one encoder for every result. The crate knows
// graphs in words and a record's bytes. It does not number nodes, and it knows no table.

#![tactic(auto)]

ghost use Rattle.std.specs.Prelude.{length, take, ◌≡◌, ◌+◌, ◌≤◌, ◌<◌};
ghost use Rattle.std.proofs.lemmas.List.Edits.{sets};
ghost use Rattle.layout.specs.Builder.{stated};
ghost use Rattle.layout.specs.Layout.{Sound, size};
ghost use Rattle.encoder.specs.Encode.{encoded_label, encoded_row, encoded};
ghost use Rattle.encoder.specs.NumberedRows.{Visited, degrees, low_bytes, numbered_row, numbered_rows, range_count, ranges};

use layout::Label;

// How many links some nodes have, and how many of the nodes have a range that is written.
#[derive(Clone, Copy)]
pub struct Extent {
    pub links: usize,
    pub ranges: usize,
}

// 1 where a label's range is written, else 0.
fn range_count(label: Label) -> usize
    ensures { result ≡ range_count (stated label) }
{
    if layout::is_full(label) {
        return 0;
    }
    1
}

// The extent of the first `count` nodes visited.
pub fn extent_of<'a>(graph: &'a [u16], visited: &'a [u16; 255], count: usize) -> Extent
    requires { Visited graph.now visited.now count }
    ensures links_value { result.links ≡ degrees graph.now (take count visited.now) }
    ensures ranges_value { result.ranges ≡ ranges graph.now (take count visited.now) }
{
    let mut links = 0;
    let mut ranges = 0;
    for &v in &visited[..count] {
        let v = v as usize;
        links += layout::links(graph, v).len();
        ranges += range_count(layout::label_at(graph, v));
    }
    Extent { links, ranges }
}

// Writes a label at a place. Answers the next place.
fn put_label(label: Label, at: usize, out: &mut [u8]) -> usize
    requires kind_bound { label.kind < 128 }
    requires label_in_bounds { at + length (encoded_label (stated label)) ≤ length out.old }
    ensures value { result ≡ at + length (encoded_label (stated label)) }
    ensures out_after { out.new ≡ sets out.old at (encoded_label (stated label)) }
{
    if layout::is_full(label) {
        out[at] = label.kind;
        return at + 1;
    }
    out[at] = 128 + label.kind;
    out[at + 1] = label.lowest;
    out[at + 2] = label.highest;
    at + 3
}

// Writes the row of node v from a place on: the label, the feature map and the targets' numbers. Answers the next place.
fn encode_row<'a>(
    graph: &'a [u16],
    numbers: &'a [u16; 510],
    v: usize,
    at: usize,
    out: &mut [u8],
) -> usize
    requires sound { Sound graph.now × (v < size graph.now) }
    requires v_in_bounds { at + length (encoded_row (numbered_row graph.now numbers.now v)) ≤ length out.old }
    ensures value { result ≡ at + length (encoded_row (numbered_row graph.now numbers.now v)) }
    ensures out_after { out.new ≡ sets out.old at (encoded_row (numbered_row graph.now numbers.now v)) }
{
    let map_at = put_label(layout::label_at(graph, v), at, out);
    let mut map: u64 = 0;
    let mut next = map_at + 8;
    for &link in layout::links(graph, v) {
        map = map | (1u64 << (layout::feature(link) as u32));
        let target = layout::target(link);
        let number = numbers[target];
        out[next] = (number % 256) as u8;
        next += 1;
    }
    put_map(map, map_at, out);
    next
}

// Writes the eight bytes of a feature map from a place on, lowest byte first.
fn put_map(map: u64, at: usize, out: &mut [u8])
    requires { at + 8 ≤ length out.old }
    ensures { out.new ≡ sets out.old at (low_bytes 8 map) }
{
    let mut left = map;
    for i in 0..8 {
        out[at + i] = (left % 256) as u8;
        left = left / 256;
    }
}

// Writes the record: the node count, then the rows in the order of the numbers.
pub fn encode<'a>(
    graph: &'a [u16],
    numbers: &'a [u16; 510],
    visited: &'a [u16; 255],
    count: usize,
    out: &mut [u8],
)
    requires visited { Visited graph.now visited.now count }
    requires visited_in_bounds { length (encoded (numbered_rows graph.now numbers.now (take count visited.now))) ≤ length out.old }
    ensures { out.new ≡ sets out.old 0 (encoded (numbered_rows graph.now numbers.now (take count visited.now))) }
{
    out[0] = (count % 256) as u8;
    let mut at = 1;
    for &node in &visited[..count] {
        at = encode_row(graph, numbers, node as usize, at, out);
    }
}
