// Parses a record's bytes into the words of a graph, or tells that they are no record (refusal 4). Reading a record begins so.

ghost use Rattle.std.specs.Prelude.{◌≡◌, ◌+◌};
ghost use Rattle.layout.specs.Layout.{header};
ghost use Rattle.decode.specs.Answers.{Parses, Roomy};
ghost use Rattle.decode.specs.Storing.{RowsFit, TookLinks, TookRow};

use crate::reader::Reader;

// The most links of a record.
pub const LINKS: usize = 2048;

// The most bytes of a short record, whose graph has room in `layout::SHORT` words.
pub const SHORT: usize = 510;

// Takes a target byte for each set bit of the map, lowest first, and stores the links from place `at` on, all below place `limit`. Answers
// the place behind the last link, or that the bytes or the room for links run out.
fn take_links(
    reader: &mut Reader,
    map: u64,
    graph: &mut [u16],
    at: usize,
    limit: usize,
) -> Option<usize>
    requires { RowsFit reader.old.bytes.now reader.old.next at limit graph.old }
    ensures same { reader.new.bytes.now ≡ reader.old.bytes.now }
    ensures took { TookLinks map reader.old.bytes.now reader.old.next at limit graph.old result reader.new.next graph.new }
{
    let mut left = map;
    let mut end = at;
    while left != 0 {
        if limit <= end {
            return None;
        }
        let target = reader.byte()?;
        graph[end] = layout::link(left.trailing_zeros() as u16, target as u16);
        left = lattice::words::without_lowest(left);
        end += 1;
    }
    Some(end)
}

// Takes the row at the reader's position, and stores it from place `at` on, its links below place `limit`. Answers the place behind the
// row, or that the bytes or the room for links run out.
fn take_row(reader: &mut Reader, graph: &mut [u16], at: usize, limit: usize) -> Option<usize>
    requires { RowsFit reader.old.bytes.now reader.old.next (at + header) limit graph.old }
    ensures same { reader.new.bytes.now ≡ reader.old.bytes.now }
    ensures took { TookRow reader.old.bytes.now reader.old.next at limit graph.old result reader.new.next graph.new }
{
    let label = reader.label()?;
    let map = reader.map()?;
    layout::put_label(graph, at, label);
    take_links(reader, map, graph, at + layout::HEADER, limit)
}

// Whether the bytes are a record; if so, the words hold its graph. The first row stands behind the words that say where rows begin.
// `limit` caps the links at 2,048; each row adds a header. The reader has to be at the end of the bytes behind the last row.
pub fn parse(bytes: &[u8], graph: &mut [u16]) -> bool
    requires { Roomy bytes.now graph.old }
    ensures { Parses bytes.now result graph.new }
{
    let mut reader = Reader::new(bytes);
    let Some(count) = reader.byte() else {
        return false;
    };
    let nodes = count as usize;
    if nodes == 0 {
        return false;
    }
    let mut at = nodes + 2;
    let mut limit = at + LINKS;
    graph[0] = nodes as u16;
    graph[1] = at as u16;
    for v in 0..nodes {
        limit += layout::HEADER;
        let Some(end) = take_row(&mut reader, graph, at, limit) else {
            return false;
        };
        graph[v + 2] = end as u16;
        at = end;
    }
    reader.is_at_end()
}
