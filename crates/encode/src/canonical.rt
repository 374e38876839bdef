// Writes a graph as its record in the one written form, numbered by first visit. With a second output it also writes marks of the links,
// in record order. The results of rewriting, common part, combination and difference are written here.

ghost use Rattle.std.specs.Prelude.{◌≡◌, ◌≤◌, eqb, length};
ghost use Rattle.graphs.specs.Number.{canonical};
ghost use Rattle.graphs.specs.Reasons.{written_order};
ghost use Rattle.layout.specs.Layout.{Sound, graph_in, longest};
ghost use Rattle.encode.specs.Encode.{yielding, written_out};
ghost use Rattle.encode.specs.Marks.{Measured, marks_along, marked_out, noting};

use crate::{Unmarked, Unwritten, marks};

// How many nodes and links of a graph are written, and the record's length.
#[derive(Clone, Copy)]
pub struct Dimensions {
    pub count: usize,
    pub links: usize,
    pub length: usize,
}

// Numbers a graph and measures its record, unless the graph is too large for one.
fn measure(
    graph: &[u16],
    numbers: &mut [u16; 510],
    visited: &mut [u16; 255],
) -> Result<Dimensions, Unwritten>
    requires sound { Sound graph.now }
    requires numbers_len { (length numbers.old ≡ 510) × (length visited.old ≡ 255) }
    ensures { Measured graph.now numbers.new visited.new result }
{
    let Some(count) = visits::numbering::number(graph, numbers, visited) else {
        return Err(Unwritten::TooLarge); // more than 255 nodes
    };
    let extent = encoder::extent_of(graph, visited, count);
    if 2048 < extent.links {
        return Err(Unwritten::TooLarge);
    }
    let length = 1 + 9 * count + 2 * extent.ranges + extent.links;
    Ok(Dimensions {
        count,
        links: extent.links,
        length,
    })
}

// Writes a graph as its written record.
pub fn write(graph: &[u16], out: &mut [u8]) -> Result<usize, Unwritten>
    requires { Sound graph.now }
    ensures { yielding result out.new ≡ written_out (canonical eqb (graph_in graph.now)) out.old }
{
    let mut numbers = [0u16; 510];
    let mut visited = [0u16; 255];
    let sizes = measure(graph, &mut numbers, &mut visited)?;
    if out.len() < sizes.length {
        return Err(Unwritten::NoRoom);
    }
    encoder::encode(graph, &numbers, &visited, sizes.count, out);
    Ok(sizes.length)
}

// Writes a graph as its written record, and to `beside` the marks of its links, in record order. In `marks`, a mark stands at the place
// that its link has in `graph`.
pub fn write_marked<'a>(
    graph: &'a [u16],
    marks: &'a [u8; layout::LONGEST],
    out: &mut [u8],
    beside: &mut [u8],
) -> Result<usize, Unmarked>
    requires sound { Sound graph.now }
    requires graph_len_bound { (length graph.now ≤ longest) × (length marks.now ≡ longest) }
    ensures { noting result out.new beside.new ≡
        marked_out (canonical eqb (graph_in graph.now))
        (marks_along graph.now marks.now (written_order eqb (graph_in graph.now))) out.old beside.old }
{
    let mut numbers = [0u16; 510];
    let mut visited = [0u16; 255];
    let sizes = measure(graph, &mut numbers, &mut visited)?;
    if out.len() < sizes.length {
        return Err(Unmarked::Unwritten(Unwritten::NoRoom));
    }
    if beside.len() < sizes.links {
        return Err(Unmarked::NoMarkRoom);
    }
    encoder::encode(graph, &numbers, &visited, sizes.count, out);
    marks::put_marks(graph, marks, &visited, sizes.count, beside);
    Ok(sizes.length)
}
