// This crate renumbers the nodes of a graph in words as its written record numbers them. The rows are those that the encoder writes, in
// the same order. This serves where the graph is computed on next and no record is asked for. The crate knows graphs in words; it writes
// no bytes and knows no table.

#![tactic(auto)]

ghost use Rattle.std.specs.Prelude.{◌+◌, ◌*◌, ◌≤◌, eqb, length, take};
ghost use Rattle.graphs.specs.Number.{canonical};
ghost use Rattle.layout.specs.Layout.{Sound, graph_in, header, longest};
ghost use Rattle.encoder.specs.NumberedRows.{degree, degrees};
ghost use Rattle.numbering.specs.Copies.{Closed, Numbered, Renumbers, RowCopied, RowsCopied};

// Copies the row of node v to the words from `at` on, with the targets' numbers. Answers the next place.
fn copy_row<'a>(
    graph: &'a [u16],
    numbers: &'a [u16; 510],
    v: usize,
    at: usize,
    new: &mut [u16],
) -> usize
    requires numbered { Numbered graph.now numbers.now v }
    requires v_bound { (at + header + degree graph.now v ≤ longest) × (at + header + degree graph.now v ≤ length new.old) }
    ensures { RowCopied graph.now numbers.now v new.old at new.new result }
{
    layout::put_label(new, at, layout::label_at(graph, v));
    let mut next = at + layout::HEADER;
    for &link in layout::links(graph, v) {
        let target = layout::target(link);
        let number = numbers[target];
        new[next] = layout::link(layout::feature(link), number);
        next += 1;
    }
    next
}

// Copies the rows of the first `count` nodes visited.
fn copy_rows<'a>(
    graph: &'a [u16],
    numbers: &'a [u16; 510],
    visited: &'a [u16; 255],
    count: usize,
    new: &mut [u16],
)
    requires closed { Closed graph.now numbers.now visited.now count }
    requires visited_in_bounds { count + 2 + header * count + degrees graph.now (take count visited.now) ≤ length new.old }
    ensures { RowsCopied graph.now numbers.now visited.now count new.new }
{
    let mut at = count + 2;
    new[1] = at as u16;
    for (i, &v) in visited[..count].iter().enumerate() {
        at = copy_row(graph, numbers, v as usize, at, new);
        new[i + 2] = at as u16;
    }
    new[0] = count as u16;
}

// Renumbers a graph as its written record does: the rows come in the order of the numbers, with the targets' numbers. Answers whether the
// graph can be written.
pub fn renumber(graph: &[u16], new: &mut [u16]) -> bool
    requires sound { Sound graph.now }
    requires graph_in_bounds { length graph.now ≤ length new.old }
    ensures { Renumbers (canonical eqb (graph_in graph.now)) result new.new }
{
    let mut numbers = [0u16; 510];
    let mut visited = [0u16; 255];
    let Some(count) = visits::numbering::number(graph, &mut numbers, &mut visited) else {
        return false;
    };
    let extent = encoder::extent_of(graph, &visited, count);
    if 2048 < extent.links {
        return false;
    }
    copy_rows(graph, &numbers, &visited, count, new);
    true
}
