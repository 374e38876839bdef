// Reads a record beside a list that gives for each feature the broadest type that may have it (document 02, Paper 9). The record is
// refused as without a list, then by 18 where the graph has a link that the list forbids.

ghost use Rattle.std.specs.Prelude.{◌≡◌, true, ◌≤◌, ◌<◌};
ghost use Rattle.layout.specs.Layout.{label_at, links_at, rows_of, size};
ghost use Rattle.decode.specs.Answers.{Roomy};
ghost use Rattle.record.specs.Appropriate.{list_accepted, row_appropriate, appropriate, reading_appropriate, Listed, Typed};
ghost use Rattle.record.specs.Reads.{ReadsAs};

use crate::GraphFault;

// Whether a list has 64 entries, each of them one of the n types.
pub fn is_list_accepted(n: usize, list: &[u8]) -> bool
    ensures { result ≡ list_accepted n list.now }
{
    if list.len() != 64 {
        return false;
    }
    for entry in list {
        if n <= *entry as usize {
            return false;
        }
    }
    true
}

// Whether node v may have each of its features.
fn is_row_appropriate(table: &[u8], list: &[u8], graph: &[u16], v: usize) -> bool
    requires listed { Listed list.now }
    requires typed { Typed graph.now × (v < size graph.now) }
    ensures { result ≡ row_appropriate table.now list.now (label_at graph.now v, links_at graph.now v) }
{
    let label = layout::label_at(graph, v);
    let kind = label.kind as usize;
    for link in layout::links(graph, v) {
        let f = layout::feature(*link) as usize;
        if !lattice::words::is_below(table, kind, list[f] as usize) {
            return false;
        }
    }
    true
}

// Whether every node may have each of its features.
fn is_appropriate(table: &[u8], list: &[u8], graph: &[u16]) -> bool
    requires listed { Listed list.now }
    requires typed { Typed graph.now }
    ensures { result ≡ appropriate table.now list.now (rows_of graph.now) }
{
    let nodes = graph[0] as usize;
    for v in 0..nodes {
        if !is_row_appropriate(table, list, graph, v) {
            return false;
        }
    }
    true
}

// Reads a record over a table with n types, beside an accepted list, into the lent words. What the words hold after a refusal is not
// specified.
pub fn read(
    n: usize,
    table: &[u8],
    list: &[u8],
    bytes: &[u8],
    graph: &mut [u16],
) -> Result<(), GraphFault>
    requires n_bound { (n ≤ 64) × (list_accepted n list.now ≡ true) }
    requires roomy { Roomy bytes.now graph.old }
    ensures { ReadsAs n (reading_appropriate n table.now list.now bytes.now) result graph.new }
{
    crate::reading::read(n, bytes, graph)?;
    if !is_appropriate(table, list, graph) {
        return Err(GraphFault::Inappropriate);
    }
    Ok(())
}
