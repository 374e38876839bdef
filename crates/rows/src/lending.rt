// Makes a planning table of a graph in words: its rows and its node bytes. The nodes keep the numbers that they have in the words.

ghost use Rattle.std.specs.Prelude.{◌≡◌, ◌*◌, ◌≤◌, ◌<◌, length};
ghost use Rattle.graphs.specs.Large.{links_in};
ghost use Rattle.layout.specs.Layout.{rows_of, size};
ghost use Rattle.rows.specs.Rows.{filled, lent_nodes, lent_rows};
ghost use Rattle.rows.specs.Lending.{Lendable};

use crate::Row;

// How many links a graph has.
pub fn count_links(graph: &[u16]) -> usize
    requires { Lendable graph.now }
    ensures { result ≡ links_in (rows_of graph.now) }
{
    let nodes = graph[0] as usize;
    let rows = graph[nodes + 1] as usize - graph[1] as usize;
    rows - layout::HEADER * nodes
}

// Fills the first rows with those of a graph, sorted by parent and then by feature. The other rows stay, and all of them do where they are too few.
pub fn lend_rows(graph: &[u16], rows: &mut [Row])
    requires { Lendable graph.now }
    ensures enough { links_in (rows_of graph.now) ≤ length rows.old → rows.new ≡ filled (lent_rows (rows_of graph.now)) rows.old }
    ensures few { length rows.old < links_in (rows_of graph.now) → rows.new ≡ rows.old }
{
    if rows.len() < count_links(graph) {
        return;
    }
    let count = graph[0] as usize;
    let mut next = 0;
    for v in 0..count {
        let begin = layout::links_from(graph, v);
        let end = graph[v + 2] as usize;
        for &word in &graph[begin..end] {
            rows[next] = Row {
                parent: v as u8,
                feature: layout::feature(word) as u8,
                target: layout::target(word) as u8,
            };
            next += 1;
        }
    }
}

// Writes three bytes for each node: its type, its lowest and its highest level.
pub fn lend_nodes(graph: &[u16], nodes: &mut [u8])
    requires { Lendable graph.now × (size graph.now * 3 ≤ length nodes.old) }
    ensures { nodes.new ≡ filled (lent_nodes (rows_of graph.now)) nodes.old }
{
    let count = graph[0] as usize;
    for v in 0..count {
        let label = layout::label_at(graph, v);
        nodes[v * 3] = label.kind;
        nodes[v * 3 + 1] = label.lowest;
        nodes[v * 3 + 2] = label.highest;
    }
}
