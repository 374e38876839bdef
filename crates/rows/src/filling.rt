// Makes the graph in words of a planning table, from its table of targets (`placing`) and the three bytes of each node.

ghost use Rattle.std.specs.Prelude.{◌≡◌, ◌+◌, ◌*◌, ◌≤◌, ◌<◌, length};
ghost use Rattle.layout.specs.Builder.{stated};
ghost use Rattle.layout.specs.Layout.{header, longest};
ghost use Rattle.rows.specs.Rows.{label_in, nodes_in};
ghost use Rattle.rows.specs.Filling.{Fillable, Filled, Labelled, RowFilled, placed_links};

use crate::placing;
use layout::Label;

// The label of node v, which its three bytes state.
fn label_in(nodes: &[u8], v: usize) -> Label
    requires { v * 3 + 2 < length nodes.now }
    ensures { stated result ≡ label_in nodes.now v }
{
    Label {
        kind: nodes[v * 3],
        lowest: nodes[v * 3 + 1],
        highest: nodes[v * 3 + 2],
    }
}

// Whether the labels of the nodes are such as a record can state: no type has bit 7. The loop goes by nodes and not by `chunks_exact`, since
// `label_in` reads the three bytes of a label here and in `fill_row`.
pub fn are_stated(nodes: &[u8]) -> bool
    ensures { Labelled nodes.now result }
{
    let count = nodes.len() / 3;
    for v in 0..count {
        let label = label_in(nodes, v);
        if 127 < label.kind {
            return false;
        }
    }
    true
}

// Stores the row of node v from a place on, its links lowest feature first. Answers the next place.
fn fill_row<'a>(
    nodes: &'a [u8],
    targets: &'a [u16; placing::PLACES],
    v: usize,
    at: usize,
    graph: &mut [u16; layout::LONGEST],
) -> usize
    requires fillable { Fillable nodes.now targets.now × (v < nodes_in nodes.now) }
    requires v_bound { at + header + length (placed_links targets.now v) ≤ longest }
    requires graph_len { length graph.old ≡ longest }
    ensures { RowFilled nodes.now targets.now v graph.old at graph.new result }
{
    let label = label_in(nodes, v);
    layout::put_label(graph, at, label);
    let mut next = at + layout::HEADER;
    for f in 0..64u16 {
        let cell = targets[v * 64 + f as usize];
        if cell != 0 {
            graph[next] = layout::link(f, cell - 1);
            next += 1;
        }
    }
    next
}

// Fills words with the graph: its rows one after another, then the number of nodes.
pub fn fill<'a>(
    nodes: &'a [u8],
    targets: &'a [u16; placing::PLACES],
    graph: &mut [u16; layout::LONGEST],
)
    requires fillable { Fillable nodes.now targets.now }
    requires graph_len { length graph.old ≡ longest }
    ensures { Filled nodes.now targets.now graph.new }
{
    let count = nodes.len() / 3;
    let mut at = count + 2;
    graph[1] = at as u16;
    for v in 0..count {
        at = fill_row(nodes, targets, v, at, graph);
        graph[v + 2] = at as u16;
    }
    graph[0] = count as u16;
}
