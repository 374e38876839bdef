// This crate tests a graph in words for refusals 5, 6 and 7. The range test also counts the links that enter each node. Cycles and reach
// are then found in one pass (Kahn's topological sort): nodes that no link enters are taken away with their links, as long as there are
// any. If nodes stay, the graph has a cycle. If none stays, the root reaches every node exactly where it is the only node that no link
// entered at the start. The crate knows graphs in words, and of the table the number of types; it knows no record's bytes.

#![tactic(auto)]

ghost use Rattle.std.specs.Prelude.{◌+◌, ◌≤◌, ◌<◌, false, ◌≡◌, length};
ghost use Rattle.layout.specs.Builder.{stated};
ghost use Rattle.layout.specs.Layout.{Sound, row_end, size};
ghost use Rattle.peeling.specs.Range.{label_in_range};
ghost use Rattle.peeling.specs.Counts.{Count, Counted, LevelsOrdered, Peels, Queued, RowCount, RowDue, RowTaken};

use layout::Label;

// Why the root does not reach every node without a cycle: there is a cycle; else no link enters some node beside the root.
#[derive(Clone, Copy)]
pub enum Unrooted {
    Cyclic,
    Apart,
}

// Whether the targets of the links of node v are nodes. If so, the links of v are added to the counts, which have those of the nodes
// before v.
fn count_row<'a>(graph: &'a [u16], v: usize, incoming: &mut [u16; 255]) -> bool
    requires v_bound { v < size graph.now }
    requires counted { Counted graph.now v incoming.old }
    ensures { RowCount graph.now v result incoming.new }
{
    let nodes = layout::size(graph);
    for link in layout::links(graph, v) {
        let w = layout::target(*link);
        if nodes <= w {
            return false;
        }
        incoming[w] = incoming[w] + 1;
    }
    true
}

// Whether a label's type is one of the n types and not 0, and its lowest level is not above the highest. Levels are compared only if the
// record has ranges.
fn is_label_in_range(n: usize, label: Label, ranged: bool) -> bool
    requires { ranged ≡ false → label.lowest ≤ label.highest }
    ensures { result ≡ label_in_range n (stated label) }
{
    let kind = label.kind as usize;
    0 < kind && kind < n && (!ranged || label.lowest <= label.highest)
}

// Whether the labels of all nodes are in range and the targets of all links are nodes; if not, refusal 5 applies. If so, `incoming` has
// the number of links that enter each node. `incoming` must be clear at the start. Levels are compared only if there are ranges.
pub fn count_incoming(n: usize, graph: &[u16], ranged: bool, incoming: &mut [u16; 255]) -> bool
    requires levels_ordered { ranged ≡ false → LevelsOrdered graph.now }
    requires counted { Counted graph.now 0 incoming.old }
    ensures { Count n graph.now result incoming.new }
{
    for v in 0..layout::size(graph) {
        if !is_label_in_range(n, layout::label_at(graph, v), ranged) {
            return false;
        }
        if !count_row(graph, v, incoming) {
            return false;
        }
    }
    true
}

// Lists the nodes that no link enters, and answers how many they are.
fn find_sources<'a>(nodes: usize, incoming: &'a [u16; 255], queue: &mut [u16; 255]) -> usize
    requires nodes_bound { nodes ≤ 255 }
    requires incoming_len { (length incoming.now ≡ 255) × (length queue.old ≡ 255) }
    ensures { Queued nodes incoming.now queue.new result }
{
    let mut count = 0;
    for v in 0..nodes {
        if incoming[v] == 0 {
            queue[count] = v as u16;
            count += 1;
        }
    }
    count
}

// Takes the links of node v away. Nodes that no link is left to enter join the queue. Answers how many nodes are queued.
fn take_links<'a>(
    graph: &'a [u16],
    v: usize,
    incoming: &mut [u16; 255],
    queue: &mut [u16; 255],
    queued: usize,
) -> usize
    requires { RowDue graph.now v incoming.old queue.old queued }
    ensures { RowTaken graph.now v (row_end graph.now v) incoming.old queue.old queued incoming.new queue.new result }
{
    let mut count = queued;
    for link in layout::links(graph, v) {
        let w = layout::target(*link);
        let left = incoming[w] - 1;
        incoming[w] = left;
        if left == 0 {
            queue[count] = w as u16;
            count += 1;
        }
    }
    count
}

// Whether some node reaches itself, and if none does, whether a link enters every node but the root. The counts in `incoming` are
// changed.
pub fn sources_first(graph: &[u16], incoming: &mut [u16; 255]) -> Result<(), Unrooted>
    requires sound { Sound graph.now }
    requires counted { Counted graph.now (size graph.now) incoming.old }
    ensures { Peels graph.now result }
{
    let nodes = layout::size(graph);
    let mut queue = [0u16; 255];
    let sources = find_sources(nodes, incoming, &mut queue);
    let mut count = sources;
    let mut next = 0;
    while next < count {
        let v = queue[next] as usize;
        count = take_links(graph, v, incoming, &mut queue, count);
        next += 1;
    }
    if count < nodes {
        return Err(Unrooted::Cyclic);
    }
    if sources == 1 && queue[0] == 0 {
        return Ok(());
    }
    Err(Unrooted::Apart)
}
