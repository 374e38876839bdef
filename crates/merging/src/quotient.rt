// Builds the graph of the classes in words, whose nodes are the nodes of both graphs. Nodes that represent no class have no links.

ghost use Rattle.std.specs.Prelude.{◌≡◌, ℕ, ◌+◌, ◌<◌, ◌≤◌, length, slice_index};
ghost use Rattle.layout.specs.Layout.{target_at};
ghost use Rattle.merging.specs.Lowered.{Below, label_words};
ghost use Rattle.merging.specs.Rows.{ClassGraph, Fillable, RowCopied, end_of_row};

use crate::labels::LABELS;
use classes::rows::Spans;
use layout::HEADER;

// Copies a row to the places from `at` on, with each target replaced by its class. Answers the next place.
fn copy_row<'a>(
    class: &'a [u16; 510],
    pool: &'a [u16],
    start: usize,
    end: usize,
    at: usize,
    graph: &mut [u16],
) -> usize
    requires start_le_end { (start ≤ end) × (end ≤ length pool.now) × (at + end ≤ length graph.old + start) × (length graph.old ≤ 65535) }
    requires by_index { (k : ℕ) → start ≤ k → k < end → (target_at pool.now k < 510) × (slice_index class.now (target_at pool.now k) < 510) }
    ensures { RowCopied class.now pool.now start end at graph.old graph.new result }
{
    let mut next = at;
    for &word in &pool[start..end] {
        graph[next] = layout::link(layout::feature(word), class[layout::target(word)]);
        next += 1;
    }
    next
}

// The end of a node's row; its start, where the node represents no class.
fn end_of_row<'a>(class: &'a [u16; 510], spans: &'a Spans, x: usize) -> usize
    requires x_bound { (x < 510) × (slice_index class.now x < 510) }
    requires x_bound_2 { (slice_index spans.now.start x ≤ slice_index spans.now.end x) × (slice_index spans.now.end x ≤ 37692) }
    ensures { result ≡ end_of_row class.now spans.now.start spans.now.end x }
{
    let c = class[x] as usize;
    if c == x {
        return spans.end[x] as usize;
    }
    spans.start[x] as usize
}

// Builds the graph of the classes.
pub fn quotient<'a>(
    nodes: usize,
    class: &'a [u16; 510],
    labels: &'a [u16; LABELS],
    spans: &'a Spans,
    pool: &'a [u16],
    graph: &mut [u16],
)
    requires graph_len_bound { (length graph.old ≤ 65535) × (length labels.now ≡ label_words) × Below 128 labels.now }
    requires fillable { Fillable nodes class.now spans.now.start spans.now.end pool.now (length graph.old) }
    ensures { ClassGraph nodes class.now labels.now spans.now.start spans.now.end pool.now graph.new }
{
    let mut at = nodes + 2;
    graph[0] = nodes as u16;
    graph[1] = at as u16;
    for x in 0..nodes {
        let c = class[x] as usize;
        layout::put_label(graph, at, layout::label_from(labels, HEADER * c));
        let row_start = spans.start[x] as usize;
        let row_end = end_of_row(class, spans, x);
        at = copy_row(class, pool, row_start, row_end, at + HEADER, graph);
        graph[x + 2] = at as u16;
    }
}
