// Two graphs side by side: the words of one graph's rows stand behind those of the other, and each node's links are a span of places.

ghost use Rattle.std.specs.Prelude.{◌≡◌, ◌+◌, ◌≤◌, length};
ghost use Rattle.layout.specs.Layout.{Recorded, size, rows_end};
ghost use Rattle.merging.specs.Rows.{SpansCopied, WordsCopied, links_both, words_in};

use classes::rows::Spans;

// The number of words of a graph's rows.
fn word_count(graph: &[u16]) -> usize
    requires { Recorded graph.now }
    ensures { result ≡ words_in graph.now }
{
    let nodes = graph[0] as usize;
    graph[nodes + 1] as usize - graph[1] as usize
}

// The number of links of two graphs.
pub fn link_count<'a>(a: &'a [u16], b: &'a [u16]) -> usize
    requires { Recorded a.now × Recorded b.now }
    ensures { result ≡ links_both a.now b.now }
{
    let nodes = a[0] as usize + b[0] as usize;
    word_count(a) + word_count(b) - layout::HEADER * nodes
}

// Copies the words of a graph's rows to the places from `at` on, with each target moved by `shift`. Copied headers may overflow; no span has
// them. Answers the next place.
pub fn copy_words<'a>(graph: &'a [u16], at: usize, shift: usize, pool: &mut [u16]) -> usize
    requires recorded { Recorded graph.now }
    requires at_bound { (at ≤ 2558) × (shift ≤ 255) × (at + words_in graph.now ≤ length pool.old) }
    ensures { WordsCopied graph.now (rows_end graph.now) at shift pool.old pool.new result }
{
    let nodes = graph[0] as usize;
    let first = graph[1] as usize;
    let end = graph[nodes + 1] as usize;
    let moved = shift as u16;
    let mut next = at;
    for &word in &graph[first..end] {
        pool[next] = word.wrapping_add(moved);
        next += 1;
    }
    next
}

// Gives the nodes of a graph, whose numbers are moved by `shift`, their spans of links among the words copied to the places from `at` on.
pub fn copy_spans<'a>(graph: &'a [u16], at: usize, shift: usize, spans: &mut Spans)
    requires recorded { Recorded graph.now }
    requires at_bound { (at ≤ 2558) × (shift ≤ 255) × (length spans.old.start ≡ 510) × (length spans.old.end ≡ 510) }
    ensures { SpansCopied graph.now (size graph.now) at shift spans.old.start spans.old.end spans.new.start spans.new.end }
{
    let nodes = graph[0] as usize;
    let first = graph[1] as usize;
    for v in 0..nodes {
        let row = graph[v + 1] as usize - first + at;
        let next = graph[v + 2] as usize - first + at;
        spans.start[shift + v] = (row + layout::HEADER) as u16;
        spans.end[shift + v] = next as u16;
    }
}
