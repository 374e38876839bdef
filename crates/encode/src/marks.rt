// Writes marks of links in record order. The reasons of a difference are such marks.

ghost use Rattle.std.specs.Prelude.{◌≡◌, ◌+◌, ◌≤◌, ◌<◌, length, take};
ghost use Rattle.std.proofs.lemmas.List.Edits.{sets};
ghost use Rattle.std.proofs.Math.Seq.{slice};
ghost use Rattle.layout.specs.Layout.{Sound, links_from, longest, row_end, size};
ghost use Rattle.encoder.specs.NumberedRows.{Visited, degree, degrees};
ghost use Rattle.encode.specs.Marks.{marks_along};

// Writes the marks of the links of node v from a place on. Answers the next place.
fn put_row<'a>(
    graph: &'a [u16],
    marks: &'a [u8; layout::LONGEST],
    v: usize,
    at: usize,
    beside: &mut [u8],
) -> usize
    requires sound { Sound graph.now × (v < size graph.now) }
    requires graph_len_bound { (length graph.now ≤ longest) × (length marks.now ≡ longest) }
    requires v_in_bounds { at + degree graph.now v ≤ length beside.old }
    ensures value { result ≡ at + degree graph.now v }
    ensures beside_after { beside.new ≡ sets beside.old at (slice (links_from graph.now v) (row_end graph.now v) marks.now) }
{
    let mut next = at;
    // The place k is needed: the mark of a link stands at its place.
    for k in layout::links_from(graph, v)..graph[v + 2] as usize {
        beside[next] = marks[k];
        next += 1;
    }
    next
}

// Writes the marks of the links of the first `count` nodes visited, node after node.
pub fn put_marks<'a>(
    graph: &'a [u16],
    marks: &'a [u8; layout::LONGEST],
    visited: &'a [u16; 255],
    count: usize,
    beside: &mut [u8],
)
    requires visited { Visited graph.now visited.now count }
    requires graph_len_bound { (length graph.now ≤ longest) × (length marks.now ≡ longest) }
    requires visited_in_bounds { degrees graph.now (take count visited.now) ≤ length beside.old }
    ensures { beside.new ≡ sets beside.old 0 (marks_along graph.now marks.now (take count visited.now)) }
{
    let mut at = 0;
    for i in 0..count {
        let v = visited[i] as usize;
        at = put_row(graph, marks, v, at, beside);
    }
}
