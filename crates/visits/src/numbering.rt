// Numbers the nodes of a graph as a written record does (document 01, "Graph record"): by first visit, from the root, lowest feature
// first, following links downward, never deeper than 254 links.

ghost use Rattle.std.specs.Prelude.{◌≡◌, ℕ, ◌≤◌, ◌<◌, length, get_or};
ghost use Rattle.layout.specs.Layout.{Sound};
ghost use Rattle.visits.specs.Visiting.{Finds, Visitable, below, seen_of};
ghost use Rattle.visits.specs.Walks.{Numbers};

// The number of a node that has none yet. A word and no `Option`, which would double the memory of the numbers.
pub const NONE: u16 = 0xFFFF;

// Numbers v, which has no number yet, and all that hangs below it, at most `depth` links deep. Answers how many nodes then have a
// number, or none where a node is left without one.
fn visit<'a>(
    graph: &'a [u16],
    numbers: &mut [u16; 510],
    visited: &mut [u16; 255],
    v: usize,
    depth: usize,
    given: usize,
) -> Option<usize>
    requires { Visitable graph.now numbers.old visited.old v given }
    ensures { Finds graph.now (below graph.now depth v (seen_of visited.old given)) result numbers.new visited.new }
{
    numbers[v] = given as u16;
    visited[given] = v as u16;
    let mut count = given + 1;
    for link in layout::links(graph, v) {
        let w = layout::target(*link);
        if numbers[w] == NONE {
            if 255 <= count {
                return None;
            }
            if depth == 0 {
                return None;
            }
            count = visit(graph, numbers, visited, w, depth - 1, count)?;
        }
    }
    Some(count)
}

// Numbers the nodes that the root reaches: `numbers[v]` is the number of v, `visited[i]` the node with number i. Answers how many
// such nodes there are, or none for more than 255.
pub fn number<'a>(
    graph: &'a [u16],
    numbers: &mut [u16; 510],
    visited: &mut [u16; 255],
) -> Option<usize>
    requires sound { Sound graph.now }
    requires numbers_len { length numbers.old ≡ 510 }
    requires visited_len { length visited.old ≡ 255 }
    ensures numbers { Numbers graph.now result numbers.new visited.new }
    ensures numbers_len_2 { length numbers.new ≡ 510 }
    ensures visited_len_2 { length visited.new ≡ 255 }
{
    clear(layout::size(graph), numbers);
    visit(graph, numbers, visited, 0, 254, 0)
}

// Takes the numbers of the first `nodes` nodes away.
fn clear(nodes: usize, numbers: &mut [u16; 510])
    requires nodes_bound { nodes ≤ 510 }
    requires numbers_len { length numbers.old ≡ 510 }
    ensures numbers_len_2 { length numbers.new ≡ 510 }
    ensures by_index { (v : ℕ) → v < nodes → get_or numbers.new v 0 ≡ 65535 }
{
    for v in 0..nodes {
        numbers[v] = NONE;
    }
}
