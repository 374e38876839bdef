// Sorts the nodes of a graph with targets first, which fails exactly where there is a cycle. The walk is depth-first over all nodes,
// with three colours.

ghost use Rattle.std.specs.Prelude.{length, ◌≡◌};
ghost use Rattle.layout.specs.Layout.{Sound};
ghost use Rattle.visits.specs.Colouring.{Entered, Leaves};
ghost use Rattle.visits.specs.Walks.{Sorts};

// Finishes all that hangs below the white node v, and then v. A node's colour is 0 while it is white, 1 while it is on
// the way down, and 2 + p once it stands at place p of the order. Answers the number of finished nodes, or none where a link leads back to a
// node on the way down. A colour is a word and no enum, which would double the memory of the colours.
fn finish(
    graph: &[u16],
    colour: &mut [u16; 510],
    order: &mut [u16; 510],
    v: usize,
    done: usize,
) -> Option<usize>
    requires { Entered graph.now colour.old order.old v done }
    ensures { Leaves graph.now colour.old v done colour.new order.new result }
{
    colour[v] = 1;
    let mut count = done;
    for link in layout::links(graph, v) {
        let w = layout::target(*link);
        let c = colour[w];
        if c == 1 {
            return None;
        }
        if c == 0 {
            count = finish(graph, colour, order, w, count)?;
        }
    }
    colour[v] = (count + 2) as u16;
    order[count] = v as u16;
    Some(count + 1)
}

// Sorts the nodes into `order` with targets first. Answers whether there is a cycle; if so, the nodes are not sorted.
pub fn sort_targets_first(graph: &[u16], order: &mut [u16; 510]) -> bool
    requires sound { Sound graph.now }
    requires order_len { length order.old ≡ 510 }
    ensures sorts { Sorts graph.now order.new result }
    ensures order_len_2 { length order.new ≡ 510 }
{
    let mut colour = [0u16; 510];
    let mut count = 0;
    for v in 0..layout::size(graph) {
        if colour[v] == 0 {
            let Some(finished) = finish(graph, &mut colour, order, v, count) else {
                return true;
            };
            count = finished;
        }
    }
    false
}
