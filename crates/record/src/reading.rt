// Reads a record into words: parses it (refusal 4), then judges its graph (refusals 5 to 7).

ghost use Rattle.std.specs.Prelude.{not, ◌≡◌, eqb};
ghost use Rattle.layout.specs.Layout.{Shaped};
ghost use Rattle.decode.specs.Answers.{Roomy};
ghost use Rattle.record.specs.Reads.{Reads, unranged_length};

use crate::GraphFault;

// Whether a record of the given length that states the graph writes a range. Each written range takes two bytes more.
fn has_ranges(length: usize, graph: &[u16]) -> bool
    requires { Shaped graph.now }
    ensures { result ≡ not (eqb length (unranged_length graph.now)) }
{
    let nodes = graph[0] as usize;
    let rows = graph[nodes + 1] as usize - graph[1] as usize;
    let links = rows - layout::HEADER * nodes;
    length != 1 + 9 * nodes + links
}

// Reads a record over a table with n types into the lent words. What the words hold after a refusal is not specified.
pub fn read(n: usize, bytes: &[u8], graph: &mut [u16]) -> Result<(), GraphFault>
    requires { Roomy bytes.now graph.old }
    ensures { Reads n bytes.now result graph.new }
{
    if !decode::rows::parse(bytes, graph) {
        return Err(GraphFault::Malformed);
    }
    let ranged = has_ranges(bytes.len(), graph);
    crate::judging::judge(n, graph, ranged)
}
