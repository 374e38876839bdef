// Judges a graph in words, whether the words come from a record or from a planning table: finds the first of refusals 5 to 7 that
// applies. Each refusal is checked over the whole graph before the next.

ghost use Rattle.std.specs.Prelude.{◌≡◌, false, ◌≤◌};
ghost use Rattle.std.proofs.Math.Option.{some};
ghost use Rattle.layout.specs.Layout.{Shaped, rows_of, size};
ghost use Rattle.peeling.specs.Counts.{LevelsOrdered};
ghost use Rattle.record.specs.Read.{judged};
ghost use Rattle.record.specs.Reads.{ReadsAs};

use crate::GraphFault;

// Judges a graph over a table with n types. Levels are compared only if `ranged` says that there are ranges.
pub fn judge(n: usize, graph: &[u16], ranged: bool) -> Result<(), GraphFault>
    requires shaped { Shaped graph.now × (size graph.now ≤ 255) }
    requires levels_ordered { ranged ≡ false → LevelsOrdered graph.now }
    ensures { ReadsAs n (judged n (some (rows_of graph.now))) result graph.now }
{
    let mut incoming = [0u16; 255];
    if !peeling::count_incoming(n, graph, ranged, &mut incoming) {
        return Err(GraphFault::OutOfRange);
    }
    peeling::sources_first(graph, &mut incoming)?;
    Ok(())
}
