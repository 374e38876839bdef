// Rewriting a record in written form, and writing a graph in words, over an accepted table (document 01, "Returned by a call").

ghost use Rattle.std.specs.Prelude.{◌≡◌, ◌≤◌};
ghost use Rattle.layout.specs.Layout.{Sound, rows_of};
ghost use Rattle.decode.specs.Answers.{Roomy};
ghost use Rattle.pairs.specs.Pair.{Optional, reading_beside};
ghost use Rattle.replies.specs.Reply.{resulting};
ghost use Rattle.engine.specs.Rewriting.{rewritten, rewritten_rows};
ghost use Rattle.replies.specs.Replies.{told};

use replies::{Refusal, Side};

// Writes a record over an accepted table with n types in written form. The record is read with a list of types for features, unless the list is
// empty.
pub fn of_record(
    n: usize,
    table: &[u8],
    list: &[u8],
    bytes: &[u8],
    out: &mut [u8],
) -> Result<usize, Refusal>
    requires { (n ≤ 64) × Optional n list.now }
    ensures { resulting (told result) out.new ≡ rewritten (reading_beside n table.now list.now bytes.now) out.old }
{
    if bytes.len() <= decode::rows::SHORT {
        let mut graph = [0u16; layout::SHORT];
        return rewrite_in(n, table, list, bytes, &mut graph, out);
    }
    let mut graph = [0u16; layout::LONGEST];
    rewrite_in(n, table, list, bytes, &mut graph, out)
}

// Replies as `of_record` does. `graph` is lent for the words of the graph.
fn rewrite_in(
    n: usize,
    table: &[u8],
    list: &[u8],
    bytes: &[u8],
    graph: &mut [u16],
    out: &mut [u8],
) -> Result<usize, Refusal>
    requires { (n ≤ 64) × Optional n list.now × Roomy bytes.now graph.old }
    ensures { resulting (told result) out.new ≡ rewritten (reading_beside n table.now list.now bytes.now) out.old }
{
    if let Err(fault) = pairs::read_one(n, table, list, bytes, graph) {
        return Err(Refusal::Graph(fault, Side::First));
    }
    of_graph(graph, out)
}

// Writes the written record of a graph in words.
pub fn of_graph(graph: &[u16], out: &mut [u8]) -> Result<usize, Refusal>
    requires { Sound graph.now }
    ensures { resulting (told result) out.new ≡ rewritten_rows out.old (rows_of graph.now) }
{
    Ok(encode::canonical::write(graph, out)?)
}
