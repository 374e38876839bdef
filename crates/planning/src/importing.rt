// Import: writes the record of the graph that rows and node bytes state.

ghost use Rattle.std.specs.Prelude.{◌≡◌, ◌≤◌, length};
ghost use Rattle.std.proofs.Math.Option.{some};
ghost use Rattle.record.specs.Read.{judged};
ghost use Rattle.rows.specs.Rows.{is_sized, nodes_in};
ghost use Rattle.rows.specs.Filling.{placed_rows};
ghost use Rattle.replies.specs.Reply.{resulting};
ghost use Rattle.engine.specs.Rewriting.{rewritten};
ghost use Rattle.planning.specs.Planning.{imported, importing_rows, Placeable};
ghost use Rattle.replies.specs.Replies.{told};

use record::GraphFault;
use replies::{Refusal, Side};
use rows::{Row, placing};

// Whether the counts of node bytes and rows are those of a planning table; else 4 is due.
fn is_sized(nodes: &[u8], count: usize) -> bool
    ensures { result ≡ is_sized nodes.now count }
{
    let length = nodes.len();
    if length % 3 != 0 {
        return false;
    }
    if length / 3 < 1 {
        return false;
    }
    if 255 < length / 3 {
        return false;
    }
    count <= 2048
}

// Writes the record of the graph of placed rows, after refusals 5 to 7.
fn import_placed<'a>(
    n: usize,
    nodes: &'a [u8],
    targets: &'a [u16; placing::PLACES],
    out: &mut [u8],
) -> Result<usize, Refusal>
    requires { (n ≤ 64) × Placeable nodes.now targets.now }
    ensures { resulting (told result) out.new ≡ rewritten (judged n (some (placed_rows nodes.now targets.now (nodes_in nodes.now)))) out.old }
{
    if !rows::filling::are_stated(nodes) {
        return Err(Refusal::Graph(GraphFault::OutOfRange, Side::First));
    }
    let mut graph = [0u16; layout::LONGEST];
    rows::filling::fill(nodes, targets, &mut graph);
    if let Err(fault) = record::judging::judge(n, &graph, true) {
        return Err(Refusal::Graph(fault, Side::First));
    }
    engine::rewriting::of_graph(&graph, out)
}

// Import over an accepted table with n types: refusals 4, 14 and 15, each over all rows before the next.
fn import_accepted(n: usize, rows: &[Row], nodes: &[u8], out: &mut [u8]) -> Result<usize, Refusal>
    requires { n ≤ 64 }
    ensures { resulting (told result) out.new ≡ imported n (length rows.now) rows.now nodes.now out.old }
{
    if !is_sized(nodes, rows.len()) {
        return Err(Refusal::Graph(GraphFault::Malformed, Side::First));
    }
    if !placing::all_known(rows, nodes.len() / 3) {
        return Err(Refusal::RowOutOfRange);
    }
    let mut targets = [0u16; placing::PLACES];
    if !placing::place_rows(rows, &mut targets) {
        return Err(Refusal::RowTwice);
    }
    import_placed(n, nodes, &targets, out)
}

// Import of lent rows and node bytes. Where there are more than 2,048 rows, 4 is given before a row is read.
pub fn import(
    n: usize,
    table: &[u8],
    rows: &[Row],
    nodes: &[u8],
    out: &mut [u8],
) -> Result<usize, Refusal>
    ensures { resulting (told result) out.new ≡ importing_rows n table.now rows.now nodes.now out.old }
{
    acceptance::accept(n, table)?;
    import_accepted(n, rows, nodes, out)
}
