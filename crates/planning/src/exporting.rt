// Export: fills the rows and node bytes of a record's graph, numbered as in the written record.

ghost use Rattle.std.specs.Prelude.{◌≡◌, ◌≤◌, length};
ghost use Rattle.layout.specs.Layout.{Sound, longest, rows_of};
ghost use Rattle.record.specs.Read.{reading};
ghost use Rattle.planning.specs.Planning.{exported_as, exported_rows, exported, exporting};

use replies::{Refusal, Reply, Side, Success};
use rows::Row;

// Export of a graph in words: the nodes get the numbers of the written record, and then 8 is checked.
fn export_graph(graph: &[u16], rows: &mut [Row], nodes: &mut [u8]) -> Reply
    requires { Sound graph.now × (length graph.now ≤ longest) }
    ensures { exported_as result rows.new nodes.new ≡ exported_rows (rows_of graph.now) rows.old nodes.old }
{
    let mut new = [0u16; layout::LONGEST];
    if !numbering::renumber(graph, &mut new) {
        return Err(Refusal::TooLarge);
    }
    let links = rows::lending::count_links(&new);
    if rows.len() < links {
        return Err(Refusal::NoRoom);
    }
    let count = new[0] as usize;
    if nodes.len() < count * 3 {
        return Err(Refusal::NoRoom);
    }
    rows::lending::lend_nodes(&new, nodes);
    rows::lending::lend_rows(&new, rows);
    Ok(Success::Counts(count, links))
}

// Export over an accepted table with n types: refusals 4 to 7, then the export of the graph.
fn export_accepted(n: usize, bytes: &[u8], rows: &mut [Row], nodes: &mut [u8]) -> Reply
    ensures { exported_as result rows.new nodes.new ≡ exported (reading n bytes.now) rows.old nodes.old }
{
    let mut graph = [0u16; layout::LONGEST];
    if let Err(fault) = record::reading::read(n, bytes, &mut graph) {
        return Err(Refusal::Graph(fault, Side::First));
    }
    export_graph(&graph, rows, nodes)
}

// Export of a record: fills the first lent rows and node bytes. The others stay, and all of them do on a refusal.
pub fn export(n: usize, table: &[u8], bytes: &[u8], rows: &mut [Row], nodes: &mut [u8]) -> Reply
    ensures { exported_as result rows.new nodes.new ≡ exporting n table.now bytes.now rows.old nodes.old }
{
    acceptance::accept(n, table)?;
    export_accepted(n, bytes, rows, nodes)
}
