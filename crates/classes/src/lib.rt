// Classes of nodes, for the combination; `cover` and `groups` use the forest too. Nodes are merged into classes from two roots down, wherever equal
// features of one class lead to two nodes. A class is represented by its lowest node, which has a row with the links of all its nodes. This
// crate knows graphs in words alone.

#![tactic(auto)]

pub mod forest;
pub mod rows;

ghost use Rattle.std.specs.Prelude.{◌+◌, ◌≤◌, ◌<◌, length, get_or, set, ◌≡◌};
ghost use Rattle.classes.specs.Merge.{MergesRows, Places, Span};
ghost use Rattle.classes.specs.Classes.{Closed, Roomy, Rows, links_of};

use crate::rows::{Reach, Spans};
use layout::SCALE;

// Joins the class of `hi` to that of `lo`. The merged row comes behind the places used. The pool and the list of pairs are two lent slices and
// no struct: they go by the size of the graphs, and a struct that owned them would have all below compiled once for each size.
fn join(
    class: &mut [u16; 510],
    spans: &mut Spans,
    pool: &mut [u16],
    waiting: &mut [u32],
    lo: usize,
    hi: usize,
    reach: Reach,
) -> Reach
    requires lo_bound { (lo < 510) × (hi < 510) × (length class.old ≡ 510) × (length spans.old.start ≡ 510) × (length spans.old.end ≡ 510) }
    requires used_in_bounds { (reach.used ≤ length pool.old) × Places (length pool.old) reach.used (get_or spans.old.start lo 0) (get_or spans.old.end lo 0) (get_or spans.old.start hi 0) (get_or spans.old.end hi 0) }
    requires span { Span pool.old reach.used (get_or spans.old.start lo 0) (get_or spans.old.end lo 0) }
    requires span_2 { Span pool.old reach.used (get_or spans.old.start hi 0) (get_or spans.old.end hi 0) }
    requires used_bound { (reach.used + 64 ≤ 37692) × (reach.count + get_or spans.old.end hi 0 ≤ length waiting.old + get_or spans.old.start hi 0) }
    ensures merges_rows { MergesRows lo hi spans.old.start spans.old.end pool.old waiting.old reach pool.new waiting.new result }
    ensures class_after { class.new ≡ set class.old hi lo }
    ensures start_after { spans.new.start ≡ set spans.old.start lo reach.used }
    ensures end_after { spans.new.end ≡ set spans.old.end lo result.used }
{
    let next = rows::merge(pool, waiting, spans.row(lo), spans.row(hi), reach);
    class[hi] = lo as u16;
    spans.start[lo] = reach.used as u16;
    spans.end[lo] = next.used as u16;
    next
}

// Merges from the nodes 0 and `second` down. Then `class` gives the lowest node of each class, and the rows stand before the place that is
// answered. No more pairs wait at once than there are links, apart from the first pair.
pub fn close(
    nodes: usize,
    second: usize,
    class: &mut [u16; 510],
    spans: &mut Spans,
    pool: &mut [u16],
    waiting: &mut [u32],
    used: usize,
) -> usize
    requires rows { Rows nodes spans.old.start spans.old.end pool.old used }
    requires second_lt_nodes { (second < nodes) × (used ≤ 5116) × (length class.old ≡ 510) }
    requires end_bound { (links_of nodes spans.old.start spans.old.end ≤ 4096) × (links_of nodes spans.old.start spans.old.end < length waiting.old) }
    requires roomy { Roomy nodes (links_of nodes spans.old.start spans.old.end) used (length pool.old) }
    ensures { Closed nodes second spans.old.start spans.old.end pool.old class.new spans.new.start spans.new.end pool.new result }
{
    forest::separate(nodes, class);
    waiting[0] = second as u32;
    let mut reach = Reach { used, count: 1 };
    while 0 < reach.count {
        let count = reach.count - 1;
        let w = waiting[count];
        let x = forest::find(class, (w / (SCALE as u32)) as usize);
        let y = forest::find(class, (w % (SCALE as u32)) as usize);
        let rest = Reach {
            used: reach.used,
            count,
        };
        if x < y {
            reach = join(class, spans, pool, waiting, x, y, rest);
        } else if y < x {
            reach = join(class, spans, pool, waiting, y, x, rest);
        } else {
            reach = rest;
        }
    }
    forest::flatten(nodes, class);
    reach.used
}
