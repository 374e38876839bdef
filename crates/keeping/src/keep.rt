// The nodes that the difference keeps, in an array with 1 for a kept node, else 0.

ghost use Rattle.std.specs.Prelude.{◌≡◌, ℕ, ◌≤◌, ◌<◌, length, get_or};
ghost use Rattle.layout.specs.Layout.{Place, rows_end, size, target_at};
ghost use Rattle.visits.specs.Walks.{Reaches};
ghost use Rattle.keeping.specs.Keeping.{Cause, Decides, Enters, Grown, Keeps, Markable, NodeLabels, Onward, Settled, Sorted, Stays, Untop};

use groups::LinkMark;
use layout::Label;

// If the link at place k leads its group, keeps the node that it enters where nothing of g lies over the link, or where an earlier leading link
// enters the node too. `entered` has 1 at the nodes that earlier leading links enter.
fn keep_one<'a>(
    s: &'a [u16],
    marks: &'a [u8],
    k: usize,
    entered: &mut [u8; 255],
    keep: &mut [u8; 255],
)
    requires by_index { ((u : ℕ) × Place s.now u k) × (k < length s.now) × (target_at s.now k < 255) }
    requires marks_len { (length marks.now ≡ length s.now) × (length entered.old ≡ 255) × (length keep.old ≡ 255) }
    ensures { Enters s.now marks.now k keep.old entered.old keep.new entered.new }
{
    let v = layout::target(s[k]);
    match LinkMark::from(marks[k]) {
        LinkMark::Follows => return,
        LinkMark::Leads => {
            if entered[v] == 1 {
                keep[v] = 1;
            }
        }
        LinkMark::Bare => keep[v] = 1,
    }
    entered[v] = 1;
}

// Keeps the nodes that two leading links enter, or one with nothing of g over it.
pub fn keep_entered<'a>(s: &'a [u16], marks: &'a [u8], keep: &mut [u8; 255])
    requires { Markable s.now marks.now keep.old }
    ensures { Grown (Cause s.now marks.now (rows_end s.now)) keep.old keep.new }
{
    let mut entered = [0u8; 255];
    let nodes = s[0] as usize;
    for v in 0..nodes {
        let end = s[v + 2] as usize;
        // The place k is needed, as in `has_kept_link`: the mark of a link stands at its place.
        for k in s[v + 1] as usize + layout::HEADER..end {
            keep_one(s, marks, k, &mut entered, keep);
        }
    }
}

// Keeps the nodes whose wanted label is not top.
fn keep_labelled<'a>(
    n: usize,
    table: &'a [u8],
    nodes: usize,
    labels: &'a [u16; 510],
    keep: &mut [u8; 255],
)
    requires { (2 ≤ n) × (n ≤ 64) × (nodes ≤ 255) × NodeLabels n nodes labels.now × (length keep.old ≡ 255) }
    ensures { Grown (Untop n table.now labels.now nodes) keep.old keep.new }
{
    let top = Label {
        kind: (n - 1) as u8,
        lowest: 0,
        highest: 255,
    };
    for v in 0..nodes {
        let label = layout::label_from(labels, layout::HEADER * v);
        if !subsume::is_label_below(table, top, label) {
            keep[v] = 1;
        }
    }
}

// Whether the link at place k leads its group and enters a kept node.
pub fn is_kept<'a>(s: &'a [u16], marks: &'a [u8], keep: &'a [u8; 255], k: usize) -> bool
    requires marks_len { (length marks.now ≡ length s.now) × (length keep.now ≡ 255) }
    requires k_in_bounds { (k < length s.now) × (target_at s.now k < 255) }
    ensures { Decides (Stays s.now marks.now keep.now k) result }
{
    match LinkMark::from(marks[k]) {
        LinkMark::Follows => false,
        LinkMark::Leads | LinkMark::Bare => keep[layout::target(s[k])] == 1,
    }
}

// Whether a link between two places is kept.
fn has_kept_link<'a>(
    s: &'a [u16],
    marks: &'a [u8],
    keep: &'a [u8; 255],
    start: usize,
    end: usize,
) -> bool
    requires marks_len { (length marks.now ≡ length s.now) × (length keep.now ≡ 255) × (end ≤ length s.now) }
    requires by_index { (k : ℕ) → start ≤ k → k < end → target_at s.now k < 255 }
    ensures { Decides (Onward s.now marks.now keep.now start end) result }
{
    for k in start..end {
        if is_kept(s, marks, keep, k) {
            return true;
        }
    }
    false
}

// Keeps the nodes that a kept link leaves. The order goes through the nodes with targets first.
fn keep_parents<'a>(s: &'a [u16], marks: &'a [u8], order: &'a [u16; 510], keep: &mut [u8; 255])
    requires { Markable s.now marks.now keep.old × Sorted s.now order.now × (length order.now ≡ 510) }
    ensures { Settled (λ v. Unit {0}) s.now marks.now keep.old keep.new }
{
    let nodes = s[0] as usize;
    for i in 0..nodes {
        let v = order[i] as usize;
        let start = s[v + 1] as usize + layout::HEADER;
        let end = s[v + 2] as usize;
        if has_kept_link(s, marks, keep, start, end) {
            keep[v] = 1;
        }
    }
}

// Marks the kept nodes. No node is marked before.
pub fn kept_nodes<'a>(
    n: usize,
    table: &'a [u8],
    s: &'a [u16],
    marks: &'a [u8],
    labels: &'a [u16; 510],
    keep: &mut [u8; 255],
)
    requires le_n { (2 ≤ n) × (n ≤ 64) × NodeLabels n (size s.now) labels.now }
    requires markable { Markable s.now marks.now keep.old × ((v : ℕ) → v < 255 → get_or keep.old v 0 ≡ 0) }
    requires by_index { (v : ℕ) → Reaches s.now v v → ⊥ }
    ensures { Keeps n table.now s.now marks.now labels.now keep.new }
{
    keep[0] = 1;
    keep_entered(s, marks, keep);
    keep_labelled(n, table, s[0] as usize, labels, keep);
    // There is no cycle, so only the order is needed.
    let mut order = [0u16; 510];
    visits::sorting::sort_targets_first(s, &mut order);
    keep_parents(s, marks, &order, keep)
}
