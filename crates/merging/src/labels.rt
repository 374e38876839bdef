// The labels of classes: "a class has the meet of all types in it", and the overlap of all ranges. The labels are headers in words, one after
// another; that of class c stands at HEADER * c.

use layout::{HEADER, Label};

// The number of words for the labels of 510 classes.
pub const LABELS: usize = 510 * HEADER;

ghost use Rattle.std.specs.Prelude.{◌≡◌, ℕ, ◌+◌, ◌-◌, ◌<◌, ◌≤◌, false, length, slice_index};
ghost use Rattle.lattice.specs.Label.{plain};
ghost use Rattle.lattice.specs.Labels.{meet_ranged};
ghost use Rattle.bounds.specs.Sets.{Seekable, meet_in};
ghost use Rattle.layout.specs.Builder.{stated};
ghost use Rattle.graphs.specs.Rows.{from};
ghost use Rattle.graphs.specs.Unify.{any_of};
ghost use Rattle.layout.specs.Layout.{Recorded, Shaped, size, label_at};
ghost use Rattle.merging.specs.Clash.{contradicts};
ghost use Rattle.merging.specs.Lowered.{Below, ClassLabels, Lowerable, Lowers, Meeting, label_of_class, label_words};
ghost use Rattle.merging.specs.Rows.{Operand};

// The meet of two labels over n types: the meet of their types, and the overlap of their ranges.
fn meet<'a>(
    n: usize,
    sets: &'a [u64; bounds::sets::WORDS],
    cells: &'a [[u8; 64]],
    a: Label,
    b: Label,
) -> Label
    requires kind_lt_n { (a.kind < n) × (b.kind < n) × (n ≤ 64) }
    requires seekable { Seekable false n sets.now cells.now }
    ensures { stated result ≡ meet_ranged (meet_in n sets.now cells.now) (stated a) (stated b) }
{
    Label {
        kind: bounds::sets::meet(n, sets, cells, a.kind as usize, b.kind as usize),
        lowest: a.lowest.max(b.lowest),
        highest: a.highest.min(b.highest),
    }
}

// Meets the label of each node's class with the node's label, the last node first. Node v of the graph has the number shift + v among the nodes
// of both graphs.
fn lower<'a>(
    n: usize,
    sets: &'a [u64; bounds::sets::WORDS],
    cells: &'a [[u8; 64]],
    graph: &'a [u16],
    class: &'a [u16; 510],
    shift: usize,
    labels: &mut [u16; LABELS],
)
    requires recorded { Recorded graph.now }
    requires shift_bound { (shift ≤ 255) × (length labels.old ≡ label_words) }
    requires lowerable { Lowerable n (meet_in n sets.now cells.now) graph.now labels.old × Seekable false n sets.now cells.now }
    requires by_index { (v : ℕ) → v < size graph.now → slice_index class.now (shift + v) < 510 }
    ensures labels_len { length labels.new ≡ label_words }
    ensures below { Below n labels.new }
    ensures lowers { Lowers (meet_in n sets.now cells.now) graph.now class.now shift labels.old labels.new }
{
    for v in (0..graph[0] as usize).rev() {
        let c = class[shift + v] as usize;
        let lower = meet(
            n,
            sets,
            cells,
            layout::label_at(graph, v),
            layout::label_from(labels, HEADER * c),
        );
        layout::put_label(labels, HEADER * c, lower);
    }
}

// Gives each of the first `nodes` classes the label top, over n types.
fn clear(n: usize, nodes: usize, labels: &mut [u16; LABELS])
    requires { (0 < n) × (n ≤ 64) × (nodes ≤ 510) × (length labels.old ≡ label_words) × Below n labels.old }
    ensures labels_len { (length labels.new ≡ label_words) × Below n labels.new }
    ensures by_index { (c : ℕ) → c < nodes → label_of_class labels.new c ≡ plain (n - 1) }
{
    let top = Label {
        kind: (n - 1) as u8,
        lowest: 0,
        highest: 255,
    };
    // By number: a label is two words of the array, and of `chunks_exact_mut` a proof learns no word that it wrote.
    for c in 0..nodes {
        layout::put_label(labels, HEADER * c, top);
    }
}

// The labels of the classes of two graphs' nodes over n types: each is the meet of the labels of its nodes.
pub fn class_labels<'a>(
    n: usize,
    sets: &'a [u64; bounds::sets::WORDS],
    cells: &'a [[u8; 64]],
    a: &'a [u16],
    b: &'a [u16],
    class: &'a [u16; 510],
) -> [u16; LABELS]
    requires n_nonzero { (0 < n) × (n ≤ 64) }
    requires meeting { Meeting n sets.now cells.now }
    requires operand { Operand n a.now }
    requires operand_2 { Operand n b.now }
    requires by_index { (x : ℕ) → x < size a.now + size b.now → slice_index class.now x < 510 }
    ensures below { Below n result × (length result ≡ label_words) }
    ensures class_labels { ClassLabels n (meet_in n sets.now cells.now) a.now b.now class.now result }
{
    let mut labels = [0u16; LABELS];
    let shift = a[0] as usize;
    clear(n, shift + b[0] as usize, &mut labels);
    lower(n, sets, cells, b, class, shift, &mut labels);
    lower(n, sets, cells, a, class, 0, &mut labels);
    labels
}

// Whether a label is the contradiction: type 0, or an empty range.
fn is_contradiction(label: Label) -> bool
    ensures { result ≡ contradicts (stated label) }
{
    label.kind == 0 || label.highest < label.lowest
}

// Whether the label of some node is the contradiction.
pub fn has_clash(graph: &[u16]) -> bool
    requires { Shaped graph.now }
    ensures { result ≡ any_of (from 0 (size graph.now)) (λ x. contradicts (label_at graph.now x)) }
{
    let nodes = graph[0] as usize;
    for x in 0..nodes {
        if is_contradiction(layout::label_at(graph, x)) {
            return true;
        }
    }
    false
}
