// This crate lays out a decoded graph in one slice of words: the number of nodes, where each row begins, and the rows, each a header and
// one word for each link. All crates that compute on graphs share this layout. The crate knows labels and words, and nothing of a
// record's bytes. Nodes stand in words and not in boxes or vectors, since the engine has no heap.

#![tactic(auto)]

ghost use Rattle.std.specs.Prelude.{◌≡◌, ◌+◌, ◌/◌, ◌%◌, ◌≤◌, ◌<◌, length, slice_range};
ghost use Rattle.lattice.specs.Label.{is_full};
ghost use Rattle.lattice.specs.Labels.{Known, join_ranged};
ghost use Rattle.layout.specs.Layout.{Node, Shaped, header, label_at, label_from, link_word, links_from, row_end, scale, size};
ghost use Rattle.layout.specs.Builder.{put_label, stated};

// The length of a row's header, which holds the node's label: its type, and its range of levels.
pub const HEADER: usize = 2;

// A range's word is its lowest level times this plus its highest level.
const LEVELS: u16 = 256;

// The word of the full range.
const FULL: u16 = 255;

// A link's word is its feature times this plus its target.
pub const SCALE: u16 = 1024;

// The most words of a record's graph: the number of nodes, 256 places, 255 headers of two words, 2,048 links.
pub const LONGEST: usize = 1 + 256 + 255 * HEADER + 2048;

// The number of words that have room for the graph of a short record, one of at most 510 bytes.
pub const SHORT: usize = 768;

// The label of a node: its type and its range of levels.
#[derive(Clone, Copy)]
pub struct Label {
    pub kind: u8,
    pub lowest: u8,
    pub highest: u8,
}

// Whether a label has the full range.
pub fn is_full(label: Label) -> bool
    ensures { result ≡ is_full (stated label) }
{
    label.lowest as u16 * LEVELS + label.highest as u16 == FULL
}

// The label of a type with the smallest range that holds the ranges of both labels.
pub fn hull(kind: u8, a: Label, b: Label) -> Label
    ensures { stated result ≡ join_ranged (λ _ _. kind) (stated a) (stated b) }
{
    Label {
        kind,
        lowest: a.lowest.min(b.lowest),
        highest: a.highest.max(b.highest),
    }
}

// Stores a label as the header at a place.
pub fn put_label(words: &mut [u16], at: usize, label: Label)
    requires { at + header ≤ length words.old }
    ensures { words.new ≡ put_label words.old at (stated label) }
{
    words[at] = label.kind as u16;
    words[at + 1] = label.lowest as u16 * LEVELS + label.highest as u16;
}

// The label that the header at a place holds.
pub fn label_from(words: &[u16], at: usize) -> Label
    requires { (at + header ≤ length words.now) × Known 128 (label_from words.now at) }
    ensures { stated result ≡ label_from words.now at }
{
    let range = words[at + 1];
    Label {
        kind: (words[at] % 256) as u8,
        lowest: (range / LEVELS) as u8,
        highest: (range % LEVELS) as u8,
    }
}

// The number of nodes.
pub fn size(graph: &[u16]) -> usize
    requires { 0 < length graph.now }
    ensures { result ≡ size graph.now }
{
    graph[0] as usize
}

// The label of a node.
pub fn label_at(graph: &[u16], v: usize) -> Label
    requires { Shaped graph.now × (v < size graph.now) }
    ensures { stated result ≡ label_at graph.now v }
{
    label_from(graph, graph[v + 1] as usize)
}

// The word of a link.
pub fn link(feature: u16, target: u16) -> u16
    requires { (feature < 64) × (target < 1024) }
    ensures { result ≡ link_word (feature, target) }
{
    feature * SCALE + target
}

// The feature of a link's word.
pub fn feature(word: u16) -> u16
    ensures { result ≡ word / scale }
{
    word / SCALE
}

// The target of a link's word.
pub fn target(word: u16) -> usize
    ensures { result ≡ word % scale }
{
    (word % SCALE) as usize
}

// Where the links of a node begin.
pub fn links_from(graph: &[u16], v: usize) -> usize
    requires { v + 1 < length graph.now }
    ensures { result ≡ links_from graph.now v }
{
    graph[v + 1] as usize + HEADER
}

// The words of a node's links, features ascending.
pub fn links(graph: &[u16], v: usize) -> &[u16]
    requires { Node graph.now v }
    ensures { result.now ≡ slice_range graph.now (links_from graph.now v) (row_end graph.now v) }
{
    &graph[links_from(graph, v)..graph[v + 2] as usize]
}
