// The links of g that lie over links of s, for the groups of a difference. A link is given by its place in the words of its graph. The
// owner of a link of s is a node of g that some link over it enters. All nodes of g that links over one link of s enter are in one class.
// `groups` goes on from the owners and the classes. This crate knows graphs in words, a map of the nodes of g to those of s, and the forest
// of `classes`.

#![tactic(auto)]

ghost use Rattle.std.specs.Prelude.{◌≡◌, ℕ, ◌<◌, length, get_or};
ghost use Rattle.layout.specs.Layout.{size, row_from, row_end};
ghost use Rattle.classes.specs.Forest.{Forest};
ghost use Rattle.cover.specs.Cover.{Grouping, Lying, Owns};

// The word for no owner, where nothing of g lies over a link, and for no place, where no link of a class is met yet. A word and no `Option`, which
// would double the memory that is lent for the owners of the longest graph.
pub const NONE: u16 = 0xFFFF;

// Notes that a link of g over place j enters z. If place j has no owner, z becomes its owner; else the classes of the owner and of z
// become one.
fn own(owner: &mut [u16], parent: &mut [u16; 510], j: usize, z: u16)
    requires j_in_bounds { j < length owner.old }
    requires by_index { (nodes : ℕ) × Forest nodes parent.old × (z < nodes) × ((get_or owner.old j 0 ≡ 65535 → ⊥) → get_or owner.old j 0 < nodes) }
    ensures { Owns owner.old parent.old j z owner.new parent.new }
{
    let x = owner[j];
    if x == NONE {
        owner[j] = z;
    } else {
        classes::forest::unite(parent, x as usize, z as usize)
    }
}

// Lays the links of node y of g over the links of the node of s that `map` has for y.
pub fn cover_row<'a>(
    s: &'a [u16],
    g: &'a [u16],
    map: &'a [u16; 255],
    y: usize,
    owner: &mut [u16],
    parent: &mut [u16; 510],
)
    requires lying { Lying s.now g.now map.now × (y < size g.now) }
    requires grouping { Grouping s.now g.now map.now (row_from g.now y) owner.old parent.old }
    ensures { Grouping s.now g.now map.now (row_end g.now y) owner.new parent.new }
{
    let u = map[y] as usize;
    let mut j = layout::links_from(s, u);
    let s_end = s[u + 2] as usize;
    for &link in layout::links(g, y) {
        j = subsume::seek(s, j, s_end, layout::feature(link));
        own(owner, parent, j, layout::target(link) as u16);
    }
}
