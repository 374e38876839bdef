// The groups of links of a difference (document 01, "Difference"). For graphs s and g, and a map of the nodes of g to those of s, this crate
// marks which links of s lead their groups, by the order of links that a call asks for. `cover` lays the links of g over those of s, and
// `link_orders` gives the rank of each feature. `difference` asks for the marks, and `keeping` goes on from them. This crate knows graphs in
// words and an order of links.

#![tactic(auto)]

ghost use Rattle.std.specs.Prelude.{◌≡◌, ℕ, ◌+◌, ◌<◌, length};
ghost use Rattle.layout.specs.Layout.{Place};
ghost use Rattle.cover.specs.Cover.{Lying, Unowned};
ghost use Rattle.groups.specs.Marks.{Marked, Marking, Marks, Owned, Sooner};
ghost use Rattle.groups.specs.LinkMarks.{link_mark_of};
ghost use Rattle.link_orders.specs.LinkOrders.{Fitting, earlier_by};

use classes::forest;
use link_orders::LinkOrder;

// The mark of a link: another link of its group comes before it; it leads its group, with links of g over it; or nothing of g lies over it, and it
// is a group alone. Arrays of marks hold the marks as bytes.
#[derive(Clone, Copy)]
pub enum LinkMark {
    Follows = 0,
    Leads = 1,
    Bare = 2,
}

// A byte above 2 is a mark too: its link leads.
impl From<u8> for LinkMark {
    ghost from_gives = { λ byte mark. mark ≡ link_mark_of byte };

    fn from(byte: u8) -> LinkMark {
        match byte {
            0 => LinkMark::Follows,
            2 => LinkMark::Bare,
            _ => LinkMark::Leads,
        }
    }
}

// Marks the link at place k, where all links before it are marked. `lead` has for each class the place of its first link so far, by rank
// and then by place.
fn mark_place<'a>(
    s: &'a [u16],
    owner: &'a [u16],
    parent: &'a [u16; 510],
    rank: &'a [u8; link_orders::FEATURES],
    k: usize,
    lead: &mut [u16; 255],
    marks: &mut [u8],
)
    requires owned { Owned s.now owner.now parent.now × ((v : ℕ) × Place s.now v k) }
    requires marking { Marking s.now owner.now parent.now rank.now k lead.old marks.old }
    ensures { Marking s.now owner.now parent.now rank.now (k + 1) lead.new marks.new }
{
    let x = owner[k];
    if x == cover::NONE {
        marks[k] = LinkMark::Bare as u8;
        return;
    }
    let c = parent[x as usize] as usize;
    let j = lead[c];
    if j == cover::NONE {
        lead[c] = k as u16;
        marks[k] = LinkMark::Leads as u8;
        return;
    }
    let met = layout::feature(s[j as usize]);
    let here = layout::feature(s[k]);
    if rank[here as usize] < rank[met as usize] {
        lead[c] = k as u16;
        marks[j as usize] = LinkMark::Follows as u8;
        marks[k] = LinkMark::Leads as u8;
        return;
    }
    marks[k] = LinkMark::Follows as u8;
}

// Marks the links of s, given the owner of each link, the classes of the owners and the rank of each feature.
fn mark<'a>(
    s: &'a [u16],
    owner: &'a [u16],
    parent: &'a [u16; 510],
    rank: &'a [u8; link_orders::FEATURES],
    marks: &mut [u8],
)
    requires { Owned s.now owner.now parent.now × (length marks.old ≡ length s.now) }
    ensures { Marks (Sooner s.now rank.now) s.now owner.now parent.now marks.new }
{
    let mut lead = [cover::NONE; 255];
    let nodes = s[0] as usize;
    for v in 0..nodes {
        let end = s[v + 2] as usize;
        // The place k is needed: the owner and the mark of a link stand at its place.
        for k in s[v + 1] as usize + layout::HEADER..end {
            mark_place(s, owner, parent, rank, k, &mut lead, marks);
        }
    }
}

// Marks the links of s: which lead their groups by an order of links, which follow, and which have nothing of g over them.
pub fn mark_links<'a>(
    s: &'a [u16],
    g: &'a [u16],
    map: &'a [u16; 255],
    order: LinkOrder,
    marks: &mut [u8],
)
    requires { Lying s.now g.now map.now × Fitting order × (length marks.old ≡ length s.now) }
    ensures { Marked (earlier_by order) s.now g.now map.now marks.new }
{
    let words = s.len();
    if words <= layout::SHORT {
        let mut owner = [cover::NONE; layout::SHORT];
        return mark_owned(s, g, map, order, &mut owner[..words], marks);
    }
    let mut owner = [cover::NONE; layout::LONGEST];
    mark_owned(s, g, map, order, &mut owner[..words], marks)
}

// Marks the links of s as `mark_links` does. `owner` is lent for the owners of the links; each of its words is `cover::NONE` at the start.
fn mark_owned<'a>(
    s: &'a [u16],
    g: &'a [u16],
    map: &'a [u16; 255],
    order: LinkOrder,
    owner: &mut [u16],
    marks: &mut [u8],
)
    requires lying { Lying s.now g.now map.now × Fitting order }
    requires unowned { Unowned s.now owner.old × (length marks.old ≡ length s.now) }
    ensures { Marked (earlier_by order) s.now g.now map.now marks.new }
{
    let mut parent = [0u16; 510];
    let nodes = g[0] as usize;
    forest::separate(nodes, &mut parent);
    for y in 0..nodes {
        cover::cover_row(s, g, map, y, owner, &mut parent);
    }
    forest::flatten(nodes, &mut parent);
    let rank = link_orders::ranks(order);
    mark(s, owner, &parent, &rank, marks)
}
