// The order: whether the graph s lies below the graph g (document 01, "Order and results"). A queue goes through the nodes of g and maps each to
// the node of s that the same path leads to. This crate knows graphs in words and the order of a type table.

#![tactic(auto)]

ghost use Rattle.std.specs.Prelude.{◌≡◌, ℕ, ◌≤◌, ◌<◌, length};
ghost use Rattle.lattice.specs.Labels.{table_labels};
ghost use Rattle.layout.specs.Builder.{stated};
ghost use Rattle.layout.specs.Layout.{Recorded, size, rows_of};
ghost use Rattle.subsume.specs.Following.{Follows, Queued, Sought};
ghost use Rattle.subsume.specs.Promise.{Orders};

use layout::Label;

// The entry in the map of a node that is not mapped. A word and no `Option`: `NodeMap` in `Orders` reads the words of the map as nodes of s, and so
// do `wanting` and `cover`, to which the map is handed on.
pub const NONE: u16 = 0xFFFF;

// The first place from `at` on whose feature is at least f; `end` where there is none.
pub fn seek(graph: &[u16], at: usize, end: usize, f: u16) -> usize
    requires { (at ≤ end) × (end ≤ length graph.now) × (f < 64) }
    ensures { Sought graph.now at end f result }
{
    let least = f * layout::SCALE;
    // The place k is needed: it is the answer.
    for k in at..end {
        if least <= graph[k] {
            return k;
        }
    }
    end
}

// Maps the targets of v's links, where v is mapped to u. Answers the new length of the queue, or `None` where s lacks a link or a node of g would
// be mapped to two nodes of s.
fn follow<'a>(
    s: &'a [u16],
    g: &'a [u16],
    v: usize,
    u: usize,
    map: &mut [u16; 255],
    queue: &mut [u16; 255],
    count: usize,
) -> Option<usize>
    requires recorded { Recorded s.now × (u < size s.now) }
    requires recorded_2 { Recorded g.now × (v < size g.now) }
    requires queued { Queued map.old queue.old count }
    ensures { Follows s.now g.now u v map.old queue.old count map.new queue.new result }
{
    let mut j = layout::links_from(s, u);
    let s_end = s[u + 2] as usize;
    let mut end = count;
    for &link in layout::links(g, v) {
        let f = layout::feature(link);
        j = seek(s, j, s_end, f);
        if s_end <= j {
            return None;
        }
        let found = s[j];
        if layout::feature(found) != f {
            return None;
        }
        let w = layout::target(link);
        let x = layout::target(found) as u16;
        let image = map[w];
        if image == NONE {
            map[w] = x;
            queue[end] = w as u16;
            end += 1;
        } else {
            if image != x {
                return None;
            }
        }
    }
    Some(end)
}

// Whether a label is below another: its type is, and its range lies inside.
pub fn is_label_below(table: &[u8], a: Label, b: Label) -> bool
    requires { (a.kind < 64) × (b.kind < 64) }
    ensures { (n : ℕ) → result ≡ (table_labels n table.now).le (stated a) (stated b) }
{
    if a.lowest < b.lowest {
        return false;
    }
    if b.highest < a.highest {
        return false;
    }
    lattice::words::is_below(table, a.kind as usize, b.kind as usize)
}

// The map of g's nodes to those of s where s lies below g, and `None` where it does not.
pub fn subsume<'a>(table: &'a [u8], s: &'a [u16], g: &'a [u16]) -> Option<[u16; 255]>
    requires { Recorded s.now × Recorded g.now }
    ensures { (n : ℕ) → Orders n table.now (rows_of s.now) (rows_of g.now) result }
{
    let mut map = [NONE; 255];
    let mut queue = [0u16; 255];
    map[0] = 0;
    let mut count: usize = 1;
    let mut head: usize = 0;
    while head < count {
        let v = queue[head] as usize;
        let u = map[v] as usize;
        let a = layout::label_at(s, u);
        let b = layout::label_at(g, v);
        if !is_label_below(table, a, b) {
            return None;
        }
        count = follow(s, g, v, u, &mut map, &mut queue, count)?;
        head += 1;
    }
    Some(map)
}
