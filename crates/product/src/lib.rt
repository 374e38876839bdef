// This crate finds the pairs of nodes that one path leads to in both graphs. They are the nodes of the common part of document 01
// (generalization). A queue has the pairs, each pair has a mark, and the links of a pair are those by features of both of its nodes. This crate
// knows graphs in words. It knows no label and no type, and it writes no record.

#![tactic(auto)]

ghost use Rattle.std.specs.Prelude.{◌+◌, ◌≤◌, ◌<◌, length};
ghost use Rattle.layout.specs.Layout.{Recorded, size};
ghost use Rattle.product.specs.Queue.{Marked, Offered, Spreads, common};

// The mark of a pair that has no number. Numbers are below it. A byte and no `Option`, which would double the 65,025 bytes that each common part
// clears.
pub const CLEAR: u8 = 255;

// Gives the next number to a pair that has none. Answers how many pairs then have a number, or `None` where no number is left.
fn enlist(
    marks: &mut [u8; 65025],
    queue: &mut [u16; 255],
    pair: usize,
    count: usize,
) -> Option<usize>
    requires marked { Marked marks.old queue.old count }
    requires pair_bound { pair < 65025 }
    ensures { Offered marks.old queue.old pair count marks.new queue.new result }
{
    let mark = marks[pair];
    if mark != CLEAR {
        return Some(count);
    }
    if 254 < count {
        return None;
    }
    marks[pair] = count as u8;
    queue[count] = pair as u16;
    Some(count + 1)
}

// Where the next word stands, and how many pairs have a number.
#[derive(Clone, Copy)]
pub struct Spread {
    pub at: usize,
    pub count: usize,
}

// Adds the links of the pair (u, v), which are those by features of both, at most 64. Stops with `None` at a pair for which no number is left.
pub fn pair_links<'a>(
    a: &'a [u16],
    b: &'a [u16],
    u: usize,
    v: usize,
    marks: &mut [u8; 65025],
    queue: &mut [u16; 255],
    words: &mut [u16],
    known: Spread,
) -> Option<Spread>
    requires recorded { Recorded a.now }
    requires recorded_2 { Recorded b.now }
    requires u_bound { (u < size a.now) × (v < size b.now) }
    requires marked { Marked marks.old queue.old known.count }
    requires at_in_bounds { (known.at + 64 ≤ length words.old) × (length words.old ≤ 65535) }
    ensures { Spreads (common a.now b.now (u, v)) queue.old words.old known marks.new queue.new words.new result }
{
    let a_end = a[u + 2] as usize;
    let b_end = b[v + 2] as usize;
    let mut i = a[u + 1] as usize + layout::HEADER;
    let mut j = b[v + 1] as usize + layout::HEADER;
    let mut at = known.at;
    let mut count = known.count;
    while i < a_end {
        if b_end <= j {
            return Some(Spread { at, count });
        }
        let s = a[i];
        let t = b[j];
        let f = layout::feature(s);
        let h = layout::feature(t);
        if f < h {
            i += 1;
        } else if h < f {
            j += 1;
        } else {
            let pair = layout::target(s) * 255 + layout::target(t);
            count = enlist(marks, queue, pair, count)?;
            let number = marks[pair];
            words[at] = layout::link(f, number as u16);
            at += 1;
            i += 1;
            j += 1;
        }
    }
    Some(Spread { at, count })
}
