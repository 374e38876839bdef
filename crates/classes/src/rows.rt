// The merge of two rows of link words into one. Where both have a feature, their targets make a pair of nodes that are to be joined.

ghost use Rattle.std.specs.Prelude.{◌+◌, ◌%◌, ◌≤◌, ◌<◌, length, get_or, ◌≡◌};
ghost use Rattle.layout.specs.Layout.{scale};
ghost use Rattle.classes.specs.Merge.{Merges, Places, Span, feature_or, pair_word};

use layout::SCALE;

// How many places are used, and how many pairs wait.
#[derive(Clone, Copy)]
pub struct Reach {
    pub used: usize,
    pub count: usize,
}

// A row of link words: the places from `start` to `end`.
#[derive(Clone, Copy)]
pub struct Row {
    pub start: usize,
    pub end: usize,
}

// The rows of the nodes: that of node x stands at the places from start[x] to end[x].
#[derive(Drop)]
pub struct Spans {
    pub start: [u16; 510],
    pub end: [u16; 510],
}

impl Spans {
    // The row of a node.
    pub fn row(&self, x: usize) -> Row
        requires { (x < length self.now.start) × (x < length self.now.end) }
        ensures start { result.start ≡ get_or self.now.start x 0 }
        ensures end { result.end ≡ get_or self.now.end x 0 }
    {
        Row {
            start: self.start[x] as usize,
            end: self.end[x] as usize,
        }
    }
}

// The feature at a place of a row, 64 past its end. A number and no `Option`, so that `merge` needs no case of its own for a row that has ended.
fn feature_at(pool: &[u16], k: usize, end: usize) -> u16
    requires { end ≤ length pool.now }
    ensures { result ≡ feature_or pool.now k end }
{
    if k < end {
        return layout::feature(pool[k]);
    }
    64
}

// The word of the pair of two links' targets.
fn pair(v: u16, w: u16) -> u32
    ensures { result ≡ pair_word (v % scale) (w % scale) }
{
    layout::target(v) as u32 * SCALE as u32 + layout::target(w) as u32
}

// Merges two rows into one, at the places behind those used.
pub fn merge(pool: &mut [u16], waiting: &mut [u32], a: Row, b: Row, reach: Reach) -> Reach
    requires used_in_bounds { (reach.used ≤ length pool.old) × Places (length pool.old) reach.used a.start a.end b.start b.end }
    requires span { Span pool.old reach.used a.start a.end }
    requires span_2 { Span pool.old reach.used b.start b.end }
    requires used_bound { (reach.used + 64 ≤ 37692) × (reach.count + b.end ≤ length waiting.old + b.start) }
    ensures { Merges a.start a.end b.start b.end pool.old waiting.old reach pool.new waiting.new result }
{
    let mut i = a.start;
    let mut j = b.start;
    let mut at = reach.used;
    let mut top = reach.count;
    while i + j < a.end + b.end {
        let f = feature_at(pool, i, a.end);
        let g = feature_at(pool, j, b.end);
        if f < g {
            pool[at] = pool[i];
            at += 1;
            i += 1;
        } else if g < f {
            pool[at] = pool[j];
            at += 1;
            j += 1;
        } else {
            waiting[top] = pair(pool[i], pool[j]);
            top += 1;
            pool[at] = pool[i];
            at += 1;
            i += 1;
            j += 1;
        }
    }
    Reach {
        used: at,
        count: top,
    }
}
