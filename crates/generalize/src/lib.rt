// Builds the common part of document 01 (generalization), whose nodes are the pairs of nodes that one path leads to in both graphs. A queue has
// the pairs, and `product` finds them and adds the links of each. This crate gives each pair the join of its labels. It knows graphs in words and
// the joins that `bounds` holds; `encode` writes the result.

#![tactic(auto)]

ghost use Rattle.std.specs.Prelude.{◌≡◌, true, ◌≤◌, ◌<◌, length};
ghost use Rattle.lattice.specs.Labels.{join_ranged};
ghost use Rattle.bounds.specs.Sets.{Seekable, join_in};
ghost use Rattle.layout.specs.Builder.{stated};
ghost use Rattle.layout.specs.Layout.{Recorded};
ghost use Rattle.encode.specs.Encode.{yielding};
ghost use Rattle.generalize.specs.Pairs.{Joinable};
ghost use Rattle.generalize.specs.Product.{product_out};
ghost use Rattle.generalize.specs.Found.{Found};

use encode::Unwritten;
use layout::Label;
use product::{CLEAR, Spread};

// Where the rows of a result begin: behind the number of nodes and 256 places, since the number of nodes is known only at the end.
const BASE: usize = 257;

// The words of a result: as many as the graph of a record has, and 64 more for the links that one pair may add before they are counted.
const ROOM: usize = layout::LONGEST + 64;

// The number of words that are tried first where both graphs are small, and the most nodes that small graphs have together. These words are
// enough for most common parts of two such graphs, but not for all.
const SMALL_ROOM: usize = 1024;

const SMALL_NODES: usize = 160;

// The join of two labels over n types: the join of their types, and the smallest range that holds both ranges.
fn join<'a>(
    n: usize,
    sets: &'a [u64; bounds::sets::WORDS],
    cells: &'a [[u8; 64]],
    a: Label,
    b: Label,
) -> Label
    requires kind_lt_n { (a.kind < n) × (b.kind < n) × (n ≤ 64) }
    requires seekable { Seekable true n sets.now cells.now }
    ensures { stated result ≡ join_ranged (join_in n sets.now cells.now) (stated a) (stated b) }
{
    let kind = bounds::sets::join(n, sets, cells, a.kind as usize, b.kind as usize);
    layout::hull(kind, a, b)
}

// Writes the common part of two graphs over n types. `sets` and `cells` hold the joins of types. The result is built in lent words. Answers what
// writing it answers, or none if the words are too few.
fn generalize_in<'a>(
    n: usize,
    sets: &'a [u64; bounds::sets::WORDS],
    cells: &'a [[u8; 64]],
    a: &'a [u16],
    b: &'a [u16],
    words: &mut [u16],
    out: &mut [u8],
) -> Option<Result<usize, Unwritten>>
    requires recorded { Recorded a.now }
    requires recorded_2 { Recorded b.now }
    requires joinable { Joinable n (join_in n sets.now cells.now) a.now b.now }
    requires seekable { Seekable true n sets.now cells.now }
    requires in_bounds { (512 ≤ length words.old) × (length words.old ≤ 65535) }
    ensures { Found result (product_out (join_in n sets.now cells.now) a.now b.now out.old)
        (length words.old) out.old out.new }
{
    let mut marks = [CLEAR; 65025];
    let mut queue = [0u16; 255];
    marks[0] = 0;
    words[1] = BASE as u16;
    let mut at: usize = BASE;
    let mut count: usize = 1;
    let mut head: usize = 0;
    while head < count {
        if words.len() < at + (layout::HEADER + 64) {
            return None;
        }
        let pair = queue[head] as usize;
        let u = pair / 255;
        let v = pair % 255;
        let label = join(
            n,
            sets,
            cells,
            layout::label_at(a, u),
            layout::label_at(b, v),
        );
        layout::put_label(words, at, label);
        let known = Spread {
            at: at + layout::HEADER,
            count,
        };
        let Some(spread) = product::pair_links(a, b, u, v, &mut marks, &mut queue, words, known)
        else {
            return Some(Err(Unwritten::TooLarge)); // more than 255 nodes
        };
        at = spread.at;
        count = spread.count;
        words[head + 2] = at as u16;
        head += 1;
        if BASE + head * layout::HEADER + 2048 < at {
            return Some(Err(Unwritten::TooLarge)); // more than 2,048 links
        }
    }
    words[0] = count as u16;
    Some(encode::canonical::write(words, out))
}

// Builds and writes the common part in so many words.
fn generalize_sized<'a, const WORDS: usize>(
    n: usize,
    sets: &'a [u64; bounds::sets::WORDS],
    cells: &'a [[u8; 64]],
    a: &'a [u16],
    b: &'a [u16],
    out: &mut [u8],
) -> Option<Result<usize, Unwritten>>
    requires recorded { Recorded a.now }
    requires recorded_2 { Recorded b.now }
    requires joinable { Joinable n (join_in n sets.now cells.now) a.now b.now }
    requires seekable { Seekable true n sets.now cells.now }
    requires in_bounds { (512 ≤ WORDS) × (WORDS ≤ 65535) }
    ensures { Found result (product_out (join_in n sets.now cells.now) a.now b.now out.old)
        WORDS out.old out.new }
{
    let mut words = [0u16; WORDS];
    generalize_in(n, sets, cells, a, b, &mut words, out)
}

// Writes the common part of two graphs over n types. `sets` and `cells` hold the joins of types.
pub fn generalize<'a>(
    n: usize,
    sets: &'a [u64; bounds::sets::WORDS],
    cells: &'a [[u8; 64]],
    a: &'a [u16],
    b: &'a [u16],
    out: &mut [u8],
) -> Result<usize, Unwritten>
    requires recorded { Recorded a.now }
    requires recorded_2 { Recorded b.now }
    requires joinable { Joinable n (join_in n sets.now cells.now) a.now b.now }
    requires seekable { Seekable true n sets.now cells.now }
    ensures { yielding result out.new ≡ product_out (join_in n sets.now cells.now) a.now b.now out.old }
{
    if a[0] as usize + b[0] as usize <= SMALL_NODES {
        if let Some(written) = generalize_sized::<{ SMALL_ROOM }>(n, sets, cells, a, b, out) {
            return written;
        }
    }
    match generalize_sized::<{ ROOM }>(n, sets, cells, a, b, out) {
        Some(written) => written,
        None => Err(Unwritten::TooLarge), // does not occur in ROOM words
    }
}
