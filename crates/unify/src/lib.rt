// The combination of document 01 (unification). The nodes of both graphs are merged into classes, and the graph of the classes is written. The
// nodes of the second graph are numbered after those of the first. `merging` has the parts: it lays the graphs side by side, meets the labels
// of a class, and builds the graph of the classes. This crate knows graphs in words and the meets that `bounds` holds; `encode` writes the
// result.

#![tactic(auto)]

ghost use Rattle.std.specs.Prelude.{◌≡◌, List, ℕ, ◌+◌, ◌≤◌, ◌<◌, length};
ghost use Rattle.bounds.specs.Sets.{meet_in};
ghost use Rattle.layout.specs.Layout.{Sound};
ghost use Rattle.encode.specs.Encode.{yielding};
ghost use Rattle.merging.specs.Lowered.{Meeting};
ghost use Rattle.unify.specs.Outcome.{unifying_out};
ghost use Rattle.merging.specs.Rows.{Holding, Merges, Operand, Spacious};

use classes::rows::Spans;
use encode::Unwritten;
use layout::HEADER;
use merging::{labels, operands, quotient};

// Why no combination is written: document 01's refusals 9 and 10, or the result is not written.
#[derive(Clone, Copy)]
pub enum NoCombination {
    Cycle,
    Clash,
    Unwritten(Unwritten),
}

impl From<Unwritten> for NoCombination {
    ghost use Rattle.unify.specs.declared.NoCombination.TheVariants.{Unwritten};

    ghost from_gives = { λ why none. none ≡ Unwritten why };

    fn from(why: Unwritten) -> NoCombination {
        NoCombination::Unwritten(why)
    }
}

// Three sizes, by how many nodes and links two graphs have together. The arrays that are cleared go by the size, and no two graphs exceed the
// largest.
const SMALL_NODES: usize = 20;

const SMALL_LINKS: usize = 48;

const MIDDLE_NODES: usize = 80;

const MIDDLE_LINKS: usize = 240;

const NODES: usize = 510;

const LINKS: usize = 4096;

// The places of the pool for each size: the words of both graphs, and what the merges of rows take. A merge takes no more places than there are
// links, and no more than 64.
const SMALL_POOL: usize = HEADER * SMALL_NODES + SMALL_LINKS + SMALL_LINKS * (SMALL_NODES - 1);

const MIDDLE_POOL: usize = HEADER * MIDDLE_NODES + MIDDLE_LINKS + 64 * (MIDDLE_NODES - 1);

const LARGE_POOL: usize = HEADER * NODES + LINKS + 64 * (NODES - 1);

// The places for the pairs that wait, for each size.
const SMALL_WAITING: usize = SMALL_LINKS + 1;

const MIDDLE_WAITING: usize = MIDDLE_LINKS + 1;

const LARGE_WAITING: usize = LINKS + 1;

// The words of the graph of the classes, for the two sizes of it: the number of nodes, the directory, the headers and the links.
const MIDDLE_WORDS: usize = 2 + (1 + HEADER) * MIDDLE_NODES + MIDDLE_LINKS;

const LARGE_WORDS: usize = 2 + (1 + HEADER) * NODES + LINKS;

// Builds the graph of the classes of both graphs' nodes. The pool takes the words of both graphs and the rows of merged classes.
fn merge_within<'a>(
    n: usize,
    sets: &'a [u64; bounds::sets::WORDS],
    cells: &'a [[u8; 64]],
    a: &'a [u16],
    b: &'a [u16],
    pool: &mut [u16],
    waiting: &mut [u32],
    graph: &mut [u16],
)
    requires n_nonzero { (0 < n) × (n ≤ 64) }
    requires meeting { Meeting n sets.now cells.now }
    requires operand { Operand n a.now }
    requires operand_2 { Operand n b.now }
    requires spacious { Spacious a.now b.now (length pool.old) (length waiting.old) × Holding a.now b.now (length graph.old) }
    ensures { Merges n (meet_in n sets.now cells.now) a.now b.now graph.new }
{
    let mut spans = Spans {
        start: [0; 510],
        end: [0; 510],
    };
    let mut class = [0u16; 510];
    let second = a[0] as usize;
    let nodes = second + b[0] as usize;
    let at = operands::copy_words(a, 0, 0, pool);
    let used = operands::copy_words(b, at, second, pool);
    operands::copy_spans(a, 0, 0, &mut spans);
    operands::copy_spans(b, at, second, &mut spans);
    classes::close(nodes, second, &mut class, &mut spans, pool, waiting, used);
    let labels = labels::class_labels(n, sets, cells, a, b, &class);
    quotient::quotient(nodes, &class, &labels, &spans, pool, graph);
}

// Builds the graph of the classes of two graphs that a pool and a list of so many places are enough for.
fn merge_sized<'a, const POOL: usize, const WAITING: usize>(
    n: usize,
    sets: &'a [u64; bounds::sets::WORDS],
    cells: &'a [[u8; 64]],
    a: &'a [u16],
    b: &'a [u16],
    graph: &mut [u16],
)
    requires n_nonzero { (0 < n) × (n ≤ 64) }
    requires meeting { Meeting n sets.now cells.now }
    requires operand { Operand n a.now }
    requires operand_2 { Operand n b.now }
    requires few { (POOL ≤ 65535) × (WAITING ≤ 65535) }
    requires spacious { Spacious a.now b.now POOL WAITING × Holding a.now b.now (length graph.old) }
    ensures { Merges n (meet_in n sets.now cells.now) a.now b.now graph.new }
{
    let mut pool = [0u16; POOL];
    let mut waiting = [0u32; WAITING];
    merge_within(n, sets, cells, a, b, &mut pool, &mut waiting, graph);
}

// Builds the graph of the classes, in arrays that go by the size of the graphs.
fn merge<'a>(
    n: usize,
    sets: &'a [u64; bounds::sets::WORDS],
    cells: &'a [[u8; 64]],
    a: &'a [u16],
    b: &'a [u16],
    graph: &mut [u16],
)
    requires n_nonzero { (0 < n) × (n ≤ 64) }
    requires meeting { Meeting n sets.now cells.now }
    requires operand { Operand n a.now }
    requires operand_2 { Operand n b.now }
    requires holding { Holding a.now b.now (length graph.old) }
    ensures { Merges n (meet_in n sets.now cells.now) a.now b.now graph.new }
{
    let nodes = a[0] as usize + b[0] as usize;
    let links = operands::link_count(a, b);
    if nodes <= SMALL_NODES && links <= SMALL_LINKS {
        merge_sized::<{ SMALL_POOL }, { SMALL_WAITING }>(n, sets, cells, a, b, graph);
        return;
    }
    if nodes <= MIDDLE_NODES && links <= MIDDLE_LINKS {
        merge_sized::<{ MIDDLE_POOL }, { MIDDLE_WAITING }>(n, sets, cells, a, b, graph);
        return;
    }
    merge_sized::<{ LARGE_POOL }, { LARGE_WAITING }>(n, sets, cells, a, b, graph);
}

// Answers a cycle or a clash in the graph of the classes, else writes the graph.
fn tell(graph: &[u16], out: &mut [u8]) -> Result<usize, NoCombination>
    requires { Sound graph.now }
    ensures { (n : ℕ) (meets : ℕ → ℕ → ℕ) (a b : List ℕ) → Operand n a → Operand n b → Merges n meets a b graph.now →
        yielding result out.new ≡ unifying_out n meets a b out.old }
{
    let mut order = [0u16; 510];
    if visits::sorting::sort_targets_first(graph, &mut order) {
        return Err(NoCombination::Cycle);
    }
    if labels::has_clash(graph) {
        return Err(NoCombination::Clash);
    }
    Ok(encode::canonical::write(graph, out)?)
}

// Writes the combination of two graphs, if the graph of the classes takes no more than so many words.
fn unify_sized<'a, const WORDS: usize>(
    n: usize,
    sets: &'a [u64; bounds::sets::WORDS],
    cells: &'a [[u8; 64]],
    a: &'a [u16],
    b: &'a [u16],
    out: &mut [u8],
) -> Result<usize, NoCombination>
    requires n_nonzero { (0 < n) × (n ≤ 64) }
    requires meeting { Meeting n sets.now cells.now }
    requires operand { Operand n a.now }
    requires operand_2 { Operand n b.now }
    requires holding { Holding a.now b.now WORDS }
    ensures { yielding result out.new ≡ unifying_out n (meet_in n sets.now cells.now) a.now b.now out.old }
{
    let mut graph = [0u16; WORDS];
    merge(n, sets, cells, a, b, &mut graph);
    tell(&graph, out)
}

// Writes the combination of two graphs over n types. `sets` and `cells` hold the meets of types.
pub fn unify<'a>(
    n: usize,
    sets: &'a [u64; bounds::sets::WORDS],
    cells: &'a [[u8; 64]],
    a: &'a [u16],
    b: &'a [u16],
    out: &mut [u8],
) -> Result<usize, NoCombination>
    requires n_nonzero { (0 < n) × (n ≤ 64) }
    requires meeting { Meeting n sets.now cells.now }
    requires operand { Operand n a.now }
    requires operand_2 { Operand n b.now }
    ensures { yielding result out.new ≡ unifying_out n (meet_in n sets.now cells.now) a.now b.now out.old }
{
    if a[0] as usize + b[0] as usize <= MIDDLE_NODES && operands::link_count(a, b) <= MIDDLE_LINKS {
        return unify_sized::<{ MIDDLE_WORDS }>(n, sets, cells, a, b, out);
    }
    unify_sized::<{ LARGE_WORDS }>(n, sets, cells, a, b, out)
}
