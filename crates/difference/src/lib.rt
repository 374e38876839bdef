// The difference of g and s (document 01, "Difference"). The difference has the links of s that lead their groups and enter a kept node, and
// kept nodes carry their wanted labels, which `wanting` finds. This crate writes the record of the difference for `engine` and, if a call asks
// for them, the reasons for the links of the difference (document 02, Paper 13). This crate knows graphs in words, an accepted table and
// replies; it reads no record.

#![tactic(auto)]

ghost use Rattle.std.specs.Prelude.{◌≡◌, List, ℕ, length};
ghost use Rattle.link_orders.specs.LinkOrders.{Fitting};
ghost use Rattle.keeping.specs.Keeping.{Markable};
ghost use Rattle.reasons.specs.Explaining.{Copied, Made};
ghost use Rattle.difference.specs.Prepared.{Preparable};
ghost use Rattle.difference.specs.Comparable.{Comparable};
ghost use Rattle.difference.specs.Explained.{differed_words, explained_result};
ghost use Rattle.difference.specs.Writing.{WritesRows};
ghost use Rattle.replies.specs.Replies.{told};

use link_orders::LinkOrder;
use replies::Refusal;

// A call for a difference chooses the order of links, and whether the reasons are written beside the record.
#[derive(Clone, Copy)]
pub struct Options {
    pub order: LinkOrder,
    pub explained: bool,
}

// Writes the difference of g and s and, if the options ask for them, the reasons for its links; else `reasons` stays unchanged. The reply is
// 12 where s is not below g, and 13 where a node of s has no wanted type. The words of g are overwritten with the rows of the difference.
pub fn difference<'a>(
    n: usize,
    table: &'a [u8],
    options: Options,
    g: &mut [u16],
    s: &'a [u16],
    out: &mut [u8],
    reasons: &mut [u8],
) -> Result<usize, Refusal>
    requires { Comparable n table.now g.old s.now × Fitting options.order × (length g.old ≡ length s.now) }
    ensures { explained_result (told result) out.new reasons.new ≡
        differed_words options n table.now g.old s.now out.old reasons.old }
{
    let words = s.len();
    if words <= layout::SHORT {
        let mut marks = [0u8; layout::SHORT];
        return difference_in(n, table, options, g, s, &mut marks[..words], out, reasons);
    }
    let mut marks = [0u8; layout::LONGEST];
    difference_in(n, table, options, g, s, &mut marks[..words], out, reasons)
}

// Replies as `difference` does. `marks` is lent for the marks of the links of s.
fn difference_in<'a>(
    n: usize,
    table: &'a [u8],
    options: Options,
    g: &mut [u16],
    s: &'a [u16],
    marks: &mut [u8],
    out: &mut [u8],
    reasons: &mut [u8],
) -> Result<usize, Refusal>
    requires comparable { Comparable n table.now g.old s.now × Fitting options.order }
    requires g_len { (length g.old ≡ length s.now) × (length marks.old ≡ length s.now) }
    ensures { explained_result (told result) out.new reasons.new ≡
        differed_words options n table.now g.old s.now out.old reasons.old }
{
    let Some(map) = subsume::subsume(table, s, g) else {
        return Err(Refusal::NotBelow);
    };
    let mut labels = [0u16; 510];
    if !wanting::wanted_labels(n, table, g, s, &map, &mut labels) {
        return Err(Refusal::NoWantedType);
    }
    groups::mark_links(s, g, &map, options.order, marks);
    make(n, table, s, marks, &labels, g);
    write_rows(options.explained, s, marks, g, out, reasons)
}

// Fills `words` with the rows of the difference. `marks` has the marks of the links of s, and `labels` has the wanted label of each node of s.
fn make<'a>(
    n: usize,
    table: &'a [u8],
    s: &'a [u16],
    marks: &'a [u8],
    labels: &'a [u16; 510],
    words: &mut [u16],
)
    requires { Preparable n table.now s.now marks.now labels.now × (length words.old ≡ length s.now) }
    ensures { Made n table.now s.now marks.now labels.now words.new }
{
    let mut keep = [0u8; 255];
    keeping::keep::kept_nodes(n, table, s, marks, labels, &mut keep);
    keeping::rows::kept_links(s, marks, &keep, labels, words)
}

// Writes the record of the difference, whose rows are in `words`, and, if `explained`, the reasons for its links.
fn write_rows<'a>(
    explained: bool,
    s: &'a [u16],
    marks: &'a [u8],
    words: &'a [u16],
    out: &mut [u8],
    reasons: &mut [u8],
) -> Result<usize, Refusal>
    requires { ((meeting : List ℕ) → length meeting ≡ 255 → Markable s.now marks.now meeting) × Copied s.now words.now }
    ensures { WritesRows explained s.now marks.now words.now out.old reasons.old
        (explained_result (told result) out.new reasons.new) }
{
    if !explained {
        return Ok(encode::canonical::write(words, out)?);
    }
    let mut held = [0u8; layout::LONGEST];
    reasons::explain_links(s, marks, words, &mut held);
    Ok(encode::canonical::write_marked(words, &held, out, reasons)?)
}
