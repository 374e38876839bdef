// The reason for each kept link (document 02, Paper 13), at the link's place in the rows of the difference. `keeping` has made these rows
// before, and `difference` asks for the reasons. This crate knows graphs in words, the marks of links that `groups` makes, and which nodes
// `keeping` keeps for the links that enter them.

#![tactic(auto)]

ghost use Rattle.std.specs.Prelude.{◌≡◌, List, ℕ, ◌<◌, length};
ghost use Rattle.layout.specs.Layout.{longest, size};
ghost use Rattle.keeping.specs.Keeping.{Markable};
ghost use Rattle.reasons.specs.Explaining.{Copied, Explains, ExplainsRow, reason_of};

use groups::LinkMark;

// The reasons are numbers and no enum: they are the bytes that the C interface hands to the caller.

// Nothing of g lies over the link.
pub const NOTHING_OVER: u8 = 1;

// The node that the link enters has two or more groups.
pub const GROUPS_MEET: u8 = 2;

// The link is kept for a wanted label or for what hangs below.
pub const WANTED: u8 = 3;

// The reason for a link, by its mark and by what `meeting` has at the node that the link enters.
fn reason_of(mark: u8, meeting: u8) -> u8
    ensures { result ≡ reason_of mark meeting }
{
    match (LinkMark::from(mark), meeting) {
        (LinkMark::Bare, _) => NOTHING_OVER,
        (_, 1) => GROUPS_MEET,
        _ => WANTED,
    }
}

// Puts the reasons for the links of node v at their places. `meeting` has 1 at the nodes with two or more groups, or with a group that nothing of
// g lies over.
fn explain_row<'a>(
    s: &'a [u16],
    marks: &'a [u8],
    meeting: &'a [u8; 255],
    words: &'a [u16],
    v: usize,
    reasons: &mut [u8; layout::LONGEST],
)
    requires markable { Markable s.now marks.now meeting.now × Copied s.now words.now × (v < size s.now) }
    requires reasons_len { length reasons.old ≡ longest }
    ensures { ExplainsRow s.now marks.now meeting.now words.now v reasons.old reasons.new }
{
    let s_end = s[v + 2] as usize;
    let mut j = s[v + 1] as usize + layout::HEADER;
    let end = words[v + 2] as usize;
    // The place k is needed: the reason for a link stands at its place.
    for k in words[v + 1] as usize + layout::HEADER..end {
        j = subsume::seek(s, j, s_end, layout::feature(words[k]));
        let target = layout::target(s[j]);
        reasons[k] = reason_of(marks[j], meeting[target]);
    }
}

// Puts the reasons for the kept links of s at their places in the rows of the difference.
pub fn explain_links<'a>(
    s: &'a [u16],
    marks: &'a [u8],
    words: &'a [u16],
    reasons: &mut [u8; layout::LONGEST],
)
    requires by_index { (meeting : List ℕ) → length meeting ≡ 255 → Markable s.now marks.now meeting }
    requires copied { Copied s.now words.now × (length reasons.old ≡ longest) }
    ensures { Explains s.now marks.now words.now reasons.new }
{
    // For a covered leading link, 1 marks the targets that a second leading link enters.
    let mut meeting = [0u8; 255];
    keeping::keep::keep_entered(s, marks, &mut meeting);
    let nodes = s[0] as usize;
    for v in 0..nodes {
        explain_row(s, marks, &meeting, words, v, reasons);
    }
}
