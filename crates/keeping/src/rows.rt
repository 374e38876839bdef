// The rows of the difference: the wanted labels, and the links that lead their group and enter a kept node.

ghost use Rattle.std.specs.Prelude.{◌≡◌, ℕ, ◌*◌, ◌≤◌, ◌<◌, length};
ghost use Rattle.lattice.specs.Labels.{Known};
ghost use Rattle.layout.specs.Layout.{header, label_from, links_from, row_end, size};
ghost use Rattle.keeping.specs.Keeping.{Markable};
ghost use Rattle.keeping.specs.Thinning.{Kept, Thinned};

// Copies the kept links of node v to the words from `at` on. Answers the next place.
fn keep_row<'a>(
    s: &'a [u16],
    marks: &'a [u8],
    keep: &'a [u8; 255],
    v: usize,
    at: usize,
    words: &mut [u16],
) -> usize
    requires markable { Markable s.now marks.now keep.now × (v < size s.now) }
    requires words_len { (length words.old ≡ length s.now) × (at ≤ links_from s.now v) }
    ensures { Thinned s.now marks.now keep.now v (row_end s.now v) words.old at words.new result }
{
    let end = s[v + 2] as usize;
    let mut next = at;
    // The place k is needed: the mark of a link stands at its place.
    for k in s[v + 1] as usize + layout::HEADER..end {
        if super::keep::is_kept(s, marks, keep, k) {
            words[next] = s[k];
            next += 1;
        }
    }
    next
}

// Fills words with the rows of the difference.
pub fn kept_links<'a>(
    s: &'a [u16],
    marks: &'a [u8],
    keep: &'a [u8; 255],
    labels: &'a [u16; 510],
    words: &mut [u16],
)
    requires markable { Markable s.now marks.now keep.now }
    requires labels_len { (length labels.now ≡ 510) × ((v : ℕ) → v < size s.now → Known 128 (label_from labels.now (header * v))) }
    requires words_len { length words.old ≡ length s.now }
    ensures { Kept s.now marks.now keep.now labels.now words.new }
{
    let nodes = s[0] as usize;
    let mut at = s[1] as usize;
    words[0] = nodes as u16;
    words[1] = at as u16;
    for v in 0..nodes {
        layout::put_label(words, at, layout::label_from(labels, layout::HEADER * v));
        at = keep_row(s, marks, keep, v, at + layout::HEADER, words);
        words[v + 2] = at as u16;
    }
}
