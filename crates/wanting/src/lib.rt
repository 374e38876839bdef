// This crate finds the wanted labels of the nodes of s (document 01, "Difference"; document 02, Papers 6 and 7). The wanted label of a node is
// the greatest label whose meet with the meet of all g labels over the node equals the node's label in s. The difference is refused where a
// node has no wanted label. This crate knows graphs in words and an accepted table; it knows no reply and no record's bytes.

#![tactic(auto)]

ghost use Rattle.std.specs.Prelude.{◌≡◌, ◌≤◌, ◌<◌, length, option_map};
ghost use Rattle.lattice.specs.Labels.{wanted_level};
ghost use Rattle.layout.specs.Builder.{stated};
ghost use Rattle.wanting.specs.Asked.{Asked};
ghost use Rattle.wanting.specs.Wanted.{LabelsOver, MetBy, WantedLabelOver, WantsAll};

use layout::Label;

// The meet of all g labels over a node of s: the word of the types below its type, and its levels.
#[derive(Clone, Copy)]
struct Meet {
    word: u64,
    lowest: u8,
    highest: u8,
}

// Finds the meet of all g labels over each of the `nodes` nodes of s, top if none.
fn meet_over<'a>(
    n: usize,
    down: &'a [u64; 64],
    nodes: usize,
    g: &'a [u16],
    map: &'a [u16; 255],
    met: &mut [Meet; 255],
)
    requires { LabelsOver n nodes g.now map.now × (length met.old ≡ 255) }
    ensures { MetBy n down.now nodes g.now map.now met.new }
{
    met[..nodes].fill(Meet {
        word: down[n - 1],
        lowest: 0,
        highest: 255,
    });
    for y in (0..g[0] as usize).rev() {
        let v = map[y] as usize;
        let a = layout::label_at(g, y);
        let before = met[v];
        met[v] = Meet {
            word: down[a.kind as usize] & before.word,
            lowest: a.lowest.max(before.lowest),
            highest: a.highest.min(before.highest),
        };
    }
}

// The wanted level for the level p in s, over the level q: `widest` if p equals q, else p.
fn wanted_level(widest: u8, p: u8, q: u8) -> u8
    ensures { result ≡ wanted_level widest p q }
{
    if p == q { widest } else { p }
}

// The wanted label for the label p in s, if there is one.
fn wanted_label(n: usize, down: &[u64; 64], p: Label, met: Meet) -> Option<Label>
    requires { (n ≤ 64) × (p.kind < n) }
    ensures { WantedLabelOver n down.now (stated p) met (option_map stated result) }
{
    let kind = lattice::wanted::wanted(n, down, p.kind as usize, met.word)?;
    Some(Label {
        kind,
        lowest: wanted_level(0, p.lowest, met.lowest),
        highest: wanted_level(255, p.highest, met.highest),
    })
}

// Stores the wanted label of each node of s. Answers whether every node, the root too, has a wanted label.
pub fn wanted_labels<'a>(
    n: usize,
    table: &'a [u8],
    g: &'a [u16],
    s: &'a [u16],
    map: &'a [u16; 255],
    labels: &mut [u16; 510],
) -> bool
    requires { Asked n table.now g.now s.now map.now × (length labels.old ≡ 510) }
    ensures { WantsAll n table.now s.now g.now map.now result labels.new }
{
    let nodes = s[0] as usize;
    let down = lattice::words::read_words(n, table);
    let mut met = [Meet {
        word: 0,
        lowest: 0,
        highest: 0,
    }; 255];
    meet_over(n, &down, nodes, g, map, &mut met);
    for v in 0..nodes {
        let p = layout::label_at(s, v);
        let Some(label) = wanted_label(n, &down, p, met[v]) else {
            return false;
        };
        layout::put_label(labels, layout::HEADER * v, label);
    }
    true
}
