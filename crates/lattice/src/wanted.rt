// Finds the wanted type of a node (document 01, "Difference"): the greatest of the types whose meet with q is p. Here p is the node's
// type in s, and q the meet of all g types over the node.
ghost use Rattle.std.specs.Prelude.{◌≡◌, ℕ, ◌<◌, ◌≤◌, true, false, List};
ghost use Rattle.lattice.specs.Table.{accepted};
ghost use Rattle.lattice.specs.Words.{Words, Restoring, WantedOver};

// The union of the words of those of the n types whose word shares with `over` the bits of `lower` and no others.
fn unite_restoring(n: usize, down: &[u64; 64], lower: u64, over: u64) -> u64
    requires { n ≤ 64 }
    ensures { Restoring n down.now lower over result }
{
    let mut all = 0u64;
    for row in &down[..n] {
        if *row & over == lower {
            all |= *row;
        }
    }
    all
}

// The wanted type for the type p in s and the meet q whose word is `over`, in an accepted table with these words, if there is
// one. If q is p, the wanted type is the greatest type. If q is the greatest type, the wanted type is p. Else the wanted type is the one
// whose word is the union: every type that restores p is below that type, and that type is below one of them.
pub fn wanted(n: usize, down: &[u64; 64], p: usize, over: u64) -> Option<u8>
    requires { (n ≤ 64) × (p < n) }
    ensures { (t : List ℕ) → accepted n t ≡ true → Words n t false down.now → WantedOver n t down.now p over result }
{
    let lower = down[p];
    if over == lower {
        return Some((n - 1) as u8);
    }
    if over == down[n - 1] {
        return Some(p as u8);
    }
    let all = unite_restoring(n, down, lower, over);
    super::search::find_word(down, all, false)
}
