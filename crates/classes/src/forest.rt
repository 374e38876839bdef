// The forest of classes: each node has a parent of no greater number, and the root above a node represents the node's class.

ghost use Rattle.std.specs.Prelude.{ℕ, ◌≤◌, ◌<◌, length, get_or, ◌≡◌};
ghost use Rattle.classes.specs.Forest.{Forest, SameRoots, United, root_of};

// Makes each of the first `nodes` nodes a class of its own.
pub fn separate(nodes: usize, parent: &mut [u16; 510])
    requires { (nodes ≤ 510) × (length parent.old ≡ 510) }
    ensures parent_len { length parent.new ≡ 510 }
    ensures by_index { (x : ℕ) → x < nodes → get_or parent.new x 0 ≡ x }
{
    for x in 0..nodes {
        parent[x] = x as u16;
    }
}

// The root above x. On the way up, every second node gets a parent one step nearer to the root.
pub fn find(parent: &mut [u16; 510], x: usize) -> usize
    requires { (nodes : ℕ) × Forest nodes parent.old × (x < nodes) }
    ensures value { result ≡ root_of parent.old x }
    ensures by_index { (nodes : ℕ) → Forest nodes parent.old → x < nodes → SameRoots nodes parent.old parent.new }
{
    let mut v = x;
    let mut up = parent[v] as usize;
    while up < v {
        let next = parent[up];
        parent[v] = next;
        v = next as usize;
        up = parent[v] as usize;
    }
    v
}

// Makes one class of the classes of a and b.
pub fn unite(parent: &mut [u16; 510], a: usize, b: usize)
    requires { (nodes : ℕ) × Forest nodes parent.old × (a < nodes) × (b < nodes) }
    ensures { (nodes : ℕ) → Forest nodes parent.old → a < nodes → b < nodes → United nodes parent.old a b parent.new }
{
    let x = find(parent, a);
    let y = find(parent, b);
    if x < y {
        parent[y] = x as u16;
    } else if y < x {
        parent[x] = y as u16;
    }
}

// Puts each of the first `nodes` nodes right below its root.
pub fn flatten(nodes: usize, parent: &mut [u16; 510])
    requires { Forest nodes parent.old }
    ensures parent_len { length parent.new ≡ 510 }
    ensures by_index { (x : ℕ) → x < nodes → get_or parent.new x 0 ≡ root_of parent.old x }
{
    for x in 0..nodes {
        let up = parent[x] as usize;
        parent[x] = parent[up];
    }
}
