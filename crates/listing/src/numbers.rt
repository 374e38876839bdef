// The seven numbers that state a listed record, and the record's bytes by these numbers.

ghost use Rattle.std.specs.Prelude.{◌≡◌, cond, true, ◌↔◌, ◌+◌, ◌≤◌, ◌<◌, length, get_or};
ghost use Rattle.listed.specs.Listing.{heir, record_of};
ghost use Rattle.listed.specs.Numbers.{root_links, numbers_of, row_bytes};
ghost use Rattle.listed.specs.Numbers.{width as width_of};
ghost use Rattle.listing.specs.Numbers.{number_list, Nodes};

// The type and the links of a node, by number; 0 and 0 where the node is not there. Links by number: 0, none; 1, 2 and 3, by feature 0, by feature 1
// and by both to one node; 4, of the root alone, feature 0 to node 1 and feature 1 to node 2. They stay numbers, and no enum: the listing counts
// them, and the definitions `span` and `raised` compare and raise them as numbers.
#[derive(Clone, Copy)]
pub struct Node {
    pub kind: usize,
    pub links: usize,
}

// The number of nodes, and nodes 0, 1 and 2.
#[derive(Clone, Copy)]
pub struct Numbers {
    pub nodes: usize,
    pub root: Node,
    pub middle: Node,
    pub last: Node,
}

// The byte at a place; 0 behind the end.
fn byte_at(bytes: &[u8], at: usize) -> usize
    ensures { result ≡ get_or bytes.now at 0 }
{
    bytes.get(at).copied().unwrap_or(0) as usize
}

// The number of the root's links, by the bytes of a record.
fn root_links(bytes: &[u8]) -> usize
    ensures { result ≡ root_links bytes.now }
{
    let map = byte_at(bytes, 2);
    if map != 3 {
        return map;
    }
    if byte_at(bytes, 10) == byte_at(bytes, 11) {
        return 3;
    }
    4
}

// The one node that the links of node v lead to: 2 from node 1, and 1 from the others.
fn heir_of(v: usize) -> usize
    ensures { result ≡ heir v }
{
    if v == 1 { 2 } else { 1 }
}

impl Node {
    // The node whose type stands at a place and its links behind it, where the node is there.
    fn at(there: bool, bytes: &[u8], at: usize) -> Node
        requires { at < 64 }
        ensures kind_is { result.kind ≡ cond there (get_or bytes.now at 0) 0 }
        ensures links_are { result.links ≡ cond there (get_or bytes.now (at + 1) 0) 0 }
    {
        if !there {
            return Node { kind: 0, links: 0 };
        }
        Node {
            kind: byte_at(bytes, at),
            links: byte_at(bytes, at + 1),
        }
    }

    // How many links the number of the node's links stands for.
    fn width(self) -> usize
        ensures { (result ≡ width_of self.links) × (result ≤ 2) }
    {
        match self.links {
            0 => 0,
            1 | 2 => 1,
            _ => 2,
        }
    }

    // The byte at a place of the row of the node, which is node v.
    fn row_byte(self, v: usize, at: usize) -> usize
        requires { at < 9 + width_of self.links }
        ensures { result ≡ get_or (row_bytes v self.kind self.links) at 0 }
    {
        if 4 <= self.links {
            let row = [self.kind, 3, 0, 0, 0, 0, 0, 0, 0, 1, 2];
            return row[at];
        }
        let heir = heir_of(v);
        let row = [self.kind, self.links, 0, 0, 0, 0, 0, 0, 0, heir, heir];
        row[at]
    }
}

impl Numbers {
    // The seven numbers that these bytes would have as a listed record.
    pub fn of(bytes: &[u8]) -> Numbers
        ensures { number_list result ≡ numbers_of bytes.now }
    {
        let nodes = byte_at(bytes, 0);
        let root = Node {
            kind: byte_at(bytes, 1),
            links: root_links(bytes),
        };
        let second = 10 + root.width();
        let middle = Node::at(2 <= nodes, bytes, second);
        let third = second + 9 + middle.width();
        let last = Node::at(3 <= nodes, bytes, third);
        Numbers {
            nodes,
            root,
            middle,
            last,
        }
    }

    // The length of the record that the numbers state.
    pub fn length(self) -> usize
        requires { Nodes self }
        ensures { result ≡ length (record_of (number_list self)) }
    {
        let one = 10 + self.root.width();
        if self.nodes == 1 {
            return one;
        }
        let two = one + 9 + self.middle.width();
        if self.nodes == 2 {
            return two;
        }
        two + 9 + self.last.width()
    }

    // The byte at a place of the record that the numbers state.
    pub fn byte(self, at: usize) -> usize
        requires { Nodes self × (at < length (record_of (number_list self))) }
        ensures { result ≡ get_or (record_of (number_list self)) at 0 }
    {
        if at == 0 {
            return self.nodes;
        }
        let one = 10 + self.root.width();
        if at < one {
            return self.root.row_byte(0, at - 1);
        }
        let two = one + 9 + self.middle.width();
        if at < two {
            return self.middle.row_byte(1, at - one);
        }
        self.last.row_byte(2, at - two)
    }

    // Whether the bytes are the record that the numbers state.
    pub fn is_record(self, bytes: &[u8]) -> bool
        requires { Nodes self }
        ensures { (result ≡ true) ↔ (bytes.now ≡ record_of (number_list self)) }
    {
        if bytes.len() != self.length() {
            return false;
        }
        for (i, byte) in bytes.iter().enumerate() {
            if *byte as usize != self.byte(i) {
                return false;
            }
        }
        true
    }
}
