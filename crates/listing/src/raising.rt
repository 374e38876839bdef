// Raises the numbers of a record to those of the next one: the last number that can be raised is raised, and those behind it take their least.

ghost use Rattle.std.specs.Prelude.{◌≡◌, true, ◌↔◌, [], ◌∷◌, ◌<◌};
ghost use Rattle.std.proofs.Math.Option.{none};
ghost use Rattle.listed.specs.Listing.{span, Run, raised};
ghost use Rattle.listed.specs.Numbers.{least_behind1, least_links1, least_type1, least_links0};
ghost use Rattle.listing.specs.Numbers.{number_list, raised_list};

use crate::numbers::{Node, Numbers};
use crate::spans::{last_span, middle_span, root_span, type_span};

// The given numbers, with the least for node 2.
fn from_last(nodes: usize, root: Node, middle: Node) -> Numbers
    ensures { number_list result ≡ nodes ∷ root.kind ∷ root.links ∷ middle.kind ∷ middle.links ∷ least_behind1 nodes }
{
    let kind = if nodes == 3 { 1 } else { 0 };
    Numbers {
        nodes,
        root,
        middle,
        last: Node { kind, links: 0 },
    }
}

// The given numbers, with the least for the links of node 1 and for node 2.
fn from_middle_links(features: usize, nodes: usize, root: Node, kind: usize) -> Numbers
    ensures { number_list result ≡ nodes ∷ root.kind ∷ root.links ∷ kind ∷ least_links1 features nodes root.links }
{
    let links = middle_span(features, nodes, root.links).low;
    from_last(nodes, root, Node { kind, links })
}

// The given numbers, with the least for nodes 1 and 2.
fn from_middle(features: usize, nodes: usize, root: Node) -> Numbers
    ensures { number_list result ≡ nodes ∷ root.kind ∷ root.links ∷ least_type1 features nodes root.links }
{
    let kind = if 2 <= nodes { 1 } else { 0 };
    from_middle_links(features, nodes, root, kind)
}

// The given numbers, with the least for the root's links and for nodes 1 and 2.
pub fn from_root_links(features: usize, nodes: usize, kind: usize) -> Numbers
    ensures { number_list result ≡ nodes ∷ kind ∷ least_links0 features nodes }
{
    let links = root_span(features, nodes).low;
    from_middle(features, nodes, Node { kind, links })
}

impl Numbers {
    // Whether all seven numbers are within their bounds.
    pub fn are_within(self, n: usize, features: usize) -> bool
        requires { 0 < n }
        ensures { (result ≡ true) ↔ Run (span n features) [] (number_list self) }
    {
        let Numbers {
            nodes,
            root,
            middle,
            last,
        } = self;
        if nodes == 0 {
            return false;
        }
        if 3 < nodes {
            return false;
        }
        if !type_span(n, true).contains(root.kind) {
            return false;
        }
        if !root_span(features, nodes).contains(root.links) {
            return false;
        }
        if !type_span(n, 2 <= nodes).contains(middle.kind) {
            return false;
        }
        if !middle_span(features, nodes, root.links).contains(middle.links) {
            return false;
        }
        if !type_span(n, nodes == 3).contains(last.kind) {
            return false;
        }
        last_span(nodes, root.links, middle.links).contains(last.links)
    }

    // The numbers of the next record, if there is one.
    pub fn raised(self, n: usize, features: usize) -> Option<Numbers>
        requires { 0 < n }
        ensures { raised_list result ≡ raised (span n features) [] (number_list self) }
    {
        let Numbers {
            nodes,
            root,
            middle,
            last,
        } = self;
        if last.links < last_span(nodes, root.links, middle.links).high {
            let up = Node {
                links: last.links + 1,
                ..last
            };
            return Some(Numbers { last: up, ..self });
        }
        if last.kind < type_span(n, nodes == 3).high {
            let up = Node {
                kind: last.kind + 1,
                links: 0,
            };
            return Some(Numbers { last: up, ..self });
        }
        if middle.links < middle_span(features, nodes, root.links).high {
            let up = Node {
                links: middle.links + 1,
                ..middle
            };
            return Some(from_last(nodes, root, up));
        }
        self.raised_first(n, features)
    }

    // The numbers of the next record, if there is one, where nothing behind the type of node 1 can be raised.
    fn raised_first(self, n: usize, features: usize) -> Option<Numbers>
        requires n_nonzero { 0 < n }
        requires links2_value { raised (span n features) (self.middle.kind ∷ self.root.links ∷ self.root.kind ∷ self.nodes ∷ [])
            (self.middle.links ∷ self.last.kind ∷ self.last.links ∷ []) ≡ none }
        ensures { raised_list result ≡ raised (span n features) [] (number_list self) }
    {
        let nodes = self.nodes;
        let root = self.root;
        let kind = self.middle.kind;
        if kind < type_span(n, 2 <= nodes).high {
            return Some(from_middle_links(features, nodes, root, kind + 1));
        }
        if root.links < root_span(features, nodes).high {
            let up = Node {
                links: root.links + 1,
                ..root
            };
            return Some(from_middle(features, nodes, up));
        }
        if root.kind < n - 1 {
            return Some(from_root_links(features, nodes, root.kind + 1));
        }
        if nodes < 3 {
            return Some(from_root_links(features, nodes + 1, 1));
        }
        None
    }
}
