// What may stand at each place of the seven numbers: a span that the numbers before it give.

ghost use Rattle.std.specs.Prelude.{◌≡◌, true, ◌↔◌, ◌≤◌, ◌<◌};
ghost use Rattle.listed.specs.Listing.{sets, type_span, root_span, middle_span, last_span};
ghost use Rattle.listing.specs.Numbers.{Ends};

// The least and the greatest number that may stand at one place.
#[derive(Clone, Copy)]
pub struct Span {
    pub low: usize,
    pub high: usize,
}

impl Span {
    // Whether a number is within the span.
    pub fn contains(self, x: usize) -> bool
        ensures { (result ≡ true) ↔ ((self.low ≤ x) × (x ≤ self.high)) }
    {
        self.low <= x && x <= self.high
    }
}

// The span of a node's type over a table with n types, for a node that is there or not.
pub fn type_span(n: usize, there: bool) -> Span
    requires { 0 < n }
    ensures { Ends result (type_span n there) }
{
    if there {
        Span {
            low: 1,
            high: n - 1,
        }
    } else {
        Span { low: 0, high: 0 }
    }
}

// The number of choices of links to one node.
fn link_sets(features: usize) -> usize
    ensures { result ≡ sets features }
{
    if features == 1 { 1 } else { 3 }
}

// The span of the root's links.
pub fn root_span(features: usize, nodes: usize) -> Span
    ensures { Ends result (root_span features nodes) }
{
    if nodes == 1 {
        return Span { low: 0, high: 0 };
    }
    if nodes == 3 && features == 2 {
        return Span { low: 1, high: 4 };
    }
    Span {
        low: 1,
        high: link_sets(features),
    }
}

// The span of the links of node 1.
pub fn middle_span(features: usize, nodes: usize, links0: usize) -> Span
    ensures { Ends result (middle_span features nodes links0) }
{
    if nodes != 3 {
        return Span { low: 0, high: 0 };
    }
    Span {
        low: if links0 == 4 { 0 } else { 1 },
        high: link_sets(features),
    }
}

// The span of the links of node 2.
pub fn last_span(nodes: usize, links0: usize, links1: usize) -> Span
    ensures { Ends result (last_span nodes links0 links1) }
{
    if nodes != 3 || links0 != 4 || links1 != 0 {
        return Span { low: 0, high: 0 };
    }
    Span { low: 0, high: 3 }
}
