// The order of links that a call for a difference asks for: by parent number, then feature (document 01, "Difference"), or by a clinic's
// reading order, which is a list of all 64 features, each once (document 02, Paper 10). Either order gives each feature a rank. Links of
// a lesser rank come first, and links of one rank come in the order of their places. `calls` makes an order, and `groups` asks for its ranks.
// This crate knows features and lists of them, and no graph in words.

#![tactic(auto)]

ghost use Rattle.std.specs.Prelude.{◌≡◌, ℕ, ◌<◌, true, length, get_or};
ghost use Rattle.graphs.specs.Difference.{by_number, by_reading, place_in};
ghost use Rattle.link_orders.specs.LinkOrders.{Fitting, Ranks, earlier_by, is_reading_order};

// The number of features.
pub const FEATURES: usize = 64;

// An order of links: by parent number, then by feature; or by the feature's place in a list, then by parent number.
#[derive(Clone, Copy)]
pub enum LinkOrder {
    ByNumber,
    ByList([u8; FEATURES]),
}

// Whether a list has all 64 features, each once.
pub fn is_reading_order(list: &[u8]) -> bool
    ensures { result ≡ is_reading_order list.now }
{
    if list.len() != FEATURES {
        return false;
    }
    let mut seen = [false; FEATURES];
    for &feature in list {
        let f = feature as usize;
        if f >= FEATURES {
            return false;
        }
        if seen[f] {
            return false;
        }
        seen[f] = true;
    }
    true
}

// The order of document 01: "Links are ordered by parent number, then feature."
pub fn by_number() -> LinkOrder
    ensures { Fitting result × (earlier_by result ≡ by_number) }
{
    LinkOrder::ByNumber
}

// The order "by the feature's place in the list, then by parent number" (document 02, Paper 10), for a list of all 64 features, each once.
pub fn by_list(list: &[u8]) -> LinkOrder
    requires { is_reading_order list.now ≡ true }
    ensures { Fitting result × (earlier_by result ≡ by_reading list.now) }
{
    LinkOrder::ByList(list.try_into().unwrap())
}

// The place of each feature in a list of all 64 features, each once.
fn places(list: &[u8; FEATURES]) -> [u8; FEATURES]
    requires { is_reading_order list.now ≡ true }
    ensures { (length result ≡ 64) × ((f : ℕ) → f < 64 → get_or result f 0 ≡ place_in list.now f) }
{
    let mut at = [0u8; FEATURES];
    for (i, &feature) in list.iter().enumerate() {
        at[feature as usize] = i as u8;
    }
    at
}

// The rank that an order of links gives to each feature.
pub fn ranks(order: LinkOrder) -> [u8; FEATURES]
    requires { Fitting order }
    ensures { Ranks order result }
{
    match order {
        LinkOrder::ByNumber => [0u8; FEATURES],
        LinkOrder::ByList(list) => places(&list),
    }
}
