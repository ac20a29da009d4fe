//! In which order the entries of a table are tried.
ghost use Rattle.std.specs.Prelude.{◌≡◌, ◌==◌, ◌+◌, ◌<◌, ◌≤◌, ◌++◌, All, IsSome, length};
ghost use Rattle.std.specs.List.{position};
ghost use Rattle.vlan_rule.specs.Table.{table_max_size};
ghost use Rattle.explain.specs.Order.{number_of, places_of, tried_order};

use arrayvec::ArrayVec;
use vlan_rule::{Rank, RuleTable};

/// The places of a table's entries in the order in which they are tried for a frame: by rank, and those of one rank by place. The
/// entry that is used for a frame is the first of them that matches it.
pub fn tried_order(table: &RuleTable) -> ArrayVec<usize, 128>
    ensures order { result.items ≡ tried_order table.now }
    ensures in_range { All (λ place. place < length table.now) result.items }
{
    let len = table.len();
    let mut order = ArrayVec::new();
    append_places(table, len, Rank::Ordinary, &mut order);
    append_places(table, len, Rank::Default, &mut order);
    append_places(table, len, Rank::Predefined, &mut order);
    order
}

/// Appends the places of the entries of a rank.
fn append_places(table: &RuleTable, len: usize, rank: Rank, order: &mut ArrayVec<usize, 128>)
    requires len { len ≡ length table.now }
    requires room { length order.old.items + length (places_of rank table.now) ≤ table_max_size }
    ensures { order.new.items ≡ order.old.items ++ places_of rank table.now }
{
    for place in 0..len {
        if let Some(rule) = table.rule(place) {
            if rule.rank.number() == rank.number() {
                order.push(place);
            }
        }
    }
}

/// The number of the entry at a place: how many entries are tried before it for a frame. None exactly where no entry stands there.
pub fn number_of(table: &RuleTable, place: usize) -> Option<usize>
    ensures value { result ≡ number_of table.now place }
    ensures found { place < length table.now → IsSome result }
{
    first_at(tried_order(table).as_slice(), place)
}

/// Where a place stands first among places.
fn first_at(places: &[usize], place: usize) -> Option<usize>
    ensures { result ≡ position (λ tried. tried == place) places.now }
{
    places.iter().position(|tried| *tried == place)
}
