//! What holds of every table.
ghost use Rattle.std.specs.Prelude.{List, ℕ};
ghost use Rattle.rule_index.specs.Order.{order_of, IsOrder};

/// The order by which entries are numbered ascends strictly by rank and place, and has each entry once.
#[tactic(auto, using(crate::proofs::Sorted::is_order))]
pub fn law_of_order()
    ensures { (entries : List (List ℕ)) → IsOrder entries (order_of entries) }
{}
