//! Laws of the order of globals.

ghost use Rattle.std.specs.Prelude.{◌≡◌, ℕ, List};
ghost use Rattle.global_order.specs.Needs.{IsCircle};
ghost use Rattle.global_order.specs.Order.{IsOrder};
ghost use Rattle.global_order.specs.declared.graph.Node.{Node};

/// A graph has one order at most.
pub fn one_order()
    ensures { (nodes : List Node) (order other : List ℕ) → IsOrder nodes order → IsOrder nodes other → order ≡ other }
{}

/// A graph that has an order has no circle.
pub fn order_or_circle()
    ensures { (nodes : List Node) (order : List ℕ) (g : ℕ) → IsOrder nodes order → IsCircle nodes g → ⊥ }
{}
