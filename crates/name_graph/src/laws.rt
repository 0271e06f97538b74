ghost use Rattle.name_graph.specs.Graph.{OrdersHaveNoCycle, HasOneFirstCycle};

/// There is an order only where no place reaches itself.
pub fn order_law()
    ensures { OrdersHaveNoCycle }
{}

/// At most one place is the first that reaches itself.
pub fn first_cycle_law()
    ensures { HasOneFirstCycle }
{}
