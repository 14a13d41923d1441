//! The law by which what is drawn over new numbers of events is named.

ghost use Rattle.event_order.specs.Laws.{LeastByNames};

/// Where the least firable sets at which the operand is true are drawn over what `order_events` gives, the family of these sets by
/// their names has the least firable sets of the first trees at which the first operand is true.
pub fn least_by_names()
    ensures { LeastByNames }
{}
