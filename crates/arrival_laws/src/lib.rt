//! Arrival orders: inputs of a cell that rise one by one within a phase, the circuit settling after each. Laws alone, each the contract of a
//! function that does nothing.
#![tactic(auto)]

ghost use Rattle.arrival_laws.specs.Orders.{EqualPhasesSettle, FullOrdersEnd};
ghost use Rattle.arrival_laws.specs.Steps.{OrdersGiveSteps, StepsGiveOrders, StepsTellOrders};

/// Where no single step fails, every order goes well, at each setting at which the circuit settles.
#[tactic(auto, using(crate::proofs::OrderLaws::steps_give_orders))]
pub fn steps_give_orders()
    ensures { StepsGiveOrders }
{}

/// Where every order goes well, no single step fails.
pub fn orders_give_steps()
    ensures { OrdersGiveSteps }
{}

/// The circuit of an equal phase settles at each valuation that meets the constraints.
#[tactic(auto, using(crate::proofs::SettlingLaws::equal_phases_settle))]
pub fn equal_phases_settle()
    ensures { EqualPhasesSettle }
{}

/// In an equal phase every order goes well at every valuation exactly where no single step fails at any.
pub fn steps_tell_orders()
    ensures { StepsTellOrders }
{}

/// An order of all inputs that rise ends at the valuation itself.
#[tactic(auto, using(crate::proofs::SettlingLaws::full_orders_end))]
pub fn full_orders_end()
    ensures { FullOrdersEnd }
{}
