//! The order in which a C header can declare the types of a table, and the laws of such an order.
//!
//! The definitions are in `specs/`. Each law is the contract of a function here that does nothing.
#![tactic(auto)]

ghost use Rattle.btf_order_model.specs.Laws.{OrderHasNoLoop};

/// If a table has an order of its declarations, then no declared type contains itself by value.
pub fn order_has_no_loop()
    ensures { OrderHasNoLoop }
{}
