// The tariff layer: a tariff table within its limits, and the six lines of a bill by it.
#![tactic(auto)]

pub mod bill;
pub mod figure_limits;
pub mod figures;
pub mod line;
pub mod lines;
pub mod supply;
pub mod table;
mod variable;
