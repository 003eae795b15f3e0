// The operating point price of a company: what a management rule is, and the municipal and the area-wide rule.
#![tactic(auto)]

pub mod area_wide;
pub mod municipal;
mod prices;
pub mod rule;
mod size;
pub mod traits;
mod weights;
