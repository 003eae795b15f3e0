// What a locality costs by a tariff table: its capital costs, what it adds in regime, and what it adds to recognised revenue.
#![tactic(auto)]

mod assets;
pub mod capital;
pub mod figure;
pub mod regime;
