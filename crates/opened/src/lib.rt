// What is on record in an opened book, and the figures that are found from it: its questions, its account, and what a closing settles. No journal is known
// here.
#![tactic(auto)]

mod account;
mod company_costs;
pub mod company_year;
mod questions;
pub mod record;
pub mod settlement;
