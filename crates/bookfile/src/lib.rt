// The book file: its syntax, and what a file says.
#![tactic(auto)]

pub mod call;
pub mod faults;
pub mod file;
mod filing;
pub mod laws;
mod line;
pub mod malformed;
pub mod mark;
pub mod naming;
mod numbers;
pub mod opening;
pub mod rule;
mod slots;
pub mod statement;
mod table;
