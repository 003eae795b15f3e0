// What the calls of a book file answer and what its year comes to, in print.
#![tactic(auto)]

mod answer;
mod bill;
mod call;
pub mod failure;
pub mod malformed;
mod owed;
mod refused;
mod standing;
pub mod summary;
pub mod telling;
pub mod year;
