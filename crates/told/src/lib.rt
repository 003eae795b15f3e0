// What is told of the calls of a book file and of its year, before it is printed.
#![tactic(auto)]

pub mod at_fault;
pub mod failure;
pub mod listed;
pub mod making;
pub mod owing;
pub mod saying;
pub mod so_far;
pub mod standing;
pub mod summary;
pub mod thing;
