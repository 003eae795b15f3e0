// Who is registered with a book, and the orders for the instalments of advances: what each call on them meets, and what it leaves.
#![tactic(auto)]

mod closed;
pub mod laws;
pub mod order;
mod payment;
mod protocol;
pub mod register;
