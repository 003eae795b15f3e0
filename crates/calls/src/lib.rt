// What the calls of a book meet: what each is granted, or the first refusal that applies.
#![tactic(auto)]

pub mod asking;
pub mod billing;
pub mod call;
pub mod enrolling;
pub mod filing;
pub mod records;
