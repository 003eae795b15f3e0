// The units of the book, one type each, and the numbered refusals.
#![tactic(auto)]

pub mod amounts;
pub mod refusal;
