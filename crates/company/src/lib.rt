// The companies of a book: the terms that they register, and what each event makes of a company.
#![tactic(auto)]

pub mod figures;
pub mod instalment;
pub mod record;
pub mod terms;
