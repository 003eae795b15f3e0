// The journal of a book: its entries, what a journal of them is, and two kinds of it.
#![tactic(auto)]

pub mod entry;
pub mod journal;
pub mod lent_journal;
pub mod own_journal;
