// What a granted call of a book is answered and enters into the journal, and the laws of the book: of what each call meets and leaves by its definition, whatever
// code keeps to it.
#![tactic(auto)]

pub mod answer;
pub mod entries;
pub mod laws;
