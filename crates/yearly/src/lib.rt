// The yearly run: a book is opened and performs calls, and whatever they are its books meet afterwards.
#![tactic(auto)]

pub mod run;
