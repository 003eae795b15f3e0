// The yearly book: over a journal and a management rule, the calls that alter it and the questions that it answers.
#![tactic(auto)]

pub mod book;
mod on_record;
#[cfg(test)]
mod tests;
