// A year's book over a journal and a management rule. Its callers lend it the two tables, call by call.
ghost use Rattle.std.specs.Prelude.{◌≡◌, None};

use journal::journal::Journal;
use management::rule::Management;
use opened::record::Opened;

mod closed;
mod closing;
mod instalments;
mod opening;
mod performing;
mod questions;
mod registering;
mod rows;

#[derive(Drop)]
pub struct Book<J: Journal, M: Management> {
    journal: J,
    rule: M,
    opened: Option<Opened>,
}

impl<J: Journal, M: Management> Book<J, M> {
    /// A book that is not open yet.
    pub fn new(journal: J, rule: M) -> Book<J, M>
        ensures { result ≡ record { journal = journal; rule = rule; opened = None } }
    {
        Book {
            journal,
            rule,
            opened: None,
        }
    }
}
