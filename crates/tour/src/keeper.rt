// A bookkeeper: a book, and the tables that are lent to its calls. Each call is told by a line.
mod closings;
mod instalments;
mod questions;
mod rows;
mod spending;

use book::book::Book;
use journal::own_journal::OwnJournal;
use management::municipal::Municipal;
use tables::rows::{LocalityRow, PointRow};

#[derive(Drop)]
pub struct Keeper<'a> {
    /// What stands before each line.
    pub at: &'a str,
    pub book: Book<OwnJournal, Municipal>,
    pub localities: [LocalityRow; 2],
    pub points: [PointRow; 2],
}

impl<'a> Keeper<'a> {
    pub fn new(at: &'a str, rule: Municipal) -> Keeper<'a> {
        Keeper {
            at,
            book: Book::new(OwnJournal::new(), rule),
            localities: [LocalityRow::default(); 2],
            points: [PointRow::default(); 2],
        }
    }
}
