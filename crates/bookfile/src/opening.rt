// How the book is opened, as it is filed.

#[derive(Clone, Copy, Debug)]
pub struct OpeningFigures {
    /// The book's number.
    pub number: u64,
    /// The account's opening sum, in cents.
    pub sum: i64,
    /// How many entries the journal can hold.
    pub capacity: u64,
}
