// What the calls on points read.
use orders::register::Register;
use tables::rows::{LocalityRow, PointRow};

/// The companies of a book, and the two tables that are lent to it.
#[derive(Clone, Copy, Debug, PartialEq, Eq)]
pub struct Records<'a> {
    pub register: &'a Register,
    pub localities: &'a [LocalityRow],
    pub points: &'a [PointRow],
}
