// A line of a book file: a keyword, then figures as name=number. One line holds what each row of a file says, one after the other: its figures are many to move.
mod figures;
mod reads;

ghost use Rattle.bookfile.specs.Syntax.{Good};

use crate::statement::{MOST_FIGURES, Statement};
pub(crate) use reads::before_comment;

/// A statement with its figures, each at the place of its name.
#[derive(Clone, Copy, Debug)]
pub struct Line {
    pub statement: Statement,
    pub figures: [Option<i128>; MOST_FIGURES],
    ghost good: { Good statement figures },
}
