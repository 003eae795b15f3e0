// What is wrong with a line of a book file.
use crate::statement::{Field, Statement};
use std::error::Error;
use std::fmt;

#[derive(Clone, Copy, Debug)]
pub enum Malformed {
    /// The line begins with no keyword.
    Keyword,
    /// A word is no `name=number`.
    Word,
    /// A figure is none of the statement's.
    Name(Statement),
    /// A figure that has to be given is missing.
    Missing(Field),
    /// A figure is given again.
    Repeated(Field),
    /// A figure is no number of its kind.
    Number(Field),
    NinthBracket,
}

impl fmt::Display for Malformed {
    fn fmt<W: fmt::Write>(&self, f: &mut fmt::Formatter<W>) -> fmt::Result {
        match *self {
            Malformed::Keyword => f.write_str(
                "expected a statement's keyword as the first word, such as tariff, register, file, enrol or bill",
            ),
            Malformed::Word => f.write_str(
                "expected figures as name=number, with blanks only between them",
            ),
            Malformed::Name(statement) => {
                write!(f, "expected only the figures of {}", statement.example())
            }
            Malformed::Missing(field) => write!(f, "expected the figure {field}"),
            Malformed::Repeated(field) => write!(f, "expected the figure {field} only once"),
            Malformed::Number(field) => write!(f, "expected {} for {field}", field.kind()),
            Malformed::NinthBracket => f.write_str("expected no more than 8 brackets"),
        }
    }
}

impl Error for Malformed {}
