// Why a book file is not run, in print.
use crate::refused::{Refused, Told};
use bookfile::naming::figure_at;
use bookfile::statement::Statement;
use std::fmt;
use told::failure::Failure;
use told::thing::Thing;
use units::refusal::Refusal;

#[derive(Clone, Copy, Debug)]
pub struct NotRun(pub Failure);

impl fmt::Display for NotRun {
    fn fmt<W: fmt::Write>(&self, f: &mut fmt::Formatter<W>) -> fmt::Result {
        match self.0 {
            Failure::Input(e) => write!(f, "the book file cannot be read: {e}"),
            Failure::Unread(e) => write!(f, "{e}"),
            Failure::Tariff { refusal, brackets } => {
                write!(f, "{}", figure_told(refusal))?;
                if let Some(figure) = figure_at(refusal.place, brackets as u64) {
                    write!(f, ": {figure}")?;
                }
                Ok(())
            }
            Failure::Rule(refusal) => write_refused(f, Statement::Management, refusal),
            Failure::Opening(refusal) => write_refused(f, Statement::Opening, refusal),
            Failure::Unwritten => f.write_str("the answers cannot be written"),
            Failure::Memory => f.write_str("there is not enough memory"),
        }
    }
}

fn write_refused<W: fmt::Write>(
    f: &mut fmt::Formatter<W>,
    statement: Statement,
    refusal: Refusal,
) -> fmt::Result {
    let told = figure_told(refusal);
    write!(f, "{}", Refused { statement, told })
}

// A refusal at a figure, which is all that a table, a rule and an opening of a file can be refused for.
fn figure_told(refusal: Refusal) -> Told {
    Told {
        thing: Thing::Figure,
        refusal,
    }
}
