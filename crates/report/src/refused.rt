// Refusals in print.
use crate::call::About;
use bookfile::statement::Statement;
use calls::call::Call;
use std::fmt;
use told::at_fault::field_at_fault;
use told::making::statement_of;
use told::saying::RefusedCall;
use told::so_far::YearToDate;
use told::thing::Thing;
use units::refusal::{Reason, Refusal};

/// A refusal, and what its place counts.
#[derive(Clone, Copy, Debug)]
pub(crate) struct Told {
    pub(crate) thing: Thing,
    pub(crate) refusal: Refusal,
}

impl fmt::Display for Told {
    fn fmt<W: fmt::Write>(&self, f: &mut fmt::Formatter<W>) -> fmt::Result {
        let Told { thing, refusal } = *self;
        let (number, layer, word, place) = (
            refusal.number(),
            refusal.layer(),
            thing.word(),
            refusal.place,
        );
        write!(f, "refusal {number} ({layer}) at {word} {place}: ")?;
        match thing.found(refusal.reason) {
            Some(words) => f.write_str(words),
            None => write!(f, "{}", refusal.reason),
        }
    }
}

/// A statement that is refused. A figure that the refusal names by its number is printed with its name too.
#[derive(Clone, Copy, Debug)]
pub(crate) struct Refused {
    pub(crate) statement: Statement,
    pub(crate) told: Told,
}

impl fmt::Display for Refused {
    fn fmt<W: fmt::Write>(&self, f: &mut fmt::Formatter<W>) -> fmt::Result {
        write!(f, "{}", self.told)?;
        let Refusal { reason, place } = self.told.refusal;
        match reason {
            Reason::FigureLimit | Reason::FiguresAtOdds => {
                write!(f, ": {}", field_at_fault(self.statement, place))
            }
            _ => Ok(()),
        }
    }
}

/// Writes a refused call of a file.
pub(crate) fn write_refused<W: fmt::Write>(
    out: &mut W,
    file: &str,
    refused: &RefusedCall,
) -> fmt::Result {
    let RefusedCall {
        line,
        call,
        refusal,
        on_record,
    } = *refused;
    let thing = Thing::of(call, refusal);
    let told = Refused {
        statement: statement_of(call),
        told: Told { thing, refusal },
    };
    write!(out, "{file}:{line}: {}: {told}", About(call))?;
    if let Call::Bill { change, .. } = call {
        let YearToDate { volume, days } = on_record;
        match refusal.reason {
            Reason::VolumeRange => write!(
                out,
                ": {volume} Smc on record, change {}",
                change.volume
            )?,
            Reason::DaysRange => write!(out, ": {days} days on record, change {}", change.days)?,
            _ => {}
        }
    }
    writeln!(out)
}
