// A book file as a whole: its tariff table, its management rule, its opening and its calls, or its first malformed line.
ghost use Rattle.std.specs.Prelude.{◌≡◌, ◌++◌, length, Some, None, IfOk, IfErr, MatchResult, OnOk, if◌then◌else◌};
ghost use Rattle.bookfile.specs.declared.file.Unread.TheVariants.{Memory};
ghost use Rattle.bookfile.specs.Faults.{Fault};
ghost use Rattle.bookfile.specs.Files.{Says, Placed, Step, line_filings, line_calls};

use crate::call::call_of;
use crate::filing::filing_of;
use crate::line::Line;
use crate::malformed::Malformed;
use crate::opening::OpeningFigures;
use crate::rule::RuleFigures;
use crate::table::Table;
use calls::call::Call;
use std::alloc::{AllocError, AllocFailed, Global};
use std::error::Error;
use std::fmt;
use tables::rows::LocalityRow;
use tariff::figures::TariffFigures;

/// A call, and the number of its line, from 1.
#[derive(Clone, Copy, Debug)]
pub struct NumberedCall {
    pub line: usize,
    pub call: Call,
}

/// What a book file says: the tariff table, the management rule and the opening as they are filed, the rows of the filings
/// and the calls in their order.
#[derive(Debug, Drop)]
pub struct BookFile {
    pub tariff: TariffFigures,
    pub rule: RuleFigures,
    pub opening: OpeningFigures,
    pub filings: Vec<LocalityRow>,
    pub calls: Vec<NumberedCall>,
}

/// Why a book file is not read.
#[derive(Clone, Copy, Debug)]
pub enum Unread {
    Malformed { line: usize, what: Malformed },
    Memory,
}

impl From<AllocError> for Unread {
    ghost from_gives = { λ _ r. r ≡ Memory };

    fn from(_e: AllocError) -> Unread {
        Unread::Memory
    }
}

impl<T: Drop> From<AllocFailed<T>> for Unread {
    ghost from_gives = { λ _ r. r ≡ Memory };

    fn from(_e: AllocFailed<T>) -> Unread {
        Unread::Memory
    }
}

impl fmt::Display for Unread {
    fn fmt<W: fmt::Write>(&self, f: &mut fmt::Formatter<W>) -> fmt::Result {
        match *self {
            Unread::Malformed { line, what } => write!(f, "line {line}: {what}"),
            Unread::Memory => write!(f, "there is not enough memory"),
        }
    }
}

impl Error for Unread {}

/// Reads a book file; of a malformed one it names the first bad line.
pub fn read(heap: Global, text: &str) -> Result<BookFile, Unread>
    ensures { MatchResult result (Says text.now) (Placed text.now) }
{
    let mut table = Table::new();
    let mut filings = Vec::new(heap);
    let mut calls = Vec::new(heap);
    let mut said = Line::new();
    for (i, row) in text.lines().enumerate() {
        let line = i + 1;
        let speaks = read_line(&mut table, &mut said, row).map_err(|what| Unread::Malformed {
            line,
            what,
        })?;
        if speaks {
            list_line(&said, line, &mut filings, &mut calls)?;
        }
    }
    let tariff = table.filed();
    let rule = table.rule();
    let opening = table.opening();
    Ok(BookFile {
        tariff,
        rule,
        opening,
        filings,
        calls,
    })
}

// Reads a row into a line, and answers whether it says a statement: what it says of the tariff table, the management rule and the opening goes into the table.
pub(crate) fn read_line(table: &mut Table, said: &mut Line, row: &str) -> Result<bool, Malformed>
    ensures ok { IfOk result
        (λ speaks. Step row.now table.old table.new (if speaks then Some said.new else None)) }
    ensures err { IfErr result (Fault row.now table.old) }
{
    if !said.read(row)? {
        return Ok(false);
    }
    table.put(said)?;
    Ok(true)
}

// Adds the row that a line files and the call that it makes to the lists.
fn list_line(
    said: &Line,
    line: usize,
    filings: &mut Vec<LocalityRow>,
    calls: &mut Vec<NumberedCall>,
) -> Result<(), Unread>
    ensures filings { OnOk result (filings.new.items ≡ filings.old.items ++ line_filings said.now) }
    ensures calls { OnOk result
        (calls.new.items
        ≡ calls.old.items ++ line_calls (length filings.old.items) (record { number = line; line = said.now })) }
    ensures memory { IfErr result (λ e. e ≡ Memory) }
{
    let call = call_of(said, filings.len());
    if let Some(row) = filing_of(said) {
        filings.push(row)?;
    }
    if let Some(call) = call {
        calls.push(NumberedCall { line, call })?;
    }
    Ok(())
}
