// Putting the figures of statements into the table.
ghost use Rattle.std.specs.Prelude.{◌≡◌, ◌+◌, ◌-◌, ◌*◌, ◌≤◌, IfErr, IfNone, IfSome};
ghost use Rattle.bookfile.specs.declared.statement.TheConstants.{MOST_FIGURES};
ghost use Rattle.bookfile.specs.declared.table.TheConstants.{SLOTS};
ghost use Rattle.bookfile.specs.declared.statement.Statement.TheVariants.{Bracket};
ghost use Rattle.bookfile.specs.Faults.{Untaken};
ghost use Rattle.bookfile.specs.Numbers.{whole_at};
ghost use Rattle.bookfile.specs.Slots.{Puts};
ghost use Rattle.bookfile.specs.Tables.{empty_table, next_bracket, span_of, table_after};

use super::{
    BRACKETS, CAPACITY, COEFFICIENTS, DISTRIBUTION, LIVES, MANAGEMENT, METERING, OPENING, SLOTS,
    Table,
};
use crate::line::Line;
use crate::malformed::Malformed;
use crate::slots::{Span, put_all};
use crate::statement::Statement;

impl Table {
    /// A table without figures.
    pub(crate) fn new() -> Table
        ensures { result ≡ empty_table }
    {
        Table {
            slots: [None; SLOTS],
            brackets: 0,
        }
    }

    /// Takes the figures of a statement on the table; of another statement it takes none.
    pub(crate) fn put(&mut self, line: &Line) -> Result<(), Malformed>
        ensures puts { Puts (table_after line.now.statement line.now.figures self.old) result self.new }
        ensures err { IfErr result (Untaken line.now self.old) }
    {
        let span = line_span(line, self.brackets).ok_or(Malformed::NinthBracket)?;
        put_all(&mut self.slots, line, span)?;
        self.brackets = span.brackets;
        Ok(())
    }
}

// The span of a line, where the table has so many brackets; none for a ninth bracket.
fn line_span(line: &Line, brackets: usize) -> Option<Span>
    ensures value { result ≡ span_of line.now.statement line.now.figures brackets }
    ensures none { IfNone result ((line.now.statement ≡ Bracket) × (8 ≤ brackets)) }
    ensures room { IfSome result (λ s. (s.slot + s.count ≤ SLOTS) × (s.first + s.count ≤ MOST_FIGURES)) }
{
    let (slot, first, count) = match line.statement {
        Statement::Tariff => (0, 0, 11),
        Statement::Distribution => (row_slot(line, DISTRIBUTION, 3), 1, 3),
        Statement::Metering => (row_slot(line, METERING, 3), 1, 3),
        Statement::Coefficient => (row_slot(line, COEFFICIENTS, 1), 1, 1),
        Statement::Life => (row_slot(line, LIVES, 1), 1, 1),
        Statement::Bracket => return bracket_span(brackets),
        Statement::Management => (MANAGEMENT, 0, 10),
        Statement::Opening => (OPENING, 0, 2),
        Statement::Journal => (CAPACITY, 0, 1),
        _ => (0, 0, 0),
    };
    Some(Span {
        slot,
        first,
        count,
        brackets,
    })
}

// Where the figures of a line's area or asset row go, of which each has so many.
fn row_slot(line: &Line, from: usize, count: usize) -> usize
    requires row { whole_at line.now.figures 0 ≤ 8 }
    requires room { (from ≤ SLOTS) × (count ≤ 3) }
    ensures { result ≡ from + count * (whole_at line.now.figures 0 - 1) }
{
    from + count * (line.whole(0) as usize).saturating_sub(1)
}

// The span of a bracket, after so many.
fn bracket_span(brackets: usize) -> Option<Span>
    ensures { result ≡ next_bracket brackets }
{
    if brackets >= 8 {
        return None;
    }
    Some(Span {
        slot: BRACKETS + 2 * brackets,
        first: 0,
        count: 2,
        brackets: brackets + 1,
    })
}
