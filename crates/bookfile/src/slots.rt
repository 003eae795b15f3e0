// Slots for the figures of a tariff table: each takes its figure once.
ghost use Rattle.std.specs.Prelude.{◌≡◌, ◌+◌, ◌<◌, ◌≤◌, length, IfErr, None, slice_index_or};
ghost use Rattle.bookfile.specs.declared.statement.TheConstants.{MOST_FIGURES};
ghost use Rattle.bookfile.specs.declared.malformed.Malformed.TheVariants.{Repeated};
ghost use Rattle.bookfile.specs.Faults.{field, SlotTaken};
ghost use Rattle.bookfile.specs.Slots.{placed, placed_all, Puts};

use crate::line::Line;
use crate::malformed::Malformed;
use crate::statement::Field;

/// Which figures of a line go into the table: `count` of them from the first on, to slots from one on.
/// Then the table has so many brackets.
#[derive(Clone, Copy, Debug)]
pub struct Span {
    pub slot: usize,
    pub first: usize,
    pub count: usize,
    pub brackets: usize,
}

// Puts a figure to a slot, which takes one only; a figure that is not given leaves it.
fn put(slots: &mut [Option<i128>], at: usize, line: &Line, i: usize) -> Result<(), Malformed>
    requires slot { at < length slots.old }
    requires figure { i < MOST_FIGURES }
    ensures puts { Puts (placed slots.old at (slice_index_or line.now.figures i None)) result slots.new }
    ensures err { IfErr result (λ e. e ≡ Repeated (field line.now.statement i)) }
{
    if line.figures[i].is_none() {
        return Ok(());
    }
    if slots[at].is_some() {
        return Err(Malformed::Repeated(Field {
            statement: line.statement,
            place: i,
        }));
    }
    slots[at] = line.figures[i];
    Ok(())
}

/// Puts the figures of a span of a line to the span's slots.
pub(crate) fn put_all(slots: &mut [Option<i128>], line: &Line, span: Span) -> Result<(), Malformed>
    requires room { span.slot + span.count ≤ length slots.old }
    requires figures { span.first + span.count ≤ MOST_FIGURES }
    ensures puts { Puts (placed_all slots.old span.slot line.now.figures span.first span.count) result slots.new }
    ensures err { IfErr result
        (SlotTaken line.now.statement line.now.figures slots.old span.slot span.first span.count) }
{
    // By number: `(span.first..).zip(&mut slots[span.slot..span.slot + span.count])` is no plainer.
    for k in 0..span.count {
        put(slots, span.slot + k, line, span.first + k)?;
    }
    Ok(())
}
