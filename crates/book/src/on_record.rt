// What is on record in a book, if it is open.
ghost use types.Logic.{sem};
ghost use Rattle.std.specs.Prelude.{◌≡◌};
ghost use Rattle.std.specs.Option.{ok_or};
ghost use Rattle.std.specs.Option.Follows.{option_follows_ok};
ghost use Rattle.units.specs.declared.refusal.Reason.TheVariants.{BookNotOpen};
ghost use Rattle.units.specs.Refusals.{refusal};
ghost use Rattle.limits.specs.Checked.{made_of};

use units::refusal::{Reason, Refusal};

/// What is on record; 2 while the book is not open.
pub(crate) fn on_record<T>(opened: &Option<T>) -> Result<&T, Refusal>
    ensures { made_of (λ o. o.now) result ≡ ok_or opened.now (refusal BookNotOpen 0) }
{
    opened.as_ref().ok_or(Reason::BookNotOpen.at(0))
}

/// The same, to be altered.
pub(crate) fn on_record_mut<T>(opened: &mut Option<T>) -> Result<&mut T, Refusal>
    ensures* writes_back { sem 𝓛 (option_follows_ok T.row opened.entry result) }
    ensures value { made_of (λ o. o.now) result ≡ ok_or opened.old (refusal BookNotOpen 0) }
{
    // Not `ok_or`: of it the clause on what is written back is not proved.
    match opened {
        Some(found) => Ok(found),
        None => Err(Reason::BookNotOpen.at(0)),
    }
}
