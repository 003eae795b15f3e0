// The laws of the book, on which the rules of a whole year rest.
ghost use Rattle.booklaws.specs.Laws.{ConfirmLaw, QuietLaws, BillLaw, CloseLaw};

/// Confirming advances the order's instalment to its company, and nothing else moves in the journal. The account loses its amount.
pub fn confirm_law() -> u8
    ensures { ConfirmLaw }
{
    0
}

/// Registering, filing, enrolling, reopening, the other events of an order and the questions append nothing and leave the account. After a question
/// all is as it was.
#[tactic(auto, using(crate::proofs::QuietLaws::quiet_laws))]
pub fn quiet_laws() -> u8
    ensures { QuietLaws }
{
    0
}

/// A bill is one entry more: for the company of its point's locality, with what lines 1 to 4, line 6 and line 5 of the point gain. It changes the
/// volume and days of its point alone, in the journal as in its row, and the account gains what line 6 does.
pub fn bill_law() -> u8
    ensures { BillLaw }
{
    0
}

/// Closing a company is one entry more: the balance that was due to it just before. The company is closed, its balances grow by that balance, and the
/// account loses it. Nothing else moves.
pub fn close_law() -> u8
    ensures { CloseLaw }
{
    0
}
