// Orders for an instalment of a company's advance: drawn, then sent. Neither is copied, and neither is let go: each has to be spent by a call.
ghost use Rattle.std.specs.Prelude.{◌≡◌};

use units::refusal::Refusal;

/// What an order says.
#[derive(Clone, Copy, Debug, PartialEq, Eq)]
pub struct Order {
    /// The number of the book that drew it.
    pub book: u64,
    pub company: u64,
    pub instalment: u8,
}

/// An order that was drawn and not sent yet: cancelling or sending spends it.
pub struct DrawnOrder {
    pub(crate) order: Order,
}

/// An order that was sent: confirming spends it, or bouncing.
pub struct SentOrder {
    pub(crate) order: Order,
}

/// A refused order, in the caller's hands again, and why it was refused.
pub struct Returned<O> {
    pub order: O,
    pub refusal: Refusal,
}

impl DrawnOrder {
    /// What the order says.
    pub fn order(&self) -> Order
        ensures { result ≡ self.now.order }
    {
        let DrawnOrder { order } = self;
        *order
    }
}

impl SentOrder {
    /// What the order says.
    pub fn order(&self) -> Order
        ensures { result ≡ self.now.order }
    {
        let SentOrder { order } = self;
        *order
    }
}
