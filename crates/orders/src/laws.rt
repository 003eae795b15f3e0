// The laws of orders, which follow from what each event meets and leaves.
ghost use Rattle.orders.specs.Laws.{OrderLaws, PaidLaw};

/// At most one order of a company is out, and each event of it is for the instalment that it was drawn for.
#[tactic(auto, using(crate::proofs::OrderLaws::order_laws))]
pub fn order_laws() -> u8
    ensures { OrderLaws }
{
    0
}

/// Confirming an order is one entry more, the advance of its instalment, which its company is then paid. Nothing else moves.
pub fn paid_law() -> u8
    ensures { PaidLaw }
{
    0
}
