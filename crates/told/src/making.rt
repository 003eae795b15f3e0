// The statement that makes a call.
ghost use Rattle.calls.specs.declared.call.Call.TheVariants.{Ask};
ghost use Rattle.told.specs.Makers.{OnlyMaker};

use bookfile::statement::Statement;
use calls::call::{Call, Question};

/// The statement that makes such a call.
#[tactic(auto, using(crate::proofs::Makers::only_maker))]
pub fn statement_of(call: Call) -> Statement
    ensures { OnlyMaker call result }
{
    match call {
        Call::Register { .. } => Statement::Register,
        Call::File { .. } => Statement::File,
        Call::Enrol { .. } => Statement::Enrol,
        Call::Bill { .. } => Statement::Bill,
        Call::Draw { .. } => Statement::Draw,
        Call::Cancel(_) => Statement::Cancel,
        Call::Send(_) => Statement::Send,
        Call::Confirm(_) => Statement::Confirm,
        Call::Bounce(_) => Statement::Bounce,
        Call::Close { .. } => Statement::Close,
        Call::Reopen { .. } => Statement::Reopen,
        Call::Ask(question) => asking_of(question),
    }
}

#[tactic(auto, using(crate::proofs::Makers::only_maker))]
fn asking_of(question: Question) -> Statement
    ensures { OnlyMaker (Ask question) result }
{
    match question {
        Question::CapitalCost { .. } => Statement::Cost,
        Question::UnitComponent { .. } => Statement::Component,
        Question::Served { .. } => Statement::Served,
        Question::Revenue { .. } => Statement::Revenue,
        Question::BalanceDue { .. } => Statement::Balance,
        Question::Account => Statement::Account,
    }
}
