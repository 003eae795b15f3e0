// A list of calls, one after another, from the opening on.
ghost use Rattle.std.specs.Prelude.{◌≡◌, ◌≤◌, ◌++◌, length, drop, IfOk, IfErr};
ghost use Rattle.book.specs.States.{state};
ghost use Rattle.booklaws.specs.Calls.{with_tables};
ghost use Rattle.yearly.specs.Runs.{beginning, begun, run_answers, run_after, AlwaysInOrder};

use book::book::Book;
use booklaws::answer::Granted;
use calls::call::Call;
use journal::journal::Journal;
use management::rule::Management;
use tables::rows::{LocalityRow, PointRow};
use tariff::table::Tariff;
use units::refusal::{Reason, Refusal};

// Performs the calls in order, and writes each answer at its call's place.
fn run<J: Journal, M: Management>(
    book: &mut Book<J, M>,
    localities: &mut [LocalityRow],
    points: &mut [PointRow],
    filings: &[LocalityRow],
    calls: &[Call],
    answers: &mut [Result<Granted, Refusal>],
)
    requires { length calls.now ≤ length answers.old }
    ensures answers { answers.new
        ≡ run_answers filings.now (with_tables (state J.Journal M.Management book.old) localities.old points.old)
        calls.now
        ++ drop (length calls.now) answers.old }
    ensures after { with_tables (state J.Journal M.Management book.new) localities.new points.new
        ≡ run_after filings.now (with_tables (state J.Journal M.Management book.old) localities.old points.old)
        calls.now }
{
    for i in 0..calls.len() {
        answers[i] = book.perform(localities, points, filings, calls[i]);
    }
}

/// Opens a book and performs calls, each of which is answered at its place. Refused by 3 where the book is in use, by 4 where the places of answers are
/// too few, else as the opening is; then nothing is performed. The rules of the year hold after every one of the calls.
pub fn run_year<J: Journal, M: Management>(
    book: &mut Book<J, M>,
    tariff: &Tariff,
    number: u64,
    sum: i64,
    localities: &mut [LocalityRow],
    points: &mut [PointRow],
    filings: &[LocalityRow],
    calls: &[Call],
    answers: &mut [Result<Granted, Refusal>],
) -> Result<(), Refusal>
    ensures answer { result
        ≡ beginning (state J.Journal M.Management book.old) number sum localities.old points.old
        (length calls.now) (length answers.old) }
    ensures run { IfOk result (λ _. answers.new
        ≡ run_answers filings.now
        (begun (state J.Journal M.Management book.old) tariff.now number sum localities.old points.old)
        calls.now
        ++ drop (length calls.now) answers.old) }
    ensures after { IfOk result (λ _. with_tables (state J.Journal M.Management book.new) localities.new points.new
        ≡ run_after filings.now
        (begun (state J.Journal M.Management book.old) tariff.now number sum localities.old points.old)
        calls.now) }
    ensures refused { IfErr result (λ _. (with_tables (state J.Journal M.Management book.new) localities.new points.new
        ≡ with_tables (state J.Journal M.Management book.old) localities.old points.old)
        × (answers.new ≡ answers.old)) }
    ensures rules { IfOk result (λ _. AlwaysInOrder tariff.now sum filings.now
        (begun (state J.Journal M.Management book.old) tariff.now number sum localities.old points.old)
        calls.now answers.new) }
{
    book.unused()?;
    if calls.len() > answers.len() {
        return Err(Reason::PastTable.at(0));
    }
    book.open(tariff, number, sum, localities, points)?;
    run(book, localities, points, filings, calls, answers);
    Ok(())
}
