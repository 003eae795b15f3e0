// The calls of a book file, by the figures of their lines.
ghost use Rattle.std.specs.Prelude.{◌≡◌};
ghost use Rattle.bookfile.specs.Calls.{call_of, terms_of, enrolment_of, bill_change, order_of, service_of, question_of};

use crate::line::Line;
use crate::statement::Statement;
use calls::call::{Call, Question};
use calls::enrolling::Enrolment;
use company::figures::TermsFigures;
use orders::order::Order;
use tables::service::Service;
use tariff::supply::Change;

/// The call that a line makes after so many filings, if it makes one.
pub(crate) fn call_of(line: &Line, filings: usize) -> Option<Call>
    ensures { result ≡ call_of filings line.now.statement line.now.figures }
{
    let place = line.whole(0);
    match line.statement {
        Statement::Register => Some(Call::Register {
            company: place,
            terms: terms_of(line),
        }),
        Statement::File => Some(Call::File {
            locality: place,
            filing: filings,
        }),
        Statement::Enrol => Some(Call::Enrol {
            point: place,
            enrolment: enrolment_of(line),
        }),
        Statement::Bill => Some(Call::Bill {
            point: place,
            change: bill_change(line),
        }),
        Statement::Draw => Some(Call::Draw { company: place }),
        Statement::Cancel => Some(Call::Cancel(order_of(line))),
        Statement::Send => Some(Call::Send(order_of(line))),
        Statement::Confirm => Some(Call::Confirm(order_of(line))),
        Statement::Bounce => Some(Call::Bounce(order_of(line))),
        Statement::Close => Some(Call::Close { company: place }),
        Statement::Reopen => Some(Call::Reopen { company: place }),
        _ => question_of(line).map(|question| Call::Ask(question)),
    }
}

// The question that a line asks, if it asks one.
fn question_of(line: &Line) -> Option<Question>
    ensures { result ≡ question_of line.now.statement line.now.figures }
{
    let place = line.whole(0);
    match line.statement {
        Statement::Cost => Some(Question::CapitalCost {
            locality: place,
            service: service_of(line),
        }),
        Statement::Component => Some(Question::UnitComponent {
            locality: place,
            service: service_of(line),
        }),
        Statement::Served => Some(Question::Served { company: place }),
        Statement::Revenue => Some(Question::Revenue { company: place }),
        Statement::Balance => Some(Question::BalanceDue { company: place }),
        Statement::Account => Some(Question::Account),
        _ => None,
    }
}

fn terms_of(line: &Line) -> TermsFigures
    ensures { result ≡ terms_of line.now.figures }
{
    TermsFigures {
        advance: line.change(1),
        instalments: line.byte(2),
        verification: line.whole(3),
        central: line.whole(4),
        points: line.whole(5),
        density: line.byte(6),
        year: line.byte(7),
    }
}

fn enrolment_of(line: &Line) -> Enrolment
    ensures { result ≡ enrolment_of line.now.figures }
{
    Enrolment {
        locality: line.whole(1),
        class: line.whole(2),
        domestic: line.whole(3),
    }
}

fn bill_change(line: &Line) -> Change
    ensures { result ≡ bill_change line.now.figures }
{
    Change {
        volume: line.change(1),
        days: line.change(2),
    }
}

fn order_of(line: &Line) -> Order
    ensures { result ≡ order_of line.now.figures }
{
    Order {
        book: line.whole(0),
        company: line.whole(1),
        instalment: line.byte(2),
    }
}

fn service_of(line: &Line) -> Service
    ensures { result ≡ service_of line.now.figures }
{
    if line.whole(1) == 2 {
        Service::Metering
    } else {
        Service::Distribution
    }
}
