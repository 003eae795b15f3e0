// What a call is about, in print.
use calls::call::{Call, Question};
use orders::order::Order;
use std::fmt;
use tables::service::Service;

/// The call whose answer follows.
#[derive(Clone, Copy, Debug)]
pub(crate) struct About(pub(crate) Call);

impl fmt::Display for About {
    fn fmt<W: fmt::Write>(&self, f: &mut fmt::Formatter<W>) -> fmt::Result {
        let (what, place) = match self.0 {
            Call::Register { company, .. } => ("company", company),
            Call::File { locality, .. } => ("locality", locality),
            Call::Enrol { point, .. } => ("point", point),
            Call::Bill { point, .. } => ("bill of point", point),
            Call::Draw { company } => ("order for company", company),
            Call::Close { company } => ("closing of company", company),
            Call::Reopen { company } => ("reopening of company", company),
            Call::Cancel(order) | Call::Send(order) | Call::Confirm(order) | Call::Bounce(order) =>
                { return write_order(f, order) }
            Call::Ask(question) => return write_question(f, question),
        };
        write!(f, "{what} {place}")
    }
}

fn write_order<W: fmt::Write>(f: &mut fmt::Formatter<W>, order: Order) -> fmt::Result {
    write!(
        f,
        "order of book {}, company {}, instalment {}",
        order.book, order.company, order.instalment
    )
}

fn write_question<W: fmt::Write>(f: &mut fmt::Formatter<W>, question: Question) -> fmt::Result {
    let (what, company) = match question {
        Question::CapitalCost { locality, service } => {
            return write_service(f, "capital cost", service, locality);
        }
        Question::UnitComponent { locality, service } => {
            return write_service(f, "unit component", service, locality);
        }
        Question::Served { company } => ("points served by company", company),
        Question::Revenue { company } => ("recognised revenue of company", company),
        Question::BalanceDue { company } => ("balance due to company", company),
        Question::Account => return f.write_str("account"),
    };
    write!(f, "{what} {company}")
}

fn write_service<W: fmt::Write>(
    f: &mut fmt::Formatter<W>,
    what: &str,
    service: Service,
    locality: u64,
) -> fmt::Result {
    write!(f, "{what} of {}, locality {locality}", name(service))
}

fn name(service: Service) -> &'static str {
    match service {
        Service::Distribution => "distribution",
        Service::Metering => "metering",
    }
}
