// What a year comes to, in print: the costs of each locality, and the revenue that is recognised to each company.
use crate::answer::state_words;
use crate::owed::Owed;
use crate::refused::Told;
use crate::standing::Stands;
use book::book::Book;
use costs::capital::{capital_cost, unit_component};
use costs::figure::locality_figure;
use costs::regime::additions;
use journal::journal::Journal;
use limits::MOST_COMPANIES;
use management::rule::Management;
use opened::company_year::CompanyYear;
use revenue::parts::Revenue;
use std::fmt;
use tables::locality::Locality;
use tables::rows::{LocalityRow, PointRow};
use tables::service::Service;
use tariff::table::Tariff;
use told::listed::parts;
use told::standing::Standing;
use told::thing::Thing;
use units::amounts::Cents;
use units::refusal::Refusal;

/// A locality's capital costs, what a locality in regime adds to them, and its unit components.
pub fn write_locality<W: fmt::Write>(
    out: &mut W,
    tariff: &Tariff,
    place: u64,
    locality: &Locality,
) -> fmt::Result {
    let row = locality.row();
    writeln!(
        out,
        "\nlocality {place} of company {}, {}: {} expected points, {} smart points",
        row.company,
        state_words(row.state),
        row.expected,
        row.smart
    )?;
    for (name, cents) in [
        (
            "capital cost of distribution",
            capital_cost(locality, tariff, Service::Distribution),
        ),
        (
            "capital cost of metering",
            capital_cost(locality, tariff, Service::Metering),
        ),
        ("fees and remote reading", additions(locality, tariff)),
        (
            "adds to recognised revenue",
            locality_figure(locality, tariff),
        ),
    ] {
        write_cents(out, name, cents)?;
    }
    for (name, service) in [
        ("unit component of distribution", Service::Distribution),
        ("unit component of metering", Service::Metering),
    ] {
        write_component(out, name, unit_component(locality, tariff, service, place))?;
    }
    Ok(())
}

// A unit component, or why there is none.
fn write_component<W: fmt::Write>(
    out: &mut W,
    name: &str,
    component: Result<u64, Refusal>,
) -> fmt::Result {
    match component {
        Ok(component) => writeln!(out, "  {name:<31}{component:>20} millionths of a euro"),
        Err(refusal) => {
            let thing = Thing::Locality;
            writeln!(out, "  {name}: {}", Told { thing, refusal })
        }
    }
}

/// How a company stands, the points that it served, the revenue that is recognised to it, part by part, and the balance that is due, with who owes it; or why there
/// is none.
pub fn write_company<W: fmt::Write, J: Journal, M: Management>(
    out: &mut W,
    book: &Book<J, M>,
    localities: &[LocalityRow],
    points: &[PointRow],
    place: u64,
) -> fmt::Result {
    match book.company_year(localities, points, place) {
        Ok(year) => write_year_of(out, place, &year),
        Err(refusal) => {
            let thing = Thing::Company;
            writeln!(out, "\ncompany {place}: {}", Told { thing, refusal })
        }
    }
}

fn write_year_of<W: fmt::Write>(out: &mut W, place: u64, year: &CompanyYear) -> fmt::Result {
    let standing = Stands(Standing::of(&year.company));
    writeln!(out, "\ncompany {place}, {standing}")?;
    writeln!(
        out,
        "  {} points served in regime, {} in start-up",
        year.served.regime, year.served.startup
    )?;
    write_revenue(out, &year.revenue)?;
    for (name, amount) in [
        ("less lines 1 to 4 billed", year.billed),
        ("less advances", year.company.advances()),
        ("less balances", Cents(i128::from(year.company.balances))),
        ("balance due", year.due),
    ] {
        write_amount(out, name, amount)?;
    }
    let owed = Owed {
        company: place,
        balance: year.due,
    };
    writeln!(out, "  {owed}")
}

/// The companies that are closed.
pub fn write_closed<W: fmt::Write, J: Journal, M: Management>(
    out: &mut W,
    book: &Book<J, M>,
) -> fmt::Result {
    let mut list = [0; MOST_COMPANIES];
    out.write_str("\nclosed companies: ")?;
    match book.closed_companies(&mut list) {
        Ok(count) => write_list(out, &list, count),
        Err(refusal) => {
            let thing = Thing::Place;
            writeln!(out, "{}", Told { thing, refusal })
        }
    }
}

// The first companies of a list; `none` if they are none.
fn write_list<W: fmt::Write>(
    out: &mut W,
    list: &[u64; MOST_COMPANIES],
    count: usize,
) -> fmt::Result {
    if count == 0 {
        return writeln!(out, "none");
    }
    for (i, company) in list.iter().take(count).enumerate() {
        let mark = if i == 0 { "" } else { ", " };
        write!(out, "{mark}company {company}")?;
    }
    writeln!(out)
}

/// The equalisation account.
pub fn write_account<W: fmt::Write, J: Journal, M: Management>(
    out: &mut W,
    book: &Book<J, M>,
    points: &[PointRow],
) -> fmt::Result {
    match book.account(points) {
        Ok(Cents(account)) => writeln!(out, "\nequalisation account: {account} cents"),
        Err(refusal) => {
            let thing = Thing::Place;
            writeln!(out, "\nequalisation account: {}", Told { thing, refusal })
        }
    }
}

/// The parts of recognised revenue, and their sum.
pub(crate) fn write_revenue<W: fmt::Write>(out: &mut W, revenue: &Revenue) -> fmt::Result {
    for (name, cents) in parts(revenue) {
        write_cents(out, name, cents)?;
    }
    write_amount(out, "recognised revenue", revenue.total())
}

fn write_amount<W: fmt::Write>(out: &mut W, name: &str, amount: Cents) -> fmt::Result {
    let Cents(cents) = amount;
    writeln!(out, "  {name:<31}{cents:>20} cents")
}

fn write_cents<W: fmt::Write>(out: &mut W, name: &str, cents: u64) -> fmt::Result {
    writeln!(out, "  {name:<31}{cents:>20} cents")
}
