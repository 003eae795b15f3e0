// The calls of the benchmark's year, in their order.
use crate::figures::{change, enrolment, locality, terms};
use calls::call::{Call, Question};
use orders::order::Order;
use std::alloc::Global;
use tables::rows::LocalityRow;

const COMPANIES: u64 = 16;

const LOCALITIES: u64 = 256;

/// The number of the book, which its orders carry.
pub const BOOK: u64 = 1;

/// How many points are billed, and in how many rounds.
#[derive(Clone, Copy)]
pub struct Size {
    pub points: u64,
    pub rounds: u64,
}

/// The rows that the localities are filed with, by their places.
pub fn filings(heap: Global) -> anyhow::Result<Vec<LocalityRow>> {
    let mut filings = Vec::new(heap);
    for place in 0..LOCALITIES {
        filings.push(locality(place))?;
    }
    Ok(filings)
}

/// The whole year: each company registers, each locality is filed, each point is enrolled and billed once a round; each company is paid its first instalment, and
/// is closed; and the account is asked for.
pub fn calls(heap: Global, size: Size) -> anyhow::Result<Vec<Call>> {
    let mut calls = Vec::new(heap);
    begin(&mut calls, size.points)?;
    for round in 0..size.rounds {
        for point in 0..size.points {
            calls.push(Call::Bill {
                point,
                change: change(point, round),
            })?;
        }
    }
    end(&mut calls)?;
    Ok(calls)
}

fn begin(calls: &mut Vec<Call>, points: u64) -> anyhow::Result<()> {
    for company in 0..COMPANIES {
        calls.push(Call::Register {
            company,
            terms: terms(company),
        })?;
    }
    for locality in 0..LOCALITIES {
        calls.push(Call::File {
            locality,
            filing: locality as usize,
        })?;
    }
    for point in 0..points {
        calls.push(Call::Enrol {
            point,
            enrolment: enrolment(point),
        })?;
    }
    Ok(())
}

fn end(calls: &mut Vec<Call>) -> anyhow::Result<()> {
    for company in 0..COMPANIES {
        let order = Order {
            book: BOOK,
            company,
            instalment: 1,
        };
        calls.push(Call::Draw { company })?;
        calls.push(Call::Send(order))?;
        calls.push(Call::Confirm(order))?;
    }
    for company in 0..COMPANIES {
        calls.push(Call::Close { company })?;
    }
    calls.push(Call::Ask(Question::Account))?;
    Ok(())
}
