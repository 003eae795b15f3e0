// Instalments of yearly advances, against a table of them.
use crate::compare::{Tally, compare_table};
use crate::numbers::Numbers;
use company::figures::TermsFigures;
use company::terms::Terms;
use std::alloc::Global;
use units::amounts::Cents;

/// An advance in so many instalments, and the least of all else.
fn figures(advance: i64, instalments: u8) -> TermsFigures {
    TermsFigures {
        advance,
        instalments,
        verification: 0,
        central: 0,
        points: 0,
        density: 1,
        year: 1,
    }
}

fn compare_line(heap: Global, tally: &mut Tally<'_>, line: &str) -> anyhow::Result<()> {
    let mut numbers = Numbers::<i64>::of(heap, line)?;
    let (advance, count) = (numbers.take(), u8::try_from(numbers.take())?);
    let terms = Terms::try_from(figures(advance, count))?;
    for j in 1..=count {
        tally.compare(
            "instalment",
            terms.instalment(j),
            Cents(i128::from(numbers.take())),
        )?;
    }
    numbers.finish()
}

pub fn run(rt: &HostRuntime) -> anyhow::Result<()> {
    let heap = rt.alloc();
    compare_table(
        rt,
        "instalments.txt",
        |tally, line| compare_line(heap, tally, line),
    )
}
