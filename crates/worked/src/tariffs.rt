// Tariff tables from their figures in order.
use crate::compare::{Tally, compare_table};
use crate::numbers::Numbers;
use anyhow::Context;
use std::alloc::Global;
use std::{array, fs};
use tariff::figures::{Bracket, Coefficient, Life, Rate, TariffFigures};
use tariff::table::Tariff;
use units::amounts::{PointPrice, VolumePrice};

/// The tables of a file.
pub fn tariffs(rt: &HostRuntime) -> anyhow::Result<Vec<Tariff>> {
    let heap = rt.alloc();
    let text = fs::read_to_string(rt, "tariffs.txt")?;
    let mut tables = Vec::new(heap);
    for line in text.as_str().lines() {
        if !line.starts_with('#') {
            tables.push(tariff(heap, line)?).ok().context("no memory")?;
        }
    }
    Ok(tables)
}

/// Compares the lines of a table of figures, each by the tariff table whose number it begins with, if there is such a table.
pub(crate) fn compare_by_tariff<
    F: Fn(&mut Tally<'_>, anyhow::Result<&Tariff>, &mut Numbers<u64>) -> anyhow::Result<()>,
>(rt: &HostRuntime, name: &str, compare_line: F) -> anyhow::Result<()>
    requires { F.IsAlwaysCallable compare_line }
{
    let heap = rt.alloc();
    let tables = tariffs(rt)?;
    compare_table(rt, name, |tally, line| {
        let mut numbers = Numbers::of(heap, line)?;
        let table = table_at(tables.as_slice(), numbers.take());
        compare_line(tally, table, &mut numbers)?;
        numbers.finish()
    })
}

// The table with a number, from 0.
fn table_at(tables: &[Tariff], number: u64) -> anyhow::Result<&Tariff> {
    tables.get(number as usize).context("no such tariff table")
}

fn tariff(heap: Global, line: &str) -> anyhow::Result<Tariff> {
    let mut numbers = Numbers::of(heap, line)?;
    let figures = tariff_figures(&mut numbers);
    numbers.finish()?;
    Tariff::try_from(figures)
        .ok()
        .context("a tariff table is refused")
}

fn brackets(numbers: &mut Numbers<u64>, count: usize) -> [Bracket; 8] {
    let mut brackets = [Bracket {
        end: 0,
        reference: VolumePrice(0),
    }; 8];
    // The ends come first, and then the prices: two passes.
    for bracket in brackets.iter_mut().take(count) {
        bracket.end = numbers.take();
    }
    for bracket in brackets.iter_mut().take(count) {
        bracket.reference = VolumePrice(numbers.take());
    }
    brackets
}

fn tariff_figures(numbers: &mut Numbers<u64>) -> TariffFigures {
    let days = numbers.take();
    let distribution = array::from_fn(|_| PointPrice(numbers.take()));
    let metering = array::from_fn(|_| PointPrice(numbers.take()));
    let commercial = PointPrice(numbers.take());
    let count = numbers.take() as usize;
    TariffFigures {
        days,
        distribution,
        metering,
        commercial,
        count,
        brackets: brackets(numbers, count),
        coefficients: array::from_fn(|_| Coefficient(numbers.take())),
        gs: VolumePrice(numbers.take()),
        ug1: VolumePrice(numbers.take()),
        rate: Rate(numbers.take()),
        lives: array::from_fn(|_| Life(numbers.take())),
        cou: PointPrice(numbers.take()),
        coa: PointPrice(numbers.take()),
        telcon: PointPrice(numbers.take()),
        avv: PointPrice(numbers.take()),
        ins: PointPrice(numbers.take()),
        rac: PointPrice(numbers.take()),
    }
}
