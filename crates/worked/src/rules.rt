// Operating prices, against a table of them, and at the boundaries of size and award year.
use crate::compare::{Tally, compare_table};
use crate::numbers::Numbers;
use anyhow::{Context, anyhow};
use management::area_wide::AreaWide;
use management::municipal::Municipal;
use management::rule::Management;
use management::traits::Traits;
use std::alloc::Global;
use std::array;
use units::amounts::PointPrice;
use units::refusal::Refusal;

// The price by the rule of nine prices, of a company with these traits.
fn price_by<M: Management + TryFrom<[PointPrice; 9], Error = Refusal> + Drop>(
    prices: [PointPrice; 9],
    points: u64,
    density: u64,
    year: u64,
) -> anyhow::Result<u64> {
    let rule = M::try_from(prices).ok().context("a rule is refused")?;
    let traits = Traits::new(points, density, year).context("traits beyond their limits")?;
    Ok(rule.operating_price(traits).0)
}

fn price_of(kind: &str, numbers: &mut Numbers<u64>) -> anyhow::Result<u64> {
    let prices = array::from_fn(|_| PointPrice(numbers.take()));
    let (points, density, year) = (numbers.take(), numbers.take(), numbers.take());
    match kind {
        "municipal" => price_by::<Municipal>(prices, points, density, year),
        "area-wide" => price_by::<AreaWide>(prices, points, density, year),
        _ => Err(anyhow!("neither a municipal nor an area-wide rule")),
    }
}

fn compare_line(heap: Global, tally: &mut Tally<'_>, line: &str) -> anyhow::Result<()> {
    let (kind, rest) = line.split_once(' ').context("a rule without its prices")?;
    let mut numbers = Numbers::of(heap, rest)?;
    let found = price_of(kind, &mut numbers)?;
    tally.compare("operating price", found, numbers.take())?;
    numbers.finish()
}

pub fn run(rt: &HostRuntime) -> anyhow::Result<()> {
    let heap = rt.alloc();
    compare_table(
        rt,
        "management.txt",
        |tally, line| compare_line(heap, tally, line),
    )
}

pub fn boundaries(rt: &HostRuntime) -> anyhow::Result<()> {
    // prices that tell which of the nine they are
    let prices = [100, 200, 300, 400, 500, 600, 700, 800, 900].map(PointPrice);
    for points in [50_000, 50_001, 300_000, 300_001] {
        let price = price_by::<Municipal>(prices, points, 2, 1)?;
        let wide = price_by::<AreaWide>(prices, points, 2, 1)?;
        println!(rt; "{points} points: municipal {price}, area-wide {wide}")?;
    }
    for year in [4, 5, 6] {
        let price = price_by::<AreaWide>(prices, 50_000, 2, year)?;
        println!(rt; "award year {year}: area-wide {price}")?;
    }
    Ok(())
}
