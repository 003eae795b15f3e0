// A tour through the calls of a book: what each is granted, and each refusal that it can give.
#![tactic(auto)]

mod closing;
mod keeper;
mod ordering;
mod recording;

use crate::keeper::Keeper;
use lines::Lines;
use management::municipal::Municipal;
use tables::lengths::MOST_POINTS;
use tables::rows::PointRow;
use units::amounts::PointPrice;

fn run(rt: &HostRuntime) -> anyhow::Result<()> {
    let tariff = sample::tariff()?;
    let rule = Municipal::try_from([PointPrice(30_000_000); 9])?;
    let mut too_many = vec![in rt.alloc(); PointRow::default(); MOST_POINTS + 1]?;
    let mut lines = Lines::new(rt);
    let mut book = Keeper::new("", rule);
    let mut other = Keeper::new("another book: ", rule);
    recording::tour(&mut lines, &mut book, &tariff, &mut too_many);
    ordering::tour(&mut lines, &mut book, &mut other, &tariff);
    closing::tour(&mut lines, &mut book, &too_many);
    Ok(lines.finish()?)
}

fn main(rt: HostRuntime) -> anyhow::Result<()> {
    run(&rt)
}
