// A benchmark of a whole year: so many points, each billed in so many rounds, over a journal of 1,048,576 entries. It prints what the year comes to, and on the
// standard error how long it took.
#![tactic(auto)]

mod digest;
mod figures;
mod plan;
mod year;

use anyhow::anyhow;
use booklaws::answer::Granted;
use calls::call::Call;
use journal::entry::Entry;
use plan::Size;
use std::env;
use std::time::{Duration, Instant};
use year::Year;

const ENTRIES: usize = 1_048_576;

fn main(rt: HostRuntime) -> anyhow::Result<()> {
    run(&rt)
}

fn run(rt: &HostRuntime) -> anyhow::Result<()> {
    let heap = rt.alloc();
    let size = size(rt)?;
    let mut entries = vec![in heap; Entry::default(); ENTRIES]?;
    let mut year = Year::new(heap, entries.as_mut_slice(), size)?;
    let start = Instant::now(rt)?;
    year.run()?;
    let took = start.elapsed(rt)?;
    write_outcome(rt, &year)?;
    write_time(rt, year.calls().len(), took)
}

// The size that the two arguments give.
fn size(rt: &HostRuntime) -> anyhow::Result<Size> {
    let mut numbers = Vec::new(rt.alloc());
    for word in env::args(rt)?.skip(1) {
        numbers.push(word.as_str().parse::<u64>()?)?;
    }
    match numbers.as_slice() {
        [points, rounds] => Ok(Size {
            points: *points,
            rounds: *rounds,
        }),
        _ => Err(anyhow!("bench POINTS ROUNDS")),
    }
}

fn write_outcome(rt: &HostRuntime, year: &Year<'_>) -> anyhow::Result<()> {
    println!(rt;
        "granted: {} of {} calls",
        year.granted(),
        year.calls().len()
    )?;
    let billed = year.billed();
    println!(rt;
        "bills: {}, tariff {} cents, UG1 {} cents, digest {}",
        billed.bills, billed.tariff, billed.ug1, billed.digest.0
    )?;
    write_amounts(rt, year)?;
    println!(rt;
        "journal: {} entries of {}, digest {}",
        year.entries(),
        ENTRIES,
        year.digest().0
    )?;
    Ok(())
}

// What confirmings and closings booked, and what the account came to.
fn write_amounts(rt: &HostRuntime, year: &Year<'_>) -> anyhow::Result<()> {
    for (call, answer) in year.calls().iter().zip(year.answers()) {
        match (*call, *answer) {
            (Call::Confirm(order), Ok(Granted::Paid(cents))) => {
                println!(rt; "company {}: advance {} cents", order.company, cents)?;
            }
            (Call::Close { company }, Ok(Granted::Closed(cents))) => {
                println!(rt; "company {}: balance {} cents", company, cents)?;
            }
            (Call::Ask(_), Ok(Granted::Account(cents))) => {
                println!(rt; "account: {} cents", cents)?;
            }
            _ => {}
        }
    }
    Ok(())
}

fn write_time(rt: &HostRuntime, calls: usize, took: Duration) -> anyhow::Result<()> {
    let micros = took.as_micros().max(1);
    let rate = calls as u128 * 1_000_000 / micros;
    eprintln!(rt;
        "year: {}.{:06} seconds, {rate} calls a second",
        micros / 1_000_000,
        micros % 1_000_000
    )?;
    Ok(())
}
