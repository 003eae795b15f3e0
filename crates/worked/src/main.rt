// Worked figures: those of the worked year as theorems, and tables of independently computed ones, run and compared.
#![tactic(auto)]

mod bills;
mod compare;
mod instalments;
mod localities;
mod numbers;
mod rules;
mod served;
mod tariffs;
mod year;

fn run(rt: &HostRuntime) -> anyhow::Result<()> {
    let _ = year::worked_year();
    bills::run(rt)?;
    bills::boundaries(rt)?;
    localities::run(rt)?;
    served::run(rt)?;
    rules::run(rt)?;
    rules::boundaries(rt)?;
    instalments::run(rt)
}

fn main(rt: HostRuntime) -> anyhow::Result<()> {
    run(&rt)
}
