// Lines that tell what calls of a book were answered.
#![tactic(auto)]

ghost use Rattle.std.specs.Prelude.{◌≡◌, Ok, OnErr};

use std::fmt::Display;
use std::io;
use units::refusal::Refusal;

/// A call: what stands before its line, what is asked, and of which place.
#[derive(Clone, Copy, Debug)]
pub struct Call<'a> {
    pub at: &'a str,
    pub what: &'a str,
    pub place: u64,
}

impl<'a> Call<'a> {
    pub fn new(at: &'a str, what: &'a str, place: u64) -> Call<'a>
        ensures { (result.at.now ≡ at.now) × (result.what.now ≡ what.now) × (result.place ≡ place) }
    {
        Call { at, what, place }
    }
}

/// Prints lines. The first error is kept until the end, so that no order is let go by a `?`.
#[derive(Drop)]
pub struct Lines<'a> {
    rt: &'a HostRuntime,
    pub printed: io::Result<()>,
}

impl<'a> Lines<'a> {
    pub fn new(rt: &'a HostRuntime) -> Lines<'a>
        ensures { result.printed ≡ Ok tt }
    {
        Lines {
            rt,
            printed: Ok(()),
        }
    }

    fn print<A: Display + Drop>(&mut self, call: Call<'_>, answer: A)
        ensures first { OnErr self.old.printed (self.new.printed ≡ self.old.printed) }
    {
        if self.printed.is_ok() {
            let Call { at, what, place } = call;
            self.printed = println!(self.rt; "{at}{what} {place}: {answer}");
        }
    }

    /// Tells a figure.
    pub fn figure<F: Display + Drop>(&mut self, call: Call<'_>, name: &str, figure: F)
        ensures first { OnErr self.old.printed (self.new.printed ≡ self.old.printed) }
    {
        self.print(call, format_args!("{name} {figure}"));
    }

    /// Tells that a call is granted, with its main figure.
    pub fn granted<F: Display + Drop>(&mut self, call: Call<'_>, name: &str, figure: F)
        ensures first { OnErr self.old.printed (self.new.printed ≡ self.old.printed) }
    {
        self.print(call, format_args!("granted, {name} {figure}"));
    }

    /// Tells that a call is refused.
    pub fn refused(&mut self, call: Call<'_>, refusal: Refusal)
        ensures first { OnErr self.old.printed (self.new.printed ≡ self.old.printed) }
    {
        let (number, layer) = (refusal.number(), refusal.layer().number());
        let place = refusal.place;
        self.print(
            call,
            format_args!("refusal {number}, layer {layer}, place {place}"),
        );
    }

    /// Tells what a call answered: its main figure, or the refusal.
    pub fn answered<F: Display + Drop>(
        &mut self,
        call: Call<'_>,
        name: &str,
        answer: Result<F, Refusal>,
    )
        ensures first { OnErr self.old.printed (self.new.printed ≡ self.old.printed) }
    {
        match answer {
            Ok(figure) => self.granted(call, name, figure),
            Err(refusal) => self.refused(call, refusal),
        }
    }

    /// The first error of printing.
    pub fn finish(self) -> io::Result<()>
        ensures { result ≡ self.entry.printed }
    {
        let Lines { rt: _, printed } = self;
        printed
    }
}
