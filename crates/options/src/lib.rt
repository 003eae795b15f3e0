// What the command line says.
#![tactic(auto)]

ghost use Rattle.std.specs.Prelude.{◌≡◌, None, codes};
ghost use Rattle.clap.specs.Words.{found_of, one_text};
ghost use Rattle.options.specs.Flags.{IsFlag};

pub mod template;

use clap::{Arg, ArgAction, ArgMatches, Command};
use std::alloc::{AllocError, Global};

/// What a command line asks for.
#[derive(Clone, Copy, Debug)]
pub struct Options {
    /// The year's statement alone.
    pub is_year: bool,
    /// The refused calls and the statement.
    pub only_refused: bool,
    /// Of the statement, this company and its localities alone.
    pub company: Option<u64>,
    /// The program ends with 3 where a call was refused.
    pub is_strict: bool,
    /// A book file to begin with, and no file is run.
    pub is_template: bool,
}

static ABOUT: &str =
    "Runs book files and prints what their calls answer and what the year then comes to.";

static MORE: &str = "A book file has one statement a line:

    tariff days=365 commercial=1825000
    bracket end=1000000000 price=5000000
    register company=0 advance=0 instalments=1 verification=0 central=0 points=0 density=1 award=1
    file locality=0 company=0 state=1 area=1 expected=100 smart=40
    enrol point=0 locality=0 class=1 domestic=0
    bill point=0 volume=500 days=73

Exit status:

    0  each file was run
    1  a file was not run: it is unreadable or malformed, or its table, rule or opening is refused
    2  the command line is wrong
    3  a call was refused, under --strict";

fn flag<'a>(heap: Global, name: &'a str, help: &'a str) -> Arg<'a> {
    Arg::new(heap, name)
        .long(name)
        .action(ArgAction::SetTrue)
        .help(help)
}

/// The command line of the program, in this version.
pub fn command<'a>(heap: Global, version: &'a str) -> Result<Command<'a>, AllocError> {
    let year = flag(heap, "year", "Print the year's statement alone").conflicts_with("refused")?;
    let refused = flag(heap, "refused", "Print the refused calls and the statement");
    let strict = flag(heap, "strict", "End with status 3 if a call was refused");
    let template = flag(
        heap,
        "template",
        "Print a book file with every statement, which runs as it is",
    );
    let company = Arg::new(heap, "company")
        .long("company")
        .value_name("N")
        .value_parser(clap::value_parser!(u64))
        .help("Print of the statement this company and its localities alone");
    let files = Arg::new(heap, "file")
        .value_name("FILE")
        .action(ArgAction::Append)
        .num_args(0..)
        .help("Book files; - or none is the standard input");
    Command::new(heap, "temkovje")
        .version(version)
        .about(ABOUT)
        .after_help(MORE)
        .arg(year)?
        .arg(refused)?
        .arg(company)?
        .arg(strict)?
        .arg(template)?
        .arg(files)
}

/// What a command line that was read asks for.
pub fn options_of(matches: &ArgMatches<'_>) -> Options
    ensures year { IsFlag (found_of matches.now) (codes "year") result.is_year }
    ensures refused { IsFlag (found_of matches.now) (codes "refused") result.only_refused }
    ensures strict { IsFlag (found_of matches.now) (codes "strict") result.is_strict }
    ensures template { IsFlag (found_of matches.now) (codes "template") result.is_template }
    ensures company { one_text (found_of matches.now) (codes "company") ≡ None → result.company ≡ None }
{
    Options {
        is_year: matches.get_flag("year"),
        only_refused: matches.get_flag("refused"),
        company: matches.get_one::<u64>("company"),
        is_strict: matches.get_flag("strict"),
        is_template: matches.get_flag("template"),
    }
}
