// The program: reads book files, runs their calls, and prints what each of them answers and what the year then comes to.
#![tactic(auto)]

mod output;
mod run;

use bookfile::file::Unread;
use clap::ArgMatches;
use options::template::TEMPLATE;
use options::{command, options_of};
use output::Output;
use report::failure::NotRun;
use report::malformed::write_malformed;
use run::{Job, run_book};
use std::fmt::Write;
use std::process::ExitCode;
use std::{env, fs, io};
use told::failure::Failure;

const VERSION: &str = "1.0, rattle-kit-13f logic dac8208d650f15bf";

fn main(rt: HostRuntime) -> io::Result<ExitCode> {
    let heap = rt.alloc();
    let words: Vec<String> = match env::args(&rt) {
        Ok(words) => words.collect(heap)?,
        Err(error) => {
            eprintln!(rt; "the book file cannot be read: {error}")?;
            return Ok(ExitCode::FAILURE);
        }
    };
    let command = command(heap, VERSION)?;
    match command.try_get_matches_from(words.as_slice()) {
        Ok(matches) => run_files(&rt, &matches),
        Err(error) => {
            error.print(&rt)?;
            Ok(ExitCode::from(error.exit_code() as u8))
        }
    }
}

// Runs the files of the command line, and answers the exit status: 1 where one was not run, else 3 where a call was refused and that is asked for.
fn run_files(rt: &HostRuntime, matches: &ArgMatches<'_>) -> io::Result<ExitCode> {
    let options = options_of(matches);
    if options.is_template {
        rt.print(TEMPLATE)?;
        return Ok(ExitCode::SUCCESS);
    }
    let files = matches.get_strs("file").unwrap_or(INPUT.as_slice());
    let (mut is_run, mut is_clean) = (true, true);
    for file in files.iter() {
        let job = Job {
            file: *file,
            is_told: files.len() > 1,
            options,
        };
        match run_file(rt, job)? {
            Some(granted) => is_clean = is_clean && granted,
            None => is_run = false,
        }
    }
    let is_refused = options.is_strict && !is_clean;
    Ok(ExitCode::from(match (is_run, is_refused) {
        (false, _) => 1,
        (true, true) => 3,
        (true, false) => 0,
    }))
}

// The standard input's name.
static INPUT: [&str; 1] = ["-"];

// Runs a book file, and answers whether every call was granted; nothing where it was not run.
fn run_file(rt: &HostRuntime, job: Job<'_>) -> io::Result<Option<bool>> {
    let text = match job.file {
        "-" => io::read_to_string(rt.alloc(), rt.stdin()),
        path => fs::read_to_string(rt, path),
    };
    match text {
        Ok(text) => run_text(rt, job, text.as_str()),
        Err(error) => {
            tell(rt, job.file, "", Failure::Input(error))?;
            Ok(None)
        }
    }
}

fn run_text(rt: &HostRuntime, job: Job<'_>, text: &str) -> io::Result<Option<bool>> {
    let mut out = Output::new(rt.alloc(), io::writer(rt))?;
    let ran = run_book(rt.alloc(), &mut out, job, text);
    out.finish()?;
    match ran {
        Ok(granted) => Ok(Some(granted)),
        Err(failure) => {
            tell(rt, job.file, text, failure)?;
            Ok(None)
        }
    }
}

// Tells on the standard error why a file was not run: of a malformed one each malformed line.
fn tell(rt: &HostRuntime, file: &str, text: &str, failure: Failure) -> io::Result<()> {
    let mut out = Output::new(rt.alloc(), rt.stderr())?;
    // (an error of writing is kept, and answered in the end)
    let _ = match failure {
        Failure::Unread(Unread::Malformed { .. }) => write_malformed(&mut out, file, text),
        failure => writeln!(out, "{file}: {}", NotRun(failure)),
    };
    out.finish()
}
