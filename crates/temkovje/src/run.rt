// A book file run from its text to what it prints.
use book::book::Book;
use bookfile::file::{BookFile, read};
use booklaws::answer::Granted;
use calls::call::Call;
use journal::entry::Entry;
use journal::journal::Journal;
use journal::lent_journal::LentJournal;
use limits::MOST_COMPANIES;
use management::area_wide::AreaWide;
use management::municipal::Municipal;
use management::rule::Management;
use options::Options;
use report::summary::Summed;
use report::telling::write_said;
use report::year::{write_account, write_closed, write_company, write_locality};
use std::alloc::Global;
use std::fmt;
use tables::lengths::{MOST_LOCALITIES, MOST_POINTS};
use tables::lookup::record_at;
use tables::rows::{LocalityRow, PointRow, Row};
use tariff::table::Tariff;
use told::failure::Failure;
use told::saying::{Said, Saying};
use told::so_far::SoFar;
use told::summary::Summary;
use units::amounts::PointPrice;
use units::refusal::{Reason, Refusal};
use yearly::run::run_year;

/// What is printed of a book file: its name, whether that stands above it, and what the command line asks for.
#[derive(Clone, Copy)]
pub struct Job<'a> {
    pub file: &'a str,
    pub is_told: bool,
    pub options: Options,
}

/// Reads a book file, runs its calls, and prints what they answered and what the year comes to. A file that is malformed, or whose tariff table, management rule or
/// opening is refused, runs none, and nothing of it is printed. Answers whether every call was granted.
pub fn run_book<W: fmt::Write>(
    heap: Global,
    out: &mut W,
    job: Job<'_>,
    text: &str,
) -> Result<bool, Failure> {
    let file = read(heap, text)?;
    let brackets = file.tariff.count;
    let tariff = Tariff::try_from(file.tariff).map_err(|refusal| Failure::Tariff {
        refusal,
        brackets,
    })?;
    if file.rule.wide {
        run_by::<AreaWide, W>(heap, out, job, &tariff, &file)
    } else {
        run_by::<Municipal, W>(heap, out, job, &tariff, &file)
    }
}

// Runs the file's calls by a management rule, over a journal with room for an entry of each.
fn run_by<M: Management + TryFrom<[PointPrice; 9], Error = Refusal> + Drop, W: fmt::Write>(
    heap: Global,
    out: &mut W,
    job: Job<'_>,
    tariff: &Tariff,
    file: &BookFile,
) -> Result<bool, Failure> {
    let rule = M::try_from(file.rule.prices).map_err(|refusal| Failure::Rule(refusal))?;
    let room = file.calls.len().min(file.opening.capacity as usize);
    let mut entries = vec![in heap; Entry::default(); room]?;
    let mut book = Book::new(LentJournal::new(entries.as_mut_slice()), rule);
    run_calls(heap, out, job, tariff, file, &mut book)
}

fn run_calls<J: Journal, M: Management, W: fmt::Write>(
    heap: Global,
    out: &mut W,
    job: Job<'_>,
    tariff: &Tariff,
    file: &BookFile,
    book: &mut Book<J, M>,
) -> Result<bool, Failure> {
    let mut localities = vec![in heap; LocalityRow::blank(); MOST_LOCALITIES]?;
    let mut points = vec![in heap; PointRow::blank(); MOST_POINTS]?;
    let calls = calls_of(heap, file)?;
    let unanswered = Err(Reason::BookNotOpen.at(0));
    let mut answers = vec![in heap; unanswered; calls.len()]?;
    run_year(
        book,
        tariff,
        file.opening.number,
        file.opening.sum,
        localities.as_mut_slice(),
        points.as_mut_slice(),
        file.filings.as_slice(),
        calls.as_slice(),
        answers.as_mut_slice(),
    )
    .map_err(|refusal| Failure::Opening(refusal))?;
    drop(calls);
    let summary = write_answers(heap, out, job, file, answers.as_slice())?;
    let tables = (localities.as_slice(), points.as_slice());
    write_year(out, job.options.company, tariff, book, tables)?;
    if job.is_told {
        writeln!(out)?;
    }
    Ok(summary.refused == 0)
}

// The calls of a file, in their order.
fn calls_of(heap: Global, file: &BookFile) -> Result<Vec<Call>, Failure> {
    let mut calls = Vec::new(heap);
    for numbered in file.calls.iter() {
        calls.push(numbered.call)?;
    }
    Ok(calls)
}

// The calls that are asked for with what they were answered, under the file's name if it is told, and how many of all were granted.
fn write_answers<W: fmt::Write>(
    heap: Global,
    out: &mut W,
    job: Job<'_>,
    file: &BookFile,
    answers: &[Result<Granted, Refusal>],
) -> Result<Summary, Failure> {
    let mut saying = Saying {
        so_far: SoFar::new(heap)?,
        summary: Summary::default(),
    };
    let filings = file.filings.as_slice();
    if job.is_told {
        writeln!(out, "{}", job.file)?;
    }
    for (numbered, answer) in file.calls.iter().zip(answers.iter()) {
        let said = saying.next(*numbered, *answer);
        if is_shown(&job.options, &said) {
            write_said(out, job.file, filings, numbered.call, &said)?;
        }
    }
    if !job.options.is_year {
        writeln!(out, "\n{}", Summed(saying.summary))?;
    }
    Ok(saying.summary)
}

// Whether a call is printed: of the year's statement alone none is.
fn is_shown(options: &Options, said: &Said) -> bool {
    match said {
        Said::Granted { .. } => !options.is_year && !options.only_refused,
        Said::Refused(_) => !options.is_year,
    }
}

// What the year comes to: every locality that stands, every company that is registered, those that are closed, and the account; or one company with its localities alone.
fn write_year<W: fmt::Write, J: Journal, M: Management>(
    out: &mut W,
    chosen: Option<u64>,
    tariff: &Tariff,
    book: &Book<J, M>,
    tables: (&[LocalityRow], &[PointRow]),
) -> fmt::Result {
    let (localities, points) = tables;
    for place in 0..localities.len() as u64 {
        if let Some(locality) = record_at(localities, place) {
            if chosen.is_none_or(|company| company == locality.row().company) {
                write_locality(out, tariff, place, &locality)?;
            }
        }
    }
    if let Some(company) = chosen {
        return write_company(out, book, localities, points, company);
    }
    for company in 0..MOST_COMPANIES as u64 {
        if book.company(company).is_ok() {
            write_company(out, book, localities, points, company)?;
        }
    }
    write_closed(out, book)?;
    write_account(out, book, points)
}
