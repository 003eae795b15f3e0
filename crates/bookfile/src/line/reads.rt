// Reading a line, and the figures that it gives.
ghost use Rattle.std.specs.Prelude.{◌≡◌, ◌<◌, ℕ, ◌⊎◌, List, replicate, None, is_ok, IfErr, IfOk, MatchOption, OnOk, bytes_eq, position, slice_index_or};
ghost use Rattle.std.specs.Str.Parse.{signed_digits_value};
ghost use Rattle.std.specs.Str.Iter.{split_whitespace_rest};
ghost use Rattle.bookfile.specs.declared.statement.TheConstants.{MOST_FIGURES};
ghost use Rattle.bookfile.specs.Faults.{BadFigure, BadWord, Misread, WordFault, figure_fault};
ghost use Rattle.bookfile.specs.Grammar.{Before, Filled, Gives, NoneBeyond, Plain, SpeaksIf, Words};
ghost use Rattle.bookfile.specs.Syntax.{allowed, Good};

use super::Line;
use crate::malformed::Malformed;
use crate::statement::{Field, MOST_FIGURES, Statement};
use std::str::SplitWhitespace;

impl Line {
    /// A line of no figures.
    pub(crate) fn new() -> Line {
        Line {
            statement: Statement::Account,
            figures: [None; MOST_FIGURES],
        }
    }

    /// Reads a row, and answers whether it says a statement, which this line then is; one that is empty or a comment says nothing.
    pub(crate) fn read(&mut self, row: &str) -> Result<bool, Malformed>
        ensures ok { IfOk result (SpeaksIf row.now self.new.statement self.new.figures) }
        ensures err { IfErr result (Misread row.now) }
    {
        let mut words = before_comment(row).split_whitespace();
        let Some(keyword) = words.next() else {
            return Ok(false);
        };
        let statement = keyword.parse::<Statement>()?;
        match read_statement(statement, words, &mut self.figures) {
            Ok(()) => {
                self.statement = statement;
                Ok(true)
            }
            Err(what) => {
                self.statement = Statement::Account;
                self.figures = [None; MOST_FIGURES];
                Err(what)
            }
        }
    }
}

pub(crate) fn before_comment(line: &str) -> &str
    ensures { Before line.now result.now }
{
    // A `match`: tried by `map_or`, and the proof did not close.
    match line.split_once('#') {
        Some((text, _)) => text,
        None => line,
    }
}

// Reads the figures of a statement, and tests them.
fn read_statement(
    statement: Statement,
    words: SplitWhitespace<'_>,
    figures: &mut [Option<i128>; MOST_FIGURES],
) -> Result<(), Malformed>
    ensures good { OnOk result (Good statement figures.new) }
    ensures ok { OnOk result
        ((ws : List (List ℕ)) × Words (split_whitespace_rest words.entry) ws
        × Filled statement ws (replicate MOST_FIGURES None) figures.new) }
    ensures err { IfErr result
        (λ what. BadWord statement (split_whitespace_rest words.entry) what
        ⊎ (((ws : List (List ℕ)) × Words (split_whitespace_rest words.entry) ws
        × Filled statement ws (replicate MOST_FIGURES None) figures.new)
        × BadFigure statement figures.new what)) }
{
    read_figures(statement, words, figures)?;
    check_figures(statement, figures)
}

// Puts the figures of a statement's words each to the place of its name, and nothing to the other places.
fn read_figures(
    statement: Statement,
    words: SplitWhitespace<'_>,
    figures: &mut [Option<i128>; MOST_FIGURES],
) -> Result<(), Malformed>
    ensures ok { OnOk result
        ((ws : List (List ℕ)) × Words (split_whitespace_rest words.entry) ws
        × Filled statement ws (replicate MOST_FIGURES None) figures.new) }
    ensures err { IfErr result (BadWord statement (split_whitespace_rest words.entry)) }
{
    *figures = [None; MOST_FIGURES];
    for word in words {
        let (place, n) = read_figure(statement, word, figures)?;
        figures[place] = Some(n);
    }
    Ok(())
}

// The place and the number of the figure that a word gives, beside those that are given before.
fn read_figure(
    statement: Statement,
    word: &str,
    given: &[Option<i128>; MOST_FIGURES],
) -> Result<(usize, i128), Malformed>
    ensures place { IfOk result (λ figure. figure.0 < MOST_FIGURES) }
    ensures ok { IfOk result
        (λ figure. Gives statement word.now figure.0 figure.1 × (slice_index_or given.now figure.0 None ≡ None)) }
    ensures err { IfErr result (WordFault statement given.now word.now) }
{
    let (name, text) = word.split_once('=').ok_or(Malformed::Word)?;
    let place = place_of(name, statement.names()).ok_or(Malformed::Name(statement))?;
    let field = Field { statement, place };
    if given[place].is_some() {
        return Err(Malformed::Repeated(field));
    }
    let n = number(text).ok_or(Malformed::Number(field))?;
    Ok((place, n))
}

// The place of a name among the names of a statement.
fn place_of(name: &str, names: &[&'static str]) -> Option<usize>
    ensures { result ≡ position (λ known. bytes_eq known.now name.now) names.now }
{
    names.iter().position(|known| *known == name)
}

// A whole number in plain digits, with a minus in front if it is negative.
fn number(text: &str) -> Option<i128>
    ensures { MatchOption result (Plain text.now → ⊥) (λ z. Plain text.now × (z ≡ signed_digits_value 10 text.now)) }
{
    if text.starts_with('+') {
        return None;
    }
    text.parse::<i128>().ok()
}

// Tests that each figure is given where it has to be, and lies within its bounds.
fn check_figures(
    statement: Statement,
    figures: &[Option<i128>; MOST_FIGURES],
) -> Result<(), Malformed>
    requires { NoneBeyond statement figures.now }
    ensures ok { OnOk result (Good statement figures.now) }
    ensures err { IfErr result (BadFigure statement figures.now) }
{
    let named = &figures[..statement.names().len()];
    for (place, figure) in named.iter().enumerate() {
        check_figure(Field { statement, place }, *figure)?;
    }
    Ok(())
}

fn check_figure(field: Field, figure: Option<i128>) -> Result<(), Malformed>
    ensures test { is_ok result ≡ allowed field.statement field.place figure }
    ensures err { IfErr result (λ e. e ≡ figure_fault field figure) }
{
    match figure {
        Some(n) if field.kind().allows(n) => Ok(()),
        Some(_) => Err(Malformed::Number(field)),
        None if field.is_needed() => Err(Malformed::Missing(field)),
        None => Ok(()),
    }
}
