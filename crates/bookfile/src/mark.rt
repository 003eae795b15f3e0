// Where the fault of a malformed line stands.
use crate::line::before_comment;
use crate::malformed::Malformed;
use crate::statement::{Field, Statement};

/// The word at fault, and how many characters stand before it. Where a figure is missing, there is no word, and that is how long the statement is.
#[derive(Clone, Copy, Debug)]
pub struct Mark<'a> {
    pub before: usize,
    pub word: Option<&'a str>,
}

/// Marks what is at fault in a malformed line.
pub fn mark_of(row: &str, what: Malformed) -> Mark<'_> {
    let text = before_comment(row);
    let mut mark = Mark {
        before: text.trim_end().chars().count(),
        word: None,
    };
    let (mut before, mut seen, mut is_first) = (0usize, 0usize, true);
    for word in text.split(|c: char| c.is_whitespace()) {
        let length = word.chars().count();
        if length > 0 {
            if may_be_at_fault(word, is_first, what) {
                if seen == 0 || seen == 1 && matches!(what, Malformed::Repeated(_)) {
                    mark = Mark {
                        before,
                        word: Some(word),
                    };
                }
                seen = seen.saturating_add(1);
            }
            is_first = false;
        }
        before = before.saturating_add(length).saturating_add(1);
    }
    mark
}

// Whether a word may be the one at fault: it is the first such word, and the second one that gives a figure which is given twice in the line.
fn may_be_at_fault(word: &str, is_first: bool, what: Malformed) -> bool {
    match what {
        Malformed::Keyword | Malformed::NinthBracket => is_first,
        Malformed::Word => !is_first && !word.contains('='),
        Malformed::Name(statement) => !is_first && !names_figure(word, statement),
        Malformed::Repeated(field) | Malformed::Number(field) => gives(word, field),
        Malformed::Missing(_) => false,
    }
}

// Whether a word begins with the name of a figure of the statement.
fn names_figure(word: &str, statement: Statement) -> bool {
    match word.split_once('=') {
        Some((name, _)) => statement.names().iter().any(|known| *known == name),
        None => false,
    }
}

// Whether a word gives a figure.
fn gives(word: &str, field: Field) -> bool {
    match (word.split_once('='), field.name()) {
        (Some((name, _)), Some(known)) => name == known,
        _ => false,
    }
}
