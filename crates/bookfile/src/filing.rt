// The row that a line files for a locality.
ghost use Rattle.std.specs.Prelude.{◌≡◌, ◌<◌};
ghost use Rattle.bookfile.specs.Filings.{asset_row, filing_of, locality_row};

use crate::line::Line;
use crate::statement::Statement;
use std::array;
use tables::rows::{AssetRow, LocalityRow};

/// The row that a line files, if it files one.
pub(crate) fn filing_of(line: &Line) -> Option<LocalityRow>
    ensures { result ≡ filing_of line.now.statement line.now.figures }
{
    match line.statement {
        Statement::File => Some(locality_row(line)),
        _ => None,
    }
}

fn locality_row(line: &Line) -> LocalityRow
    ensures { result ≡ locality_row line.now.figures }
{
    LocalityRow {
        company: line.whole(1),
        state: line.whole(2),
        area: line.whole(3),
        expected: line.whole(4),
        smart: line.whole(5),
        rows: array::from_fn(|i| asset_row(line, i)),
    }
}

// The asset row with this index.
fn asset_row(line: &Line, i: usize) -> AssetRow
    requires { i < 8 }
    ensures { result ≡ asset_row line.now.figures i }
{
    let first = 6 + 5 * i;
    AssetRow {
        gross: line.whole(first),
        net: line.whole(first + 1),
        works: line.whole(first + 2),
        contributions: line.whole(first + 3),
        remaining: line.whole(first + 4),
    }
}
