// The law of malformed book files.
ghost use Rattle.bookfile.specs.Files.{FaultLaw};

/// A malformed book file has one first line at fault, and says no book.
pub fn fault_law()
    ensures { FaultLaw }
{}
