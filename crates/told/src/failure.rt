// Why a book file is not run.
ghost use Rattle.std.specs.Prelude.{◌≡◌};
ghost use Rattle.told.specs.declared.failure.Failure.TheVariants.{Input, Unread as UnreadFailure, Unwritten, Memory};

use bookfile::file::Unread;
use std::alloc::{AllocError, AllocFailed};
use std::{fmt, io};
use units::refusal::Refusal;

/// Why a book file is not run.
#[derive(Clone, Copy, Debug)]
pub enum Failure {
    /// The book file cannot be read from where it lies.
    Input(io::Error),
    Unread(Unread),
    /// The tariff table, of so many brackets, is refused.
    Tariff { refusal: Refusal, brackets: usize },
    /// The management rule is refused.
    Rule(Refusal),
    /// The opening is refused.
    Opening(Refusal),
    /// What was answered cannot be written.
    Unwritten,
    Memory,
}

impl From<io::Error> for Failure {
    ghost from_gives = { λ error r. r ≡ Input error };

    fn from(error: io::Error) -> Failure {
        Failure::Input(error)
    }
}

impl From<Unread> for Failure {
    ghost from_gives = { λ unread r. r ≡ UnreadFailure unread };

    fn from(unread: Unread) -> Failure {
        Failure::Unread(unread)
    }
}

impl From<AllocError> for Failure {
    ghost from_gives = { λ _ r. r ≡ Memory };

    fn from(_e: AllocError) -> Failure {
        Failure::Memory
    }
}

impl<T: Drop> From<AllocFailed<T>> for Failure {
    ghost from_gives = { λ _ r. r ≡ Memory };

    fn from(_e: AllocFailed<T>) -> Failure {
        Failure::Memory
    }
}

impl From<fmt::Error> for Failure {
    ghost from_gives = { λ _ r. r ≡ Unwritten };

    fn from(_e: fmt::Error) -> Failure {
        Failure::Unwritten
    }
}
