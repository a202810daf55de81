ghost use Rattle.std.specs.Prelude.{◌≡◌};
ghost use Rattle.dimacs_text.specs.declared.untaken.Untaken.TheVariants as untaken;

use crate::fault::TextKind;
use std::alloc::{AllocError, AllocFailed};

/// Why a line isn't taken.
#[derive(Clone, Copy, Debug)]
pub enum Untaken {
    /// It is faulty.
    Faulty(TextKind),
    /// There was no memory for it.
    NoMemory,
}

impl From<TextKind> for Untaken {
    ghost from_gives = { λ kind why. why ≡ untaken.Faulty kind };

    fn from(kind: TextKind) -> Untaken {
        Untaken::Faulty(kind)
    }
}

impl From<AllocError> for Untaken {
    ghost from_gives = { λ _ why. why ≡ untaken.NoMemory };

    fn from(_error: AllocError) -> Untaken {
        Untaken::NoMemory
    }
}

impl<T: Drop> From<AllocFailed<T>> for Untaken {
    ghost from_gives = { λ _ why. why ≡ untaken.NoMemory };

    fn from(_error: AllocFailed<T>) -> Untaken {
        Untaken::NoMemory
    }
}
