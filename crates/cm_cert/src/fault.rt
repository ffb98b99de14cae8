// Why a certificate is refused, and out of memory as one of these reasons.
ghost use Rattle.std.specs.Prelude.{◌≡◌};
ghost use Rattle.cm_cert.specs.declared.fault.BadCert.TheVariants as errors;

use cm_base::NoMemory;
use std::alloc::{AllocError, AllocFailed};

/// Why a text is no certificate, or that it couldn't be read.
#[derive(Clone, Copy, Debug, PartialEq, Eq)]
pub enum BadCert {
    /// The text is no JSON.
    Json,
    /// The row of that number isn't of the form of a row; with no number the document isn't that of a certificate.
    Shape(Option<u32>),
    /// In the row of that number a set of ids isn't ascending intervals of ids that are apart.
    Order(u32),
    /// There was no memory to read it, which says nothing of the text.
    NoMemory,
}

impl From<NoMemory> for BadCert {
    ghost from_gives = { λ _ e. e ≡ errors.NoMemory };

    fn from(_: NoMemory) -> BadCert {
        BadCert::NoMemory
    }
}

impl From<AllocError> for BadCert {
    ghost from_gives = { λ _ e. e ≡ errors.NoMemory };

    fn from(_: AllocError) -> BadCert {
        BadCert::NoMemory
    }
}

impl<T: Drop> From<AllocFailed<T>> for BadCert {
    ghost from_gives = { λ _ e. e ≡ errors.NoMemory };

    fn from(_: AllocFailed<T>) -> BadCert {
        BadCert::NoMemory
    }
}
