// Why there is no report: the file has a fault, or memory is wanting.
ghost use Rattle.std.specs.Prelude.{◌≡◌};
ghost use Rattle.replay.specs.declared.failure.Failure.TheVariants.{Faulty as BadFile, OutOfMemory as NoMemory};

use crate::report::CallLine;
use dayfile::fault::FileFault;
use std::alloc::{AllocError, AllocFailed};

#[derive(Clone, Copy)]
pub enum Failure {
    Faulty(FileFault),
    OutOfMemory,
}

impl From<FileFault> for Failure {
    ghost from_gives = { λ e r. r ≡ BadFile e };

    fn from(fault: FileFault) -> Failure {
        Failure::Faulty(fault)
    }
}

impl From<AllocError> for Failure {
    ghost from_gives = { λ e r. r ≡ NoMemory };

    fn from(_error: AllocError) -> Failure {
        Failure::OutOfMemory
    }
}

impl From<AllocFailed<CallLine>> for Failure {
    ghost from_gives = { λ e r. r ≡ NoMemory };

    fn from(_refused: AllocFailed<CallLine>) -> Failure {
        Failure::from(AllocError)
    }
}
