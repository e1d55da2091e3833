//! Why a page has no plan.
ghost use Rattle.std.specs.Prelude.{◌≡◌, Some};
ghost use Rattle.planning.specs.declared.error.PlanError.TheVariants.{Refused, OutOfMemory};
ghost use Rattle.planning.specs.Answering.{error_line};

use faults::Fault;
use std::alloc::AllocError;
use std::error::Error;
use std::fmt;

/// What turned a call down: a refusal of a layer below, or want of memory.
#[derive(Clone, Copy, Debug, PartialEq, Eq)]
pub enum PlanError {
    Refused(Fault),
    OutOfMemory,
}

impl From<Fault> for PlanError {
    ghost from_gives = { λ fault e. e ≡ Refused fault };

    fn from(fault: Fault) -> Self {
        Self::Refused(fault)
    }
}

impl From<AllocError> for PlanError {
    ghost from_gives = { λ _ e. e ≡ OutOfMemory };

    fn from(_: AllocError) -> Self {
        Self::OutOfMemory
    }
}

/// A refusal's line, or that memory ran out.
impl fmt::Display for PlanError {
    ghost output = { λ e. Some (error_line e) };

    fn fmt<W: fmt::Write>(&self, f: &mut fmt::Formatter<W>) -> fmt::Result {
        match self {
            PlanError::Refused(fault) => write!(f, "{fault}"),
            PlanError::OutOfMemory => write!(f, "out of memory"),
        }
    }
}

impl Error for PlanError {}
