//! How an answer ends, and why one was not written.
ghost use Rattle.std.specs.Prelude.{◌≡◌};
ghost use Rattle.pb_reply.specs.declared.status.Fault.TheVariants.{Memory, Write};

use pb_cohesion::{RefutationFailure, ViolationFailure};
use pb_election::PutFault;
use pb_input::InputRefusal;
use pb_price::Failure;
use std::alloc::AllocError;
use thiserror::Error;

/// How an answer ends.
#[derive(Clone, Copy, Debug, PartialEq, Eq)]
pub enum Status {
    /// The inputs are what they should be, and all that was asked holds.
    Yes,
    /// The inputs are what they should be, and this does not hold.
    No(Unmet),
    /// This input is not what it should be.
    Refused(InputRefusal),
}

/// What does not hold: the first condition or test of a certificate or of each of two, or what is asked of groups.
#[derive(Clone, Copy, Debug, PartialEq, Eq)]
pub enum Unmet {
    /// A condition on prices.
    Prices(Failure),
    /// A test of a violation.
    Violation(ViolationFailure),
    /// A test of a refutation.
    Refutation(RefutationFailure),
    /// A condition on prices, and a test of the violation beside them.
    Both(Failure, ViolationFailure),
    /// A group of voters falls short.
    Groups {
        /// The lowest project for which one does, numbered from 1.
        project: u32,
        /// How many voters the largest such group has.
        voters: u32,
    },
}

/// Why an answer was not written whole.
#[derive(Clone, Copy, Debug, PartialEq, Eq, Error)]
pub enum Fault {
    /// Out of memory. Nothing was written, or of a folder's objects the first ones. That this comes only after a failed allocation is tested, not proved.
    #[error("fault memory")]
    Memory,
    /// The writer failed. A front of the text was written.
    #[error("fault write")]
    Write,
}

impl From<AllocError> for Fault {
    ghost from_gives = { λ _ e. e ≡ Memory };

    fn from(_error: AllocError) -> Fault {
        Fault::Memory
    }
}

impl From<PutFault> for Fault {
    ghost from_gives = { λ _ e. e ≡ Write };

    fn from(_fault: PutFault) -> Fault {
        Fault::Write
    }
}
