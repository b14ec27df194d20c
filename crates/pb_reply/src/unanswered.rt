//! Why a question isn't answered.
ghost use Rattle.std.specs.Prelude.{◌≡◌, Err, MatchResult, Ok};
ghost use Rattle.pb_input.specs.declared.InputFault.TheVariants as fault;
ghost use Rattle.pb_input.specs.declared.InputName.TheVariants as name;
ghost use Rattle.pb_reply.specs.Inside.Taking as spec;
ghost use Rattle.pb_reply.specs.declared.unanswered.Unanswered.TheVariants.{Memory};

use pb_certificate::CertRefusal;
use pb_election::Refusal;
use pb_input::{InputFault, InputName, InputRefusal};
use std::alloc::AllocError;

/// Why a question isn't answered.
#[derive(Clone, Copy)]
pub enum Unanswered {
    /// An input is refused.
    Refused(InputRefusal),
    /// Out of memory.
    Memory,
}

impl From<AllocError> for Unanswered {
    ghost from_gives = { λ _ e. e ≡ Memory };

    fn from(_error: AllocError) -> Unanswered {
        Unanswered::Memory
    }
}

impl From<Refusal> for Unanswered {
    ghost from_gives = { λ refusal why. why ≡ spec.unanswered_at name.Election (fault.Election refusal) };

    fn from(refusal: Refusal) -> Unanswered {
        unanswered_at(InputName::Election, InputFault::Election(refusal))
    }
}

/// What was read as the input of this name, or why there is no answer where it is refused.
pub fn taken_as<T>(input: InputName, read: Result<T, CertRefusal>) -> Result<T, Unanswered>
    ensures { MatchResult read (λ value. result ≡ Ok value) (λ refusal. result ≡ Err (spec.unanswered_at input (fault.Certificate refusal))) }
{
    match read {
        Ok(value) => Ok(value),
        Err(refusal) => Err(unanswered_at(input, InputFault::Certificate(refusal))),
    }
}

/// Why there is no answer, at an input that gave no value.
pub fn unanswered_at(input: InputName, fault: InputFault) -> Unanswered
    ensures { result ≡ spec.unanswered_at input fault }
{
    if fault.wants_memory() {
        return Unanswered::Memory;
    }
    Unanswered::Refused(InputRefusal { input, fault })
}
