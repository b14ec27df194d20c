//! How an answer is reported to C: a number, and the text in the caller's memory.
ghost use Rattle.std.specs.Prelude.{◌≡◌, IfErr, IfOk};
ghost use Rattle.pb_c.specs.Facts.{facts_of, no_facts};
ghost use Rattle.pb_c.specs.Reports.{IsGiven, IsOutOfMemory, IsReported, status_code};

use crate::facts::{Facts, NO_FACTS, facts_of};
use pb_audit::{Answer, Status};
use std::alloc::AllocError;

/// The number where what is asked for doesn't exist, a question or a language.
pub(crate) const NOTHING_CODE: u8 = 3;

/// The number where memory ran out.
pub(crate) const MEMORY_CODE: u8 = 4;

/// Reports an answer, with what is told of it in numbers, or that memory ran out.
pub(crate) fn report_facts(
    answer: &Result<Answer<Status>, AllocError>,
    facts: &mut Facts,
    out: &mut [u8],
    needed: &mut usize,
) -> u8
    ensures reported { IfOk answer.now (λ own. IsReported (λ a. a ≡ own) result out.old out.new needed.new × (facts.new ≡ facts_of own.status)) }
    ensures memory_out { IfErr answer.now (λ _. IsOutOfMemory result out.old out.new needed.new × (facts.new ≡ no_facts)) }
{
    *facts = match answer {
        Ok(answer) => facts_of(answer.status),
        Err(_) => NO_FACTS,
    };
    report(answer, out, needed)
}

/// Reports that what is asked for doesn't exist.
pub(crate) fn report_nothing(facts: &mut Facts, needed: &mut usize) -> u8
    ensures code { result ≡ 3 }
    ensures facts { facts.new ≡ no_facts }
    ensures needed { needed.new ≡ 0 }
{
    *facts = NO_FACTS;
    *needed = 0;
    NOTHING_CODE
}

/// Reports an answer, or that memory ran out.
pub(crate) fn report(
    answer: &Result<Answer<Status>, AllocError>,
    out: &mut [u8],
    needed: &mut usize,
) -> u8
    ensures reported { IfOk answer.now (λ own. IsReported (λ a. a ≡ own) result out.old out.new needed.new) }
    ensures memory_out { IfErr answer.now (λ _. IsOutOfMemory result out.old out.new needed.new) }
{
    let Ok(answer) = answer else {
        *needed = 0;
        return MEMORY_CODE;
    };
    give(&answer.text, out, needed);
    status_code(answer.status)
}

/// Gives a text, if it fits, and its length.
pub(crate) fn give(text: &[u8], out: &mut [u8], needed: &mut usize)
    ensures { IsGiven text.now out.old out.new needed.new }
{
    let length = text.len();
    *needed = length;
    if length <= out.len() {
        out[..length].copy_from_slice(text);
    }
}

/// The number of a status.
fn status_code(status: Status) -> u8
    ensures { result ≡ status_code status }
{
    match status {
        Status::Yes => 0,
        Status::No(_) => 1,
        Status::Refused(_) => 2,
    }
}
