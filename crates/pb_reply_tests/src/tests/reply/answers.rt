//! Replies, and the texts that are made of them.
use crate::tests::lines::expect_lines;
use crate::tests::refusals::{in_certificate, in_election, refused};
use pb_certificate::{CertFault, CertRefusal};
use pb_cohesion::ViolationFailure;
use pb_election::ElectionFault;
use pb_input::{InputFault, InputName};
use pb_reply::{
    Answer, Fault, Format, FromReply, InFormats, Reply, Status, Table, Unmet, one_line, or_refusal,
    reply_why, taken_as, unanswered_at,
};
use std::alloc::{AllocError, Global};
use std::process::Abort;
use std::test::Fail;

const NO: Status = Status::No(Unmet::Violation(ViolationFailure::V1));

/// The line of its object.
const OBJECT: &str =
    "{\"answer\":\"refused\",\"input\":\"folder\",\"kind\":\"refusal\",\"name\":\"Read\",\
    \"number\":18,\"record\":0,\"version\":1}\n";

/// A reply that work came to, with the object of another.
fn reply(alloc: Global) -> Result<Reply, AllocError> {
    let other = reply_why(alloc, &unanswered_at(InputName::Folder, InputFault::Unread))?;
    let line = String::from_str(alloc, "supported stable")?;
    let mut reply = one_line(alloc, line, other.object, NO)?;
    reply.lines.push(String::from_str(alloc, "failed V1")?)?;
    Ok(reply)
}

/// An answer has this text and this status.
fn expect_answer(rt: &impl Abort, answer: &Answer<Status>, text: &str, status: Status) {
    assert!(rt; answer.text.as_slice() == text.as_bytes(), "{text}");
    assert_eq!(rt; answer.status, status);
}

#[test]
fn work_that_came_to_its_end_is_settled_as_it_is(rt: HostRuntime) -> Result<(), Fail> {
    let alloc = rt.alloc();
    let own = or_refusal(alloc, Ok(reply(alloc)?))?;
    expect_lines(&rt, &own.lines, &["supported stable", "failed V1"]);
    assert_eq!(rt; own.status, NO);
    let answer = or_refusal(alloc, Ok(own.answer(alloc)?))?;
    expect_answer(&rt, &answer, "supported stable\nfailed V1\n", NO);
    Ok(())
}

#[test]
fn a_reply_is_written_as_lines_or_as_an_object_or_as_both(rt: HostRuntime) -> Result<(), Fail> {
    let alloc = rt.alloc();
    let reply = reply(alloc)?;
    let answer = reply.answer_as(alloc, Format::Lines)?;
    expect_answer(&rt, &answer, "supported stable\nfailed V1\n", NO);
    let answer = reply.answer_as(alloc, Format::Json)?;
    expect_answer(&rt, &answer, OBJECT, NO);
    let text = reply.object.text(alloc)?;
    assert!(rt; OBJECT.trim_end() == text.as_str(), "{text}");
    let both = format!(in alloc; "{OBJECT}supported stable\nfailed V1\n")?;
    let answer = reply.answer_as(alloc, Format::JsonAndLines)?;
    expect_answer(&rt, &answer, &both, NO);
    Ok(())
}

#[test]
fn a_table_is_written_as_it_is_or_as_an_object_or_as_both(rt: HostRuntime) -> Result<(), Fail> {
    let alloc = rt.alloc();
    let both = format!(in alloc; "{OBJECT}supported stable\nfailed V1\n")?;
    for (format, want) in [
        (Format::Lines, "supported stable\nfailed V1\n"),
        (Format::Json, OBJECT),
        (Format::JsonAndLines, both.as_str()),
    ] {
        let table = Table::from_reply(alloc, reply(alloc)?)?;
        assert_eq!(rt; table.status, NO);
        let answer = table.in_format(alloc, format)?;
        expect_answer(&rt, &answer, want, NO);
        let answer = reply(alloc)?.in_format(alloc, format)?;
        expect_answer(&rt, &answer, want, NO);
    }
    Ok(())
}

#[test]
fn what_stopped_the_work_is_told_in_a_line(rt: HostRuntime) -> Result<(), Fail> {
    let alloc = rt.alloc();
    let (input, fault) = (
        InputName::Certificate,
        in_certificate(CertFault::OutOfOrder, 6),
    );
    let line = "refused certificate 26 OutOfOrder record 6";
    let object = "{\"answer\":\"refused\",\"input\":\"certificate\",\"kind\":\"refusal\",\
        \"name\":\"OutOfOrder\",\"number\":26,\"record\":6,\"version\":1}\n";
    let why = unanswered_at(input, fault);
    let reply = reply_why(alloc, &why)?;
    expect_lines(&rt, &reply.lines, &[line]);
    let answer = reply.answer_as(alloc, Format::Json)?;
    expect_answer(&rt, &answer, object, refused(input, fault));
    assert_eq!(rt; reply.status, refused(input, fault));
    let why = unanswered_at(InputName::Folder, InputFault::Unread);
    let answer: Answer<Status> = or_refusal(alloc, Err(why))?;
    let status = refused(InputName::Folder, InputFault::Unread);
    let text = "refused folder 18 Read record 0\n";
    expect_answer(&rt, &answer, text, status);
    Ok(())
}

#[test]
fn what_was_read_is_taken_as_the_input_of_its_name(rt: HostRuntime) -> Result<(), Fail> {
    let alloc = rt.alloc();
    assert!(rt; matches!(taken_as(InputName::Outcome, Ok(7)), Ok(7)));
    let refusal = CertRefusal {
        fault: CertFault::OutOfOrder,
        record_number: 6,
    };
    for (input, line) in [
        (InputName::Outcome, "refused outcome 26 OutOfOrder record 6"),
        (
            InputName::Violation,
            "refused violation 26 OutOfOrder record 6",
        ),
    ] {
        let Err(why) = taken_as::<u32>(input, Err(refusal)) else {
            panic!(rt; "{line}");
        };
        expect_lines(&rt, &reply_why(alloc, &why)?.lines, &[line]);
    }
    Ok(())
}

/// Numbers 16 and 29 are never printed.
#[test]
fn want_of_memory_is_told_in_no_line(rt: HostRuntime) {
    for fault in [
        in_election(ElectionFault::Memory, 0),
        in_certificate(CertFault::Memory, 0),
    ] {
        let why = unanswered_at(InputName::Election, fault);
        assert!(rt; reply_why(rt.alloc(), &why).is_err());
        assert!(rt; or_refusal::<Reply>(rt.alloc(), Err(why)).is_err());
        assert!(rt; or_refusal::<Answer<Status>>(rt.alloc(), Err(why)).is_err());
    }
}

#[test]
fn each_fault_has_its_own_text(rt: HostRuntime) -> Result<(), Fail> {
    let alloc = rt.alloc();
    for (fault, want) in [
        (Fault::Memory, "fault memory"),
        (Fault::Write, "fault write"),
    ] {
        let text = fault.to_string(alloc)?;
        assert!(rt; text.as_str() == want);
    }
    Ok(())
}
