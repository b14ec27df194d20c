//! Exit statuses, and what is said on standard output and standard error at the end, where no words are at fault.
use super::fakes::FakeWriter;
use pb_audit::{Fault, FolderStatus, InputFault, InputName, InputRefusal, Status, Unmet};
use pb_election::Output;
use pb_price::Failure;
use pb_run::End;
use std::test::Fail;

#[test]
fn answers_leave_nothing_to_say(rt: HostRuntime) -> Result<(), Fail> {
    let refused = Status::Refused(InputRefusal {
        input: InputName::Certificate,
        fault: InputFault::TooLong,
    });
    let unmet = Status::No(Unmet::Prices(Failure::Cover));
    for (end, want) in [
        (End::Answered(Status::Yes), 0),
        (End::Answered(unmet), 1),
        (End::Answered(refused), 2),
        (End::Reported(FolderStatus::AllYes), 0),
        (End::Reported(FolderStatus::SomeNo), 1),
        (End::Reported(FolderStatus::SomeRefused), 2),
    ] {
        let mut out = FakeWriter::new(rt.alloc());
        let mut err = FakeWriter::new(rt.alloc());
        let got = end.tell(&mut Output::new(&mut out), &mut err);
        assert_eq!(rt; got, want);
        assert!(rt; out.written.is_empty() && err.written.is_empty());
    }
    Ok(())
}

#[test]
fn faults_are_on_standard_error(rt: HostRuntime) -> Result<(), Fail> {
    let alloc = rt.alloc();
    for (fault, want) in [
        (Fault::Memory, "fault memory\n"),
        (Fault::Write, "fault write\n"),
    ] {
        let mut out = FakeWriter::new(alloc);
        let mut err = FakeWriter::new(alloc);
        assert_eq!(rt;
            End::Faulted(fault).tell(&mut Output::new(&mut out), &mut err),
            4
        );
        assert!(rt; out.written.is_empty());
        assert!(rt; err.written.as_slice() == want.as_bytes());
    }
    Ok(())
}
