//! How a run of the program ends.
ghost use Rattle.std.specs.Prelude.{◌≡◌};
ghost use Rattle.pb_run.specs.Endings.{HasStatus, WritesNothingUnlessHelp};

use crate::seen::tell_seen;
use pb_audit::{Fault, FolderStatus, Status};
use pb_command::UsageFault;
use pb_election::{Sink, put};
use std::io::Write;

/// How a run of the program ends.
#[derive(Drop)]
pub enum End {
    /// An answer was written, and ends so.
    Answered(Status),
    /// The report on a folder was written, and ends so.
    Reported(FolderStatus),
    /// The arguments ask for this text.
    Help(String),
    /// The arguments are not understood, as this text says.
    Usage(String),
    /// An argument is not UTF-8.
    NotText,
    /// An answer was not written whole.
    Faulted(Fault),
}

impl From<UsageFault> for End {
    ghost use Rattle.std.specs.Prelude.{◌≡◌};
    ghost use Rattle.pb_run.specs.Endings.{end_on};

    ghost from_gives = { λ fault end. end ≡ end_on fault };

    fn from(fault: UsageFault) -> End {
        match fault {
            UsageFault::Help(text) => End::Help(text),
            UsageFault::Usage(text) => End::Usage(text),
            UsageFault::Memory => End::Faulted(Fault::Memory),
        }
    }
}

impl End {
    /// The exit status, once help is written on `out`, or what went wrong on `err`. What `err` does not take is lost.
    pub fn tell<W: Sink, E: Write>(&self, out: &mut W, err: &mut E) -> u8
        ensures status { HasStatus self.now result }
        ensures printed { WritesNothingUnlessHelp self.now out.old out.new }
    {
        match self {
            End::Answered(Status::Yes) => 0,
            End::Answered(Status::No(_)) => 1,
            End::Answered(Status::Refused(_)) => 2,
            End::Reported(FolderStatus::AllYes) => 0,
            End::Reported(FolderStatus::SomeNo) => 1,
            End::Reported(FolderStatus::SomeRefused) => 2,
            End::Help(text) => match put(text.as_bytes(), out) {
                Ok(()) => 0,
                Err(fault) => tell_fault(Fault::from(fault), err),
            },
            End::Usage(text) => tell_usage(text, err),
            End::NotText => tell_usage("error: an argument is not UTF-8\n", err),
            End::Faulted(fault) => tell_fault(*fault, err),
        }
    }
}

fn tell_usage<E: Write>(text: &str, err: &mut E) -> u8
    ensures { result ≡ 3 }
{
    tell_seen(err, text);
    3
}

fn tell_fault<E: Write>(fault: Fault, err: &mut E) -> u8
    ensures { result ≡ 4 }
{
    let _ = writeln!(err, "{fault}");
    4
}
