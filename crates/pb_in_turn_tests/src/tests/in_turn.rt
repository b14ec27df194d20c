//! Each command once whole, and each of its reads and writes made to fail one after the other.
use super::commands::{COMMANDS, Command};
use pb_audit::{Fault, Format, InputFault, InputName, InputRefusal, Status};
use pb_election::Output;
use pb_samples::fakes::{InterruptedReader, Lapse, LapsingWriter};
use std::alloc::Global;
use std::test::Fail;

/// What a reader gives at most at a time.
const PIECE: usize = 16;

/// What was written, how it ended, and how often each input was read.
type Ran = (Vec<u8>, Status, [usize; 4]);

/// A command on its texts, where each input gives so much at a time, and is interrupted at the read of this number.
fn ran(alloc: Global, command: Command, piece: usize, at: [usize; 4]) -> Result<Ran, Fail> {
    let [election, outcome, first, second] = command.texts();
    let mut election = InterruptedReader::new(election, piece, at[0]);
    let mut outcome = InterruptedReader::new(outcome, piece, at[1]);
    let mut first = InterruptedReader::new(first, piece, at[2]);
    let mut second = InterruptedReader::new(second, piece, at[3]);
    let mut written = Vec::new(alloc);
    let inputs = (&mut election, &mut outcome, &mut first, &mut second);
    let status = command.run(alloc, inputs, &mut Output::new(&mut written))?;
    let reads = [election.reads, outcome.reads, first.reads, second.reads];
    Ok((written, status, reads))
}

/// How many pieces of this size so many bytes come in.
fn pieces(bytes: usize, piece: usize) -> usize {
    if piece == 0 { 0 } else { bytes.div_ceil(piece) }
}

/// How many reads take each input, the last of which finds its end.
fn reads(command: Command, piece: usize) -> [usize; 4] {
    let mut reads = [0; 4];
    for (count, text) in reads.iter_mut().zip(command.texts()) {
        if !text.is_empty() {
            *count = pieces(text.len(), piece).saturating_add(1);
        }
    }
    reads
}

/// However little a read gives, it is no end before the end.
#[test]
fn each_command_answers(rt: HostRuntime) -> Result<(), Fail> {
    for command in COMMANDS {
        for piece in [1, PIECE] {
            let (written, status, counted) = ran(rt.alloc(), command, piece, [0; 4])?;
            assert!(rt;
                written.as_slice() == command.answer().as_bytes(),
                "{command:?}"
            );
            assert_eq!(rt;
                (status, counted),
                (command.status(), reads(command, piece))
            );
        }
    }
    Ok(())
}

#[test]
fn each_answer_in_memory_is_what_is_written(rt: HostRuntime) -> Result<(), Fail> {
    for command in COMMANDS {
        if let Some(answer) = command.answer_in_memory(rt.alloc(), Format::Lines)? {
            assert!(rt;
                answer.text.as_slice() == command.answer().as_bytes(),
                "{command:?}"
            );
            assert_eq!(rt; answer.status, command.status());
        }
    }
    Ok(())
}

#[test]
fn each_object_ends_as_the_lines_do(rt: HostRuntime) -> Result<(), Fail> {
    for command in COMMANDS {
        if let Some(answer) = command.answer_in_memory(rt.alloc(), Format::Json)? {
            assert_eq!(rt; answer.status, command.status());
            let object = command.object();
            assert!(rt;
                answer.text.as_slice().starts_with(object.as_bytes()),
                "{command:?}"
            );
        }
    }
    Ok(())
}

/// A command whose inputs are interrupted at the reads of these numbers is to refuse the input of this name, and to
/// have read each of them so often.
fn expect_refused(
    rt: &HostRuntime,
    command: Command,
    at: [usize; 4],
    input: InputName,
    wanted: [usize; 4],
) -> Result<(), Fail> {
    let want = format!(in rt.alloc(); "refused {} 18 Read record 0\n", input.name())?;
    let (written, status, reads) = ran(rt.alloc(), command, PIECE, at)?;
    let fault = InputFault::Unread;
    if written.as_slice() == want.as_bytes()
        && status == Status::Refused(InputRefusal { input, fault })
        && reads == wanted
    {
        return Ok(());
    }
    Err(Fail::new(format_args!("{command:?} {at:?} {reads:?}, wanted {wanted:?}")))
}

/// The input whose read fails is refused. Those before it were read to their ends, and those after it not at all.
#[test]
fn each_read_fails_in_turn(rt: HostRuntime) -> Result<(), Fail> {
    for command in COMMANDS {
        let certificate = match command {
            Command::Both => InputName::Prices,
            _ => InputName::Certificate,
        };
        let [election, outcome, first, second] = reads(command, PIECE);
        for at in 1..=election {
            expect_refused(
                &rt,
                command,
                [at, 0, 0, 0],
                InputName::Election,
                [at, 0, 0, 0],
            )?;
        }
        for at in 1..=outcome {
            let reads = [election, at, 0, 0];
            expect_refused(&rt, command, [0, at, 0, 0], InputName::Outcome, reads)?;
        }
        for at in 1..=first {
            let reads = [election, outcome, at, 0];
            expect_refused(&rt, command, [0, 0, at, 0], certificate, reads)?;
        }
        for at in 1..=second {
            let reads = [election, outcome, first, at];
            expect_refused(&rt, command, [0, 0, 0, at], InputName::Violation, reads)?;
        }
    }
    Ok(())
}

/// How a command ends on its texts, and the writer, which takes so much at a time.
fn written(
    alloc: Global,
    command: Command,
    piece: usize,
    lapse: Lapse,
) -> (Result<Status, Fault>, LapsingWriter) {
    let [election, outcome, first, second] = command.texts();
    let mut writer = LapsingWriter::new(alloc, piece, lapse);
    let inputs = (
        election.as_bytes(),
        outcome.as_bytes(),
        first.as_bytes(),
        second.as_bytes(),
    );
    let ending = command.run(alloc, inputs, &mut Output::new(&mut writer));
    (ending, writer)
}

/// A command is to end with a fault at the write of this number, and to have written what was taken before.
fn expect_front(
    rt: &HostRuntime,
    command: Command,
    piece: usize,
    at: usize,
    lapse: Lapse,
) -> Result<(), Fail> {
    let (ending, writer) = written(rt.alloc(), command, piece, lapse);
    let before = at.saturating_sub(1).saturating_mul(piece);
    if ending == Err(Fault::Write)
        && writer.written.len() == before
        && command.answer().as_bytes().starts_with(&writer.written)
        && (writer.writes, writer.flushes) == (at, 0)
    {
        return Ok(());
    }
    Err(Fail::new(format_args!("{command:?} {piece} {at}")))
}

/// A write that takes no byte, or is interrupted, ends the run with what was written before, and nothing is tried again;
/// and so does one that fails.
#[test]
fn each_write_fails_in_turn(rt: HostRuntime) -> Result<(), Fail> {
    for command in COMMANDS {
        for piece in [1, 7, 1000] {
            for at in 1..=command.answer().len().div_ceil(piece) {
                for lapse in [Lapse::TakesNone(at), Lapse::Interrupted(at)] {
                    expect_front(&rt, command, piece, at, lapse)?;
                }
            }
        }
    }
    expect_front(&rt, Command::Read, 5, 2, Lapse::Fails(2))
}

/// A command is to write its whole text, to flush once, and to end like this.
fn expect_whole(
    rt: &HostRuntime,
    command: Command,
    piece: usize,
    lapse: Lapse,
    want: Result<Status, Fault>,
) -> Result<(), Fail> {
    let (ending, writer) = written(rt.alloc(), command, piece, lapse);
    let writes = pieces(command.answer().len(), piece);
    if ending == want
        && writer.written.as_slice() == command.answer().as_bytes()
        && (writer.writes, writer.flushes) == (writes, 1)
    {
        return Ok(());
    }
    Err(Fail::new(format_args!("{command:?} {piece}")))
}

/// However little a write takes, the whole text is written, and then flushed once. A flush that fails is a fault
/// though.
#[test]
fn flush_fails_once_all_is_written(rt: HostRuntime) -> Result<(), Fail> {
    for command in COMMANDS {
        for piece in [1, 7, 1000] {
            expect_whole(&rt, command, piece, Lapse::Fails(0), Ok(command.status()))?;
            expect_whole(&rt, command, piece, Lapse::Unflushed, Err(Fault::Write))?;
        }
    }
    Ok(())
}
