//! Readers and writers whose calls and failures are counted, loading, and writing out.
ghost use Rattle.std.specs.Prelude.{◌≡◌, ◌≤◌, ◌+◌, ℕ, List, Option, IfOk, OnOk, OnErr, IsErrOf, length};
ghost use Rattle.std.specs.Io.{ReadsAtMost, WritesAtMost};
ghost use Rattle.std.specs.Io.KnownBytes.{Appends, Keeps, ReadConsumes, WriteAppends};
ghost use Rattle.pb_records.specs.Loading.{AppendsFront, Delivered, IsFlushed, PutsSparingly, ReadCounts, Rises, WriteCounts, after_flush, after_read, after_write, no_reads, no_writes};
ghost use Rattle.pb_records.specs.Loading as delivery;

use std::alloc::Global;
use std::io;
use std::io::{Read, Write};

/// Why a text was not loaded.
#[derive(Clone, Copy, Debug, PartialEq, Eq)]
pub enum LoadFault {
    /// Out of memory.
    Memory,
    /// The reader answered an error.
    Read,
    /// The reader gave more bytes than are allowed.
    TooLong,
}

/// Why a text was not written out whole.
#[derive(Clone, Copy, Debug, PartialEq, Eq)]
pub enum PutFault {
    /// The writer answered an error, or took no byte of a text that is not empty.
    Write,
}

/// A reader, as std's `Read`, whose calls and failures are counted. A failure is an answered error, `Interrupted` among
/// them. A count is a `u64` that stays at its greatest value.
pub trait Source {
    // The bytes that are left, where the reader tells them.
    ghost left: { Self → Option (List ℕ) };

    ghost counts: { Self → ReadCounts };

    /// Reads some bytes into the front of `buf` and answers how many; 0 is the end, unless `buf` is empty.
    fn read(&mut self, buf: &mut [u8]) -> io::Result<usize>
        ensures bound { ReadsAtMost result buf.new }
        ensures bytes { ReadConsumes (left self.old) (left self.new) result buf.new }
        ensures counts { counts self.new ≡ after_read result (counts self.old) };
}

/// A writer, as std's `Write`, whose calls and failures are counted. A failure is an answered error, and a write that
/// takes no byte of a text that is not empty. A count is a `u64` that stays at its greatest value.
pub trait Sink {
    // The bytes that were written, where the writer tells them.
    ghost holds: { Self → Option (List ℕ) };

    ghost counts: { Self → WriteCounts };

    /// Writes some bytes from the front of `text` and answers how many.
    fn write(&mut self, text: &[u8]) -> io::Result<usize>
        ensures bound { WritesAtMost result text.now }
        ensures bytes { WriteAppends (holds self.old) (holds self.new) result text.now }
        ensures counts { counts self.new ≡ after_write result text.now (counts self.old) };

    /// Passes on what the writer still keeps in memory.
    fn flush(&mut self) -> io::Result<()>
        ensures bytes { Keeps (holds self.old) (holds self.new) }
        ensures counts { counts self.new ≡ after_flush result (counts self.old) };
}

/// Any reader, with its calls and failures counted. It answers what the reader answers. The counts are proved; that
/// each answer is handed on as it stands, an interruption too, is tested.
pub struct Input<R: Read> {
    reader: R,
    reads: u64,
    failures: u64,
}

impl<R: Read + Drop> Drop for Input<R> {
    fn drop(self) {
        let Input {
            reader: _,
            reads: _,
            failures: _,
        } = self;
    }
}

impl<R: Read> Input<R> {
    /// The reader with nothing counted yet.
    pub fn new(reader: R) -> Input<R>
        ensures bytes { ⟦<Input<R> as Source>⟧.left result ≡ R.remaining reader }
        ensures counts { ⟦<Input<R> as Source>⟧.counts result ≡ no_reads }
    {
        Input {
            reader,
            reads: 0,
            failures: 0,
        }
    }
}

impl<R: Read> Source for Input<R> {
    ghost left = { λ s. R.remaining s.reader };

    ghost counts = { λ s. record { reads = s.reads; failures = s.failures } };

    fn read(&mut self, buf: &mut [u8]) -> io::Result<usize> {
        self.reads = self.reads.saturating_add(1);
        let answer = self.reader.read(buf);
        if answer.is_err() {
            self.failures = self.failures.saturating_add(1);
        }
        answer
    }
}

/// Any writer, with its calls and failures counted. It answers what the writer answers. The counts are proved; that
/// each answer is handed on as it stands is tested.
pub struct Output<W: Write> {
    writer: W,
    writes: u64,
    failures: u64,
    flushes: u64,
    // How many writes had been counted at the last flush.
    flushed_at: u64,
}

impl<W: Write + Drop> Drop for Output<W> {
    fn drop(self) {
        let Output {
            writer: _,
            writes: _,
            failures: _,
            flushes: _,
            flushed_at: _,
        } = self;
    }
}

impl<W: Write> Output<W> {
    /// The writer with nothing counted yet.
    pub fn new(writer: W) -> Output<W>
        ensures bytes { ⟦<Output<W> as Sink>⟧.holds result ≡ W.contents writer }
        ensures counts { ⟦<Output<W> as Sink>⟧.counts result ≡ no_writes }
    {
        Output {
            writer,
            writes: 0,
            failures: 0,
            flushes: 0,
            flushed_at: 0,
        }
    }
}

impl<W: Write> Sink for Output<W> {
    ghost holds = { λ s. W.contents s.writer };

    ghost counts = { λ s. record { writes = s.writes; failures = s.failures; flushes = s.flushes; flushed_at = s.flushed_at } };

    fn write(&mut self, text: &[u8]) -> io::Result<usize> {
        self.writes = self.writes.saturating_add(1);
        let answer = self.writer.write(text);
        let failed = match &answer {
            Ok(taken) => *taken == 0 && !text.is_empty(),
            Err(_) => true,
        };
        if failed {
            self.failures = self.failures.saturating_add(1);
        }
        answer
    }

    fn flush(&mut self) -> io::Result<()> {
        self.flushed_at = self.writes;
        self.flushes = self.flushes.saturating_add(1);
        let answer = self.writer.flush();
        if answer.is_err() {
            self.failures = self.failures.saturating_add(1);
        }
        answer
    }
}

// How many bytes are asked for at a time.
const CHUNK: usize = 65536;

// How much room there is at first. The C library's allocator gives so much room pages of its own, which cost nothing
// until they are written, and gives them back to the system when the bytes are let go. With less it would keep them.
const ROOM: usize = 33 * 1024 * 1024;

/// All bytes up to the end, if they are at most `most`, by at most `most + 1` reads. `Read` comes at the first error of
/// the reader, and `TooLong` where it gave more bytes. `Memory` comes only after a failed allocation, which is tested
/// and not proved.
pub fn load<R: Source>(alloc: Global, source: &mut R, most: usize) -> Result<Vec<u8>, LoadFault>
    ensures bytes { IfOk result (λ v. Delivered (R.left source.old) (R.counts source.old) (R.counts source.new) most (delivery.Bytes v.items)) }
    ensures read { IsErrOf result LoadFault.Read → Delivered (R.left source.old) (R.counts source.old) (R.counts source.new) most delivery.Read }
    ensures too_long { IsErrOf result LoadFault.TooLong → Delivered (R.left source.old) (R.counts source.old) (R.counts source.new) most delivery.TooLong }
    ensures memory { IsErrOf result LoadFault.Memory → (R.counts source.new).failures ≡ (R.counts source.old).failures }
    ensures reads { (R.counts source.new).reads ≤ (R.counts source.old).reads + most + 1 }
{
    let Ok(mut bytes) = Vec::with_capacity(alloc, ROOM) else {
        return Err(LoadFault::Memory);
    };
    let mut chunk = [0u8; CHUNK];
    loop {
        let Ok(count) = source.read(&mut chunk) else {
            return Err(LoadFault::Read);
        };
        if count == 0 {
            return Ok(bytes);
        }
        if count > most - bytes.len() {
            return Err(LoadFault::TooLong);
        }
        if bytes.extend_from_slice(&chunk[..count]).is_err() {
            return Err(LoadFault::Memory);
        }
    }
}

/// Writes all bytes, by at most as many writes as there are bytes, and then flushes once. After `Write` a front of the
/// bytes was written: the writer answered an error, or took no byte of the rest.
pub fn put<W: Sink>(bytes: &[u8], sink: &mut W) -> Result<(), PutFault>
    ensures all { OnOk result (Appends (W.holds sink.old) (W.holds sink.new) bytes.now) }
    ensures flushed { OnOk result (IsFlushed (W.counts sink.old) (W.counts sink.new)) }
    ensures calm { OnOk result ((W.counts sink.new).failures ≡ (W.counts sink.old).failures) }
    ensures front { OnErr result (AppendsFront (W.holds sink.old) (W.holds sink.new) bytes.now) }
    ensures failed { OnErr result (Rises (W.counts sink.old).failures (W.counts sink.new).failures) }
    ensures calls { PutsSparingly (W.counts sink.old) (W.counts sink.new) (length bytes.now) }
{
    let mut rest = bytes;
    while !rest.is_empty() {
        match sink.write(rest) {
            Ok(taken) if taken > 0 => rest = &rest[taken..],
            _ => return Err(PutFault::Write),
        }
    }
    match sink.flush() {
        Ok(()) => Ok(()),
        Err(_) => Err(PutFault::Write),
    }
}
