ghost use Rattle.std.specs.Prelude.{◌≡◌, ◌<◌, length, is_ok, if◌then◌else◌, None, IfOk};
ghost use Rattle.std.specs.Io.{ReadsAtMost, WritesAtMost};
ghost use Rattle.std.specs.Io.KnownBytes.{ReadConsumes, WriteAppends};
ghost use Rattle.calc_edges.specs.Faults.{counted, no_failures};
ghost use Rattle.calc_edges.specs.StdEdges.{reader_of, read_faults, writer_of, write_faults};

use crate::{Failed, Failures, Sink, Source};
use std::io::{Read, Write};

/// A source over a reader of std. It tells the bytes that the reader has left, where the reader says.
/// Each error of the reader is a failure, also an interrupted read.
#[derive(Debug, Drop)]
pub struct StdSource<R> {
    reader: R,
    faults: Failures,
}

impl<R: Read> StdSource<R> {
    pub fn new(reader: R) -> StdSource<R>
        ensures reader { reader_of result ≡ reader }
        ensures faults { read_faults result ≡ no_failures }
    {
        StdSource {
            reader,
            faults: Failures::new(),
        }
    }
}

impl<R: Read> Source for StdSource<R> {
    ghost told = { λ s. record { given = None; left = R.remaining (reader_of s) } };

    ghost faults = { read_faults };

    fn read(&mut self, into: &mut [u8]) -> Result<usize, Failed>
        ensures bound { ReadsAtMost result into.new }
        ensures bytes { ReadConsumes (R.remaining (reader_of self.old))
            (R.remaining (reader_of self.new)) result into.new }
        ensures counted { read_faults self.new ≡ counted result (read_faults self.old) }
    {
        match self.reader.read(into) {
            Ok(count) => {
                self.faults.pass();
                Ok(count)
            }
            Err(_) => {
                self.faults.fail();
                Err(Failed)
            }
        }
    }
}

/// A sink over a writer of std. It tells the bytes that the writer holds, where the writer says.
/// Each error of the writer is a failure, and so is a write of some bytes that takes none.
#[derive(Debug, Drop)]
pub struct StdSink<W> {
    writer: W,
    faults: Failures,
}

impl<W: Write> StdSink<W> {
    pub fn new(writer: W) -> StdSink<W>
        ensures writer { writer_of result ≡ writer }
        ensures faults { write_faults result ≡ no_failures }
    {
        StdSink {
            writer,
            faults: Failures::new(),
        }
    }
}

impl<W: Write> Sink for StdSink<W> {
    ghost taken = { λ s. W.contents (writer_of s) };

    ghost faults = { write_faults };

    fn write(&mut self, from: &[u8]) -> Result<usize, Failed>
        ensures bound { WritesAtMost result from.now }
        ensures progress { IfOk result (λ n. 0 < length from.now → 0 < n) }
        ensures bytes { WriteAppends (W.contents (writer_of self.old))
            (W.contents (writer_of self.new)) result from.now }
        ensures counted { write_faults self.new ≡ counted result (write_faults self.old) }
    {
        match self.writer.write(from) {
            Ok(count) if count > 0 || from.is_empty() => {
                self.faults.pass();
                Ok(count)
            }
            _ => {
                self.faults.fail();
                Err(Failed)
            }
        }
    }
}
