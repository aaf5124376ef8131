// Standard input and standard output as a source and a sink: the trusted edge. Each tells what its stream tells, so
// over a stream in memory every byte is pinned; the standard streams themselves tell none.

ghost use Rattle.std.specs.Prelude.{◌≡◌};

use byte_streams::{Failed, Sink, Source};
use std::io::{Read, Write};

/// Standard input, or any other reader, as a source. Its count of faults rises at each error. It tells the bytes
/// that its reader tells, which of standard input are none.
#[derive(Drop)]
pub struct StdSource<R: Read + Drop> {
    reader: R,
    faults: u64,
}

impl<R: Read + Drop> StdSource<R> {
    /// The source over a reader that hasn't failed yet.
    pub fn new(reader: R) -> StdSource<R>
        ensures bytes { R.remaining result.reader ≡ R.remaining reader }
        ensures faults { result.faults ≡ 0 }
    {
        StdSource { reader, faults: 0 }
    }
}

impl<R: Read + Drop> Source for StdSource<R> {
    ghost left = { λ s. R.remaining s.reader };

    ghost faults = { λ s. s.faults };

    fn read(&mut self, buf: &mut [u8]) -> Result<usize, Failed> {
        match self.reader.read(buf) {
            Ok(count) => Ok(count),
            Err(_) => {
                self.faults = self.faults.saturating_add(1);
                Err(Failed)
            }
        }
    }
}

/// Standard output, or any other writer, as a sink. Its count of faults rises at each error, and where no byte
/// of a piece was taken. It tells the bytes that its writer tells, which of standard output are none.
#[derive(Drop)]
pub struct StdSink<W: Write + Drop> {
    writer: W,
    faults: u64,
}

impl<W: Write + Drop> StdSink<W> {
    /// The sink over a writer that hasn't failed yet.
    pub fn new(writer: W) -> StdSink<W>
        ensures bytes { W.contents result.writer ≡ W.contents writer }
        ensures faults { result.faults ≡ 0 }
    {
        StdSink { writer, faults: 0 }
    }
}

impl<W: Write + Drop> Sink for StdSink<W> {
    ghost held = { λ s. W.contents s.writer };

    ghost faults = { λ s. s.faults };

    fn write(&mut self, piece: &[u8]) -> Result<usize, Failed> {
        match self.writer.write(piece) {
            Ok(count) if count > 0 || piece.is_empty() => Ok(count),
            _ => {
                self.faults = self.faults.saturating_add(1);
                Err(Failed)
            }
        }
    }
}
