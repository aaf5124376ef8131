// Where bytes come from and where they go: whoever calls gives the one and the other.

ghost use Rattle.std.specs.Prelude.{◌≡◌, ℕ, ◌<◌, ◌≤◌, List, Option, length, IfOk};
ghost use Rattle.std.specs.Io.{ReadsAtMost, WritesAtMost};
ghost use Rattle.std.specs.Io.KnownBytes.{ReadConsumes, WriteAppends};
ghost use Rattle.byte_streams.specs.Streams.{Writes};
ghost use Rattle.byte_streams.specs.Faults.{HasCause};

/// A read or a write failed: the count of faults of its source or sink rose.
#[derive(Clone, Copy, PartialEq, Eq, Debug)]
pub struct Failed;

/// Where bytes come from.
///
/// `left` are the bytes that are left, where the source tells them, and `faults` counts its faults.
pub trait Source {
    ghost left: { Self → Option (List ℕ) };

    ghost faults: { Self → ℕ };

    /// Takes the next bytes into the front of `buf` and answers how many. 0 for a buffer that isn't empty is
    /// the end of the input. [`Failed`] comes only where the count of faults rose, and then no byte is taken.
    fn read(&mut self, buf: &mut [u8]) -> Result<usize, Failed>
        ensures bound { ReadsAtMost result buf.new }
        ensures bytes { ReadConsumes (left self.old) (left self.new) result buf.new }
        ensures cause { HasCause (faults self.old) (faults self.new) result };
}

/// Where bytes go.
///
/// `held` are the bytes that it holds, where the sink tells them, and `faults` counts its faults.
pub trait Sink {
    ghost held: { Self → Option (List ℕ) };

    ghost faults: { Self → ℕ };

    /// Appends the first bytes of `piece` and answers how many, at least 1 of a piece that isn't empty.
    /// [`Failed`] comes only where the count of faults rose, and then nothing is appended.
    fn write(&mut self, piece: &[u8]) -> Result<usize, Failed>
        ensures bound { WritesAtMost result piece.now }
        ensures some { IfOk result (λ n. 0 < length piece.now → 0 < n) }
        ensures bytes { WriteAppends (held self.old) (held self.new) result piece.now }
        ensures cause { HasCause (faults self.old) (faults self.new) result };
}

/// Writes a whole text, in whatever portions the sink takes. [`Failed`] comes only where the sink's count of
/// faults rose; then a beginning of the text was written.
pub fn write_text<K: Sink>(out: &mut K, text: &[u8]) -> Result<(), Failed>
    ensures { Writes (K.held out.old) (K.held out.new) (K.faults out.old) (K.faults out.new) result text.now }
{
    let mut at = 0;
    while at < text.len() {
        at += out.write(&text[at..])?;
    }
    Ok(())
}
