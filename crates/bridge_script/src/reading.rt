// Reading a script from a source.

ghost use Rattle.std.specs.Prelude.{◌≡◌, ◌≤◌, List, ℕ, Option, length, IfOk, IfErr};
ghost use Rattle.std.specs.Io.KnownBytes.{Consumes};
ghost use Rattle.bridge_script.specs.Reading.{TookScript};
ghost use Rattle.bridge_script.specs.Answers.{IsNoScript};
ghost use Rattle.bridge_script.specs.Steps.{StopsWithin};

use crate::drafts::Draft;
use crate::faults::ScriptError;
use crate::scripts::{MOST_BYTES, Script};
use byte_streams::{ReadError, Source, read_up_to};
use std::alloc::Global;

// How many bytes are asked for in one call.
const PIECE: usize = 16_384;

// What is answered where a line is the first that no script goes on with, and so many bytes were taken: what is left of
// the text is taken too.
#[inline(never)]
fn refuse<S: Source>(alloc: Global, src: &mut S, count: usize, error: ScriptError) -> ScriptError
    requires { count ≤ 8388609 }
    ensures none { (left : Option (List ℕ)) (input : List ℕ) (before : ℕ) → Consumes left (S.left src.old) input
        → length input ≡ count → before ≤ S.faults src.old → StopsWithin input error
        → IsNoScript left (S.left src.new) before (S.faults src.new) result }
    ensures later { S.faults src.old ≤ S.faults src.new }
{
    if count > MOST_BYTES {
        return error;
    }
    match read_up_to(alloc, src, MOST_BYTES - count) {
        Ok(_) => return error,
        Err(ReadError::OutOfMemory) => return ScriptError::OutOfMemory,
        Err(ReadError::Failed) => return ScriptError::ReadFault,
    }
}

/// Reads a script from a source, which may give its bytes in whatever pieces. The source is read until its
/// end, or until 8,388,609 bytes were taken, and no further. Its bytes are let go as their lines are read.
///
/// `ReadFault` only where the source's count of faults rose. `OutOfMemory` where there is no memory. Every
/// other answer is what [`parse`](crate::parse) gives of the bytes that were taken.
pub fn read_script<S: Source>(alloc: Global, src: &mut S) -> Result<Script, ScriptError>
    ensures ok { IfOk result (λ script. TookScript (S.left src.old) (S.left src.new) script) }
    ensures err { IfErr result (λ error. IsNoScript (S.left src.old)
        (S.left src.new) (S.faults src.old) (S.faults src.new) error) }
    ensures later { S.faults src.old ≤ S.faults src.new }
{
    let mut draft = Draft::new(alloc);
    let mut buf = [0u8; PIECE];
    let mut count = 0;
    while count <= MOST_BYTES {
        let room = (MOST_BYTES + 1 - count).min(PIECE);
        match src.read(&mut buf[..room]) {
            Ok(0) => return draft.finish(),
            Ok(n) => {
                count += n;
                if let Err(error) = draft.take(&buf[..n]) {
                    return Err(refuse(alloc, src, count, error));
                }
            }
            Err(_) => return Err(ScriptError::ReadFault),
        }
    }
    draft.finish()
}
