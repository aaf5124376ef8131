// All that a source has, up to a limit.

ghost use Rattle.std.specs.Prelude.{◌≡◌, ◌+◌, ◌^◌, ◌<◌, ◌≤◌, [], IfOk, IfErr};
ghost use Rattle.byte_streams.specs.Reading.{Took};
ghost use Rattle.byte_streams.specs.ReadErrors.{IsReadError};

use crate::streams::Source;
use std::alloc::{AllocError, Global};

// How many bytes are asked for in one call.
const PIECE: usize = 16_384;

// For so many bytes room is taken at first, where there is memory for it: most texts have fewer.
const ROOM: usize = 1_048_576;

/// Why a source gave no bytes: there was no memory for them, or a read of it failed.
#[derive(Clone, Copy, PartialEq, Eq, Debug)]
pub enum ReadError {
    OutOfMemory,
    Failed,
}

impl From<AllocError> for ReadError {
    ghost use Rattle.byte_streams.specs.declared.reading.ReadError.TheVariants as error;

    ghost from_gives = { λ _ e. e ≡ error.OutOfMemory };

    fn from(_error: AllocError) -> ReadError {
        ReadError::OutOfMemory
    }
}

// An empty list, with that room where there is memory for it.
fn empty(alloc: Global) -> Vec<u8>
    ensures { result.items ≡ [] }
{
    match Vec::with_capacity(alloc, ROOM) {
        Ok(bytes) => bytes,
        Err(_) => Vec::new(alloc),
    }
}

/// Takes bytes from a source, which may give them in whatever pieces: until its end, or until one byte more than `most`
/// was taken, and no further.
///
/// `Failed` only where the source's count of faults rose. `OutOfMemory` where there is no memory for the bytes.
pub fn read_up_to<S: Source>(alloc: Global, src: &mut S, most: usize) -> Result<Vec<u8>, ReadError>
    requires { most + 1 < 2 ^ 64 }
    ensures ok { IfOk result (λ bytes. Took most (S.left src.old) (S.left src.new) bytes.items) }
    ensures err { IfErr result (λ error. IsReadError (S.faults src.old) (S.faults src.new) error) }
    ensures later { S.faults src.old ≤ S.faults src.new }
{
    let mut bytes = empty(alloc);
    let mut buf = [0u8; PIECE];
    while bytes.len() <= most {
        let room = (most + 1 - bytes.len()).min(PIECE);
        match src.read(&mut buf[..room]) {
            Ok(0) => return Ok(bytes),
            Ok(n) => bytes.extend_from_slice(&buf[..n])?,
            Err(_) => return Err(ReadError::Failed),
        }
    }
    Ok(bytes)
}
