// A script printed back as its text.

ghost use Rattle.std.specs.Prelude.{◌≡◌, IfOk, string_bytes};
ghost use Rattle.bridge_script.specs.Scripts.{IsText, script_text_of};

use crate::acts::add_line;
use crate::scripts::Script;
use byte_streams::Line;
use std::alloc::{AllocError, Global};

/// The text of a script, each line with its newline. [`parse`](crate::parse) reads it as the same script. Answers
/// `AllocError` where there is no memory.
pub fn script_text(alloc: Global, s: &Script) -> Result<String, AllocError>
    ensures text { IfOk result (λ t. string_bytes t ≡ script_text_of s.now) }
    ensures reads { IfOk result (λ t. IsText (string_bytes t) s.now) }
{
    let mut bytes = Vec::new(alloc);
    let mut line = Line::new();
    for (thread, act) in s.lines() {
        line.clear();
        add_line(&mut line, *thread, act);
        line.text(b"\n");
        bytes.extend_from_slice(line.bytes())?;
    }
    match String::from_utf8(bytes) {
        Ok(text) => Ok(text),
        Err(_) => unreachable!(),
    }
}
