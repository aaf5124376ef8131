// Lines that were read, by their texts.
//
// A script mostly has few different lines, some tens. So the lines that were read last are kept with their texts, each
// where its text's mark says, and a line whose text is seen there is the same line: it isn't read once more.

ghost use Rattle.std.specs.Prelude.{◌≡◌, ◌<◌, IfSome};
ghost use Rattle.bridge_script.specs.Scripts.{IsScriptLine};
ghost use Rattle.bridge_script.specs.Words.{line_text};
ghost use Rattle.bridge_script.specs.Steps.{ReadsLine};

use crate::faults::Cause;
use crate::lines::read_line;
use joint_model::{Act, Thread};
use std::marker::Model;
use text_words::Stretch;

// How many lines are kept: one for each mark.
const MARKS: usize = 512;

// The most bytes of a line that is kept: no line of a script with short numbers has more.
const LONGEST: usize = 40;

// A line, and its text in the front of these bytes.
#[derive(Clone, Copy)]
struct Kept {
    text: [u8; 40],
    len: usize,
    line: (Thread, Act),
}

/// The lines that were read last.
#[derive(Drop)]
pub struct Repeats {
    kept: [Option<Kept>; 512],
}

impl Model for Repeats {
    ghost use Rattle.std.specs.Prelude.{All};
    ghost use Rattle.bridge_script.specs.Repeats.{HasItsText};

    ghost Value = { Unit {0} };

    ghost view = { λ _. tt };

    ghost invariant = { λ r. All HasItsText r.kept };
}

impl Repeats {
    /// None.
    pub fn new() -> Repeats {
        Repeats {
            kept: [None; MARKS],
        }
    }

    /// Reads the line that has this text.
    #[inline(always)]
    pub fn read(&mut self, text: Stretch) -> Result<(Thread, Act), Cause>
        ensures { ReadsLine text.entry result }
    {
        let mark = text.mark();
        if let Some(line) = self.line_at(mark, &text) {
            return Ok(line);
        }
        self.read_new(mark, text)
    }

    // The line that is kept at a mark, where it is seen to have this text.
    #[inline(always)]
    fn line_at(&self, mark: usize, text: &Stretch) -> Option<(Thread, Act)>
        requires { mark < 512 }
        ensures { IfSome result (λ line. IsScriptLine line × (line_text line ≡ text.now)) }
    {
        let kept = self.kept[mark]?;
        if text.is_seen_same(&Stretch::of(&kept.text, kept.len)) {
            Some(kept.line)
        } else {
            None
        }
    }

    // Reads the line that has this text, and keeps it at the mark, if it isn't long.
    #[inline(never)]
    fn read_new(&mut self, mark: usize, text: Stretch) -> Result<(Thread, Act), Cause>
        requires { mark < 512 }
        ensures { ReadsLine text.entry result }
    {
        let len = text.len();
        if len > LONGEST {
            return read_line(text);
        }
        let mut bytes = [0; LONGEST];
        bytes[..len].copy_from_slice(text.front(len));
        let line = match read_line(text) {
            Ok(line) => line,
            Err(cause) => return Err(cause),
        };
        self.kept[mark] = Some(Kept {
            text: bytes,
            len,
            line,
        });
        Ok(line)
    }
}
