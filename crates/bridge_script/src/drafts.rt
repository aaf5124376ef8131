// A text that is taken piece by piece, and read line by line: of what was taken only the bytes of a line that isn't
// whole are held.

ghost use Rattle.std.specs.Prelude.{◌≡◌, ◌≢◌, ◌+◌, ◌≤◌, ◌++◌, ◌∷◌, [], ℕ, List, All, MatchOption, IfErr, OnOk, IfOk};
ghost use Rattle.std.specs.Prelude.{length};
ghost use Rattle.bridge_script.specs.declared.faults.ScriptError.TheVariants.{OutOfMemory};
ghost use Rattle.bridge_script.specs.Answers.{IsRefusal};
ghost use Rattle.bridge_script.specs.Scripts.{IsText, script_text_of};
ghost use Rattle.bridge_script.specs.Steps.{CutsLine, StopsWithin, taken};

use crate::faults::ScriptError;
use crate::lines::read_line;
use crate::repeats::Repeats;
use crate::scripts::Script;
use std::alloc::Global;
use std::marker::Model;
use text_words::{Stretch, first_place_far};

/// What was taken of a text: the script that its whole lines are, and the bytes behind them, of a line whose newline
/// wasn't taken yet.
#[derive(Drop)]
pub(crate) struct Draft {
    script: Script,
    repeats: Repeats,
    // How many bytes the whole lines have.
    end: usize,
    held: Vec<u8>,
}

impl Model for Draft {
    ghost use Rattle.std.specs.Prelude.{◌≡◌, ◌≢◌, ◌≤◌, All, length};
    ghost use Rattle.bridge_script.specs.Scripts.{script_text_of};
    ghost use Rattle.bridge_script.specs.Steps.{Taken};

    ghost Value = { Taken };

    ghost view = { λ d. record { script = d.script; held = d.held.items } };

    ghost invariant = { λ d. (d.end ≡ length (script_text_of d.script))
        × ((d.end ≤ 8388608) × All (λ b. b ≢ 10) d.held.items) };
}

impl Draft {
    /// Nothing was taken.
    pub(crate) fn new(alloc: Global) -> Draft
        ensures { taken result ≡ [] }
    {
        Draft {
            script: Script::new(alloc),
            repeats: Repeats::new(),
            end: 0,
            held: Vec::new(alloc),
        }
    }

    /// Takes a further piece. `Refused` where a line that it ends is the first that no script goes on with, and
    /// `OutOfMemory` where there is no memory for its lines.
    pub(crate) fn take(&mut self, piece: &[u8]) -> Result<(), ScriptError>
        ensures ok { OnOk result (taken self.new ≡ taken self.old ++ piece.now) }
        ensures err { IfErr result (λ error. StopsWithin (taken self.old ++ piece.now) error) }
    {
        let Some(n) = line_end(piece) else {
            return self.hold(piece);
        };
        self.hold(&piece[..n])?;
        self.end_line()?;
        self.read_lines(&piece[n + 1..])
    }

    // Holds bytes of a line that isn't whole.
    fn hold(&mut self, bytes: &[u8]) -> Result<(), ScriptError>
        requires { All (λ b. b ≢ 10) bytes.now }
        ensures ok { OnOk result (self.new ≡ record self.old { held = self.old.held ++ bytes.now }) }
        ensures err { IfErr result (λ error. error ≡ OutOfMemory) }
    {
        match self.held.extend_from_slice(bytes) {
            Ok(()) => Ok(()),
            Err(_) => Err(ScriptError::OutOfMemory),
        }
    }

    // Reads the line that is held, whose newline comes.
    fn end_line(&mut self) -> Result<(), ScriptError>
        ensures text { OnOk result (script_text_of self.new.script ≡ taken self.old ++ 10 ∷ []) }
        ensures held { OnOk result (self.new.held ≡ []) }
        ensures err { IfErr result (λ error. (rest : List ℕ) → StopsWithin (taken self.old ++ 10 ∷ rest) error) }
    {
        let n = self.held.len();
        let end = self.end + n + 1;
        go_on(
            &mut self.script,
            &mut self.repeats,
            Stretch::of(&self.held, n),
            end,
        )?;
        self.end = end;
        self.held.clear();
        Ok(())
    }

    // Reads the lines that are whole in these bytes, and holds what is left of them.
    fn read_lines(&mut self, bytes: &[u8]) -> Result<(), ScriptError>
        requires { self.old.held ≡ [] }
        ensures ok { OnOk result (taken self.new ≡ taken self.old ++ bytes.now) }
        ensures err { IfErr result (λ error. StopsWithin (taken self.old ++ bytes.now) error) }
    {
        let mut left = bytes;
        while let Some(n) = line_end(left) {
            let end = self.end + n + 1;
            go_on(
                &mut self.script,
                &mut self.repeats,
                Stretch::of(left, n),
                end,
            )?;
            self.end = end;
            left = &left[n + 1..];
        }
        self.hold(left)
    }

    /// The script that has the text that was taken. `Refused` where none has, and `OutOfMemory` where there is no memory
    /// for its last line.
    pub(crate) fn finish(self) -> Result<Script, ScriptError>
        ensures ok { IfOk result (λ script. IsText (taken self) script) }
        ensures err { IfErr result (λ error. IsRefusal (taken self) error) }
    {
        let Draft {
            mut script,
            end,
            held,
            ..
        } = self;
        let n = held.len();
        if n == 0 {
            return Ok(script);
        }
        script.grow(read_line(Stretch::of(&held, n)), end + n)?;
        Ok(script)
    }
}

// Goes on with the line that has this text and a newline, of which `end` is the number of bytes up to its end.
#[inline(always)]
fn go_on(
    script: &mut Script,
    repeats: &mut Repeats,
    text: Stretch,
    end: usize,
) -> Result<(), ScriptError>
    requires free { All (λ b. b ≢ 10) text }
    requires end { end ≡ length (script_text_of script.old) + length text + 1 }
    requires size { length (script_text_of script.old) ≤ 8388608 }
    ensures text { OnOk result (script_text_of script.new ≡ script_text_of script.old ++ (text.entry ++ 10 ∷ [])) }
    ensures size { OnOk result (end ≤ 8388608) }
    ensures err { IfErr result (λ error. (rest : List ℕ)
        → StopsWithin (script_text_of script.old ++ (text.entry ++ 10 ∷ rest)) error) }
    ensures kept { IfErr result (λ error. script.new ≡ script.old) }
{
    let read = repeats.read(text);
    script.grow(read, end)
}

// The place of the first newline; None where there is none.
#[inline(always)]
fn line_end(bytes: &[u8]) -> Option<usize>
    ensures { MatchOption result (All (λ b. b ≢ 10) bytes.now) (CutsLine bytes.now) }
{
    let n = first_place_far(bytes, b'\n');
    if n < bytes.len() { Some(n) } else { None }
}
