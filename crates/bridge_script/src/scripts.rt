// A script: its lines, and which bytes are one.

ghost use Rattle.std.specs.Prelude.{◌≡◌, ℕ, List, ◌+◌, ◌≤◌, ◌<◌, ◌==◌, [], cond, slice_get, length, IfOk, IfErr};
ghost use Rattle.std.specs.Prelude.{IfSome, MatchResult};
ghost use Rattle.joint_machine.specs.Lines.{IsLine};
ghost use Rattle.bridge_script.specs.declared.faults.ScriptError.{ScriptError};
ghost use Rattle.bridge_script.specs.Scripts.{IsScript, IsScriptLine, IsText, cycles_of, is_cycle};
ghost use Rattle.bridge_script.specs.Answers.{IsRefusal, line_at};
ghost use Rattle.bridge_script.specs.Steps.{GainsLine, ReadsLine, Stops};

use crate::drafts::Draft;
use crate::faults::{Cause, ScriptError, ScriptFault};
use joint_model::{Act, PhaseWord, Thread, list_with_room};
use std::alloc::{AllocError, Global};
use std::marker::Model;

/// The most bytes of a script.
pub const MOST_BYTES: usize = 8_388_608;

/// The most lines of a script.
pub const MOST_LINES: usize = 20_000;

// The most lines `c cycle` and `c snap` of a script.
const MOST_CYCLES: usize = 256;

/// A script: a list of at most 20,000 lines, each a thread and what it is to do. Each line is an operation of its
/// thread, with each of its places within its limits, and at most 256 lines are `c cycle` or `c snap`.
#[derive(Drop)]
pub struct Script {
    lines: Vec<(Thread, Act)>,
    cycles: usize,
}

impl Model for Script {
    ghost use Rattle.std.specs.Prelude.{◌≡◌, List};
    ghost use Rattle.joint_machine.specs.declared.names.Thread.{Thread};
    ghost use Rattle.joint_machine.specs.declared.lines.Act.{Act};
    ghost use Rattle.bridge_script.specs.Scripts.{IsScript, cycles_of};

    ghost Value = { List (Thread × Act) };

    ghost view = { λ s. s.lines.items };

    ghost invariant = { λ s. IsScript s.lines.items × (s.cycles ≡ cycles_of s.lines.items) };
}

impl Script {
    /// The number of lines.
    pub fn len(&self) -> u32
        ensures len { result ≡ length self.now }
        ensures script { IsScript self.now }
    {
        self.lines.len() as u32
    }

    /// Whether there is no line.
    pub fn is_empty(&self) -> bool
        ensures { result ≡ (length self.now == 0) }
    {
        self.lines.is_empty()
    }

    /// All lines in order: line 1 stands first.
    pub fn lines(&self) -> &[(Thread, Act)]
        ensures lines { result.now ≡ self.now }
        ensures script { IsScript self.now }
    {
        &self.lines
    }

    /// The line of that number, counted from 1: its thread and what it asks for. None exactly where there is
    /// no such line.
    pub fn line(&self, i: u32) -> Option<(Thread, Act)>
        ensures line { result ≡ line_at self.now i }
        ensures lawful { IfSome result (λ line. IsLine line.0 line.1) }
    {
        if i == 0 {
            return None;
        }
        place_of(&self.lines, (i - 1) as usize)
    }

    // The script of no lines. Room for all that a script may have is asked for at once, so that the list is never
    // copied as it grows; where there isn't so much memory it grows as it needs.
    pub(crate) fn new(alloc: Global) -> Script
        ensures { result ≡ [] }
    {
        Script {
            lines: list_with_room(alloc, MOST_LINES),
            cycles: 0,
        }
    }

    /// The script of lines that are one.
    pub fn of_lines(lines: Vec<(Thread, Act)>) -> Script
        requires { IsScript lines.items }
        ensures { result ≡ lines.items }
    {
        let cycles = cycles_of(&lines);
        Script { lines, cycles }
    }

    /// Its lines.
    pub fn into_lines(self) -> Vec<(Thread, Act)>
        ensures { result.items ≡ self }
    {
        let Script { lines, .. } = self;
        lines
    }

    // Puts the line last that was read of a text, of which `end` is the number of bytes up to its end. `Refused` where
    // that has a cause, with the first of them.
    #[inline(always)]
    pub(crate) fn grow(
        &mut self,
        read: Result<(Thread, Act), Cause>,
        end: usize,
    ) -> Result<(), ScriptError>
        requires { IfOk read (λ line. IsScriptLine line) }
        ensures lawful { IsScript self.old }
        ensures kept { IfErr result (λ error. self.new ≡ self.old) }
        ensures read { (text : List ℕ) → ReadsLine text read
            → MatchResult result (λ _. GainsLine self.old self.new text end) (λ error. Stops self.old text end error) }
    {
        if end > MOST_BYTES {
            return Err(self.refusal(Cause::Bytes));
        }
        if self.lines.len() >= MOST_LINES {
            return Err(self.refusal(Cause::Lines));
        }
        let line = match read {
            Ok(line) => line,
            Err(cause) => return Err(self.refusal(cause)),
        };
        let cycles = self.cycles + cycle_count(&line);
        if cycles > MOST_CYCLES {
            return Err(self.refusal(Cause::Cycles));
        }
        let Ok(()) = self.lines.push(line) else {
            return Err(ScriptError::OutOfMemory);
        };
        self.cycles = cycles;
        Ok(())
    }

    // The refusal of the next line.
    fn refusal(&self, cause: Cause) -> ScriptError
        ensures fault { result ≡ ScriptError.Refused (record { line = length self.now + 1; cause = cause }) }
        ensures lawful { IsScript self.now }
    {
        ScriptError::Refused(ScriptFault {
            line: self.len() + 1,
            cause,
        })
    }
}

// The line at a place, from 0.
fn place_of(lines: &[(Thread, Act)], i: usize) -> Option<(Thread, Act)>
    ensures { result ≡ slice_get lines.now i }
{
    lines.get(i).copied()
}

// 1 for the lines `c cycle` and `c snap`, and 0 for every other.
fn cycle_count(line: &(Thread, Act)) -> usize
    ensures { result ≡ cond (is_cycle line.now) 1 0 }
{
    match line {
        (
            Thread::C,
            Act::PhaseLine {
                word: PhaseWord::Cycle | PhaseWord::Snap,
            },
        ) => 1,
        _ => 0,
    }
}

// How many lines are `c cycle` or `c snap`.
fn cycles_of(lines: &[(Thread, Act)]) -> usize
    ensures { result ≡ cycles_of lines.now }
{
    let mut cycles = 0;
    for line in lines {
        cycles += cycle_count(line);
    }
    cycles
}

/// The script that has these bytes as its text.
///
/// A line ends with a newline, which the last line may lack if it has at least one byte. `OutOfMemory` where
/// there is no memory for the lines. `Refused` exactly where no script has this text, with the first line that
/// is no line of a script and its first [`Cause`].
pub fn parse(alloc: Global, bytes: &[u8]) -> Result<Script, ScriptError>
    ensures ok { IfOk result (λ script. IsText bytes.now script) }
    ensures err { IfErr result (λ error. IsRefusal bytes.now error) }
{
    let mut draft = Draft::new(alloc);
    draft.take(bytes)?;
    draft.finish()
}
