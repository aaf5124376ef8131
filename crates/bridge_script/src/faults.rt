// Why bytes are no script.

ghost use Rattle.std.specs.Prelude.{◌≡◌, codes};
ghost use Rattle.bridge_script.specs.Causes.{cause_number, cause_name};

use std::alloc::AllocError;

/// Why a line is no line of a script, in the order in which the causes are tested. Each has a number and a name,
/// which are printed. A line with the cause `Bytes` has no other, and one with `Lines` has none but `Bytes`.
#[derive(Clone, Copy, PartialEq, Eq, Debug)]
pub enum Cause {
    /// The first word is no thread, or the second is no operation of that thread.
    Unknown,
    /// The operation has more places than there are words, or fewer.
    Arity,
    /// A word at the place of a variable, a static, a global name or a cell is none.
    Name,
    /// A word at the place of a number is no decimal number of at most 64 bits without needless zeros.
    Number,
    /// There are more than 16 fields, a field's index is over 255, or a count is outside 1 to 65,535.
    Limit,
    /// A word at the place of a kind or a sort is none of the operation, or stands beside what it doesn't allow:
    /// a `leaf` or `leafbridge` beside fields, a `bridge` beside `framework`.
    Kind,
    /// It is the 257th line `c cycle` or `c snap`.
    Cycles,
    /// It is line 20,001.
    Lines,
    /// It holds byte 8,388,609.
    Bytes,
}

impl Cause {
    ghost use Rattle.bridge_script.specs.Causes.{cause_number, cause_name};

    /// Its number, from 1 to 9.
    pub fn number(self) -> u8
        ensures { result ≡ cause_number self }
    {
        match self {
            Cause::Unknown => 1,
            Cause::Arity => 2,
            Cause::Name => 3,
            Cause::Number => 4,
            Cause::Limit => 5,
            Cause::Kind => 6,
            Cause::Cycles => 7,
            Cause::Lines => 8,
            Cause::Bytes => 9,
        }
    }

    /// Its name, one lowercase word.
    pub fn name(self) -> &'static str
        ensures { result.now ≡ cause_name self }
    {
        match self {
            Cause::Unknown => "unknown",
            Cause::Arity => "arity",
            Cause::Name => "name",
            Cause::Number => "number",
            Cause::Limit => "limit",
            Cause::Kind => "kind",
            Cause::Cycles => "cycles",
            Cause::Lines => "lines",
            Cause::Bytes => "bytes",
        }
    }
}

/// The first line that is no line of a script, counted from 1, and its first cause.
#[derive(Clone, Copy, PartialEq, Eq, Debug)]
pub struct ScriptFault {
    pub line: u32,
    pub cause: Cause,
}

/// Why there is no script: no memory, a read that failed, or bytes that are none.
#[derive(Clone, Copy, PartialEq, Eq, Debug)]
pub enum ScriptError {
    OutOfMemory,
    ReadFault,
    Refused(ScriptFault),
}

impl From<AllocError> for ScriptError {
    ghost use Rattle.bridge_script.specs.declared.faults.ScriptError.TheVariants as error;

    ghost from_gives = { λ _ e. e ≡ error.OutOfMemory };

    fn from(_error: AllocError) -> ScriptError {
        ScriptError::OutOfMemory
    }
}
