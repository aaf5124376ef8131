// The lines of a log, and why bytes give no log.

ghost use Rattle.std.specs.Prelude.{◌≡◌};

use joint_model::{HNum, PNum};

/// What a line notes: a strong or a weak handle comes or goes.
#[derive(Clone, Copy, PartialEq, Eq, Debug)]
pub enum Mark {
    /// A strong handle comes: `+g+`.
    GPlus,
    /// A strong handle goes: `-g-`.
    GMinus,
    /// A weak handle comes: `+w+`.
    WPlus,
    /// A weak handle goes: `-w-`.
    WMinus,
}

/// A line of a log: a handle and the peer that it was made on, how many strong and weak handles there are behind it,
/// and the number of the entry that it is of.
#[derive(Clone, Copy, PartialEq, Eq, Debug)]
pub struct LogLine {
    pub mark: Mark,
    pub h: HNum,
    pub p: PNum,
    pub grefc: u32,
    pub gwrefc: u32,
    pub entry: u64,
}

/// Why a log is refused, in the order in which the causes are tested on a line.
#[derive(Clone, Copy, PartialEq, Eq, Debug)]
pub enum LogCause {
    /// It is no line of a log, or it has no newline.
    Text,
    /// A plus line of a handle that is live in that strength, or a minus line of one that isn't live in that strength
    /// on that peer.
    Mark,
    /// The counts aren't those behind the line.
    Count,
    /// A last line with another number, a line behind the last line, or no last line.
    End,
}

/// Why bytes give no log: no memory, or the first line that is wrong, counted from 1, with its cause.
#[derive(Clone, Copy, PartialEq, Eq, Debug)]
pub enum LogError {
    OutOfMemory,
    Refused { line: u32, cause: LogCause },
}

impl From<std::alloc::AllocError> for LogError {
    ghost use Rattle.log_text.specs.declared.lines.LogError.TheVariants as error;

    ghost from_gives = { λ _ e. e ≡ error.OutOfMemory };

    fn from(_error: std::alloc::AllocError) -> LogError {
        LogError::OutOfMemory
    }
}
