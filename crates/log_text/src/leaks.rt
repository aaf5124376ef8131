// What a log never releases.

ghost use Rattle.std.specs.Prelude.{◌≡◌, ◌<◌, ◌^◌, length, IfOk};
ghost use Rattle.log_text.specs.Behind.{behind_all, none_live};
ghost use Rattle.log_text.specs.Live.{shown};
ghost use Rattle.log_text.specs.Keys.{AreKeys};

use crate::lines::LogLine;
use crate::lists::Unreleased;
use crate::live::LiveHandles;
use crate::logs::Log;
use std::alloc::{AllocError, Global};

// What stands behind lines.
fn behind_lines(alloc: Global, lines: &[LogLine]) -> Result<LiveHandles, AllocError>
    requires { length lines.now < 2 ^ 63 }
    ensures { IfOk result (λ live. shown live ≡ behind_all none_live lines.now) }
{
    let mut live = LiveHandles::new(alloc);
    for line in lines {
        live.note(line)?;
    }
    Ok(live)
}

/// The handles that are live at the end of a log. `AllocError` where there is no memory for them.
pub fn unreleased(alloc: Global, log: &Log) -> Result<Unreleased, AllocError>
    ensures strong { IfOk result (λ u. AreKeys (behind_all none_live log.now).strong u.strong.items) }
    ensures weak { IfOk result (λ u. AreKeys (behind_all none_live log.now).weak u.weak.items) }
{
    let live = behind_lines(alloc, log.lines())?;
    Ok(Unreleased {
        strong: live.strong(alloc)?,
        weak: live.weak(alloc)?,
    })
}
