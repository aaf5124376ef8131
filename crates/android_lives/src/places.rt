// What a line tells of a mark's place.

ghost use Rattle.std.specs.Prelude.{◌≡◌, ◌<◌, OnOk, None, Some, MatchOption, slice_get};
ghost use Rattle.std.specs.Option.{option_copied};
ghost use Rattle.android_lives.specs.Sites.{begun_of, has_rest, rest_frame, restored_at, sited, tells_restore, tells_turn, told_at};
ghost use Rattle.android_lives.specs.Sites.{told_mark, turned_if, turned_in, turns, weakened_at, weakened_life, with_place, with_told};

use crate::logs::Log;
use crate::threads::Pending;
use android_log::{Kind, after, has_word, spaces};
use std::alloc::AllocError;

impl Log {
    // The site of a life that a mark made.
    fn tell_site(
        &mut self,
        mark: Pending,
        line: &[u8],
        frame: Option<&[u8]>,
    ) -> Result<(), AllocError>
        ensures { OnOk result (self.new ≡ sited mark.new mark.life line.now (option_copied frame.entry) self.old) }
    {
        if mark.new && mark.life < self.lives.len() {
            self.lives[mark.life].tell_site(self.most, line, frame)?;
        }
        Ok(())
    }

    // How many cycles had begun when a life was made.
    fn begun_of(&self, life: usize) -> u64
        ensures { result ≡ begun_of (slice_get self.now.lives life) }
    {
        match self.lives.get(life) {
            Some(life) => life.begun(),
            None => 0,
        }
    }

    // The last cycle weakened a life.
    fn weaken_life(&mut self, life: usize)
        ensures { self.new ≡ weakened_life life self.old }
    {
        let cycle = self.cycles.len() as u64;
        if life < self.lives.len() {
            self.lives[life].weaken(cycle);
        }
    }

    // The bridge weakened a mark's life.
    fn weaken(&mut self, mark: Pending) -> Result<(), AllocError>
        ensures { OnOk result (self.new ≡ weakened_at mark self.old) }
    {
        let seen = self.seen(mark.line);
        let begun = self.begun_of(mark.life);
        self.cycles.weaken(seen, begun)?;
        self.weaken_life(mark.life);
        Ok(())
    }

    // It restored it.
    fn restore(&mut self, mark: Pending, kept: bool)
        ensures { self.new ≡ restored_at kept mark self.old }
    {
        let seen = self.seen(mark.line);
        self.cycles.restore(seen, kept);
    }

    // What the bridge did.
    fn turn_in(&mut self, mark: Pending) -> Result<(), AllocError>
        ensures { OnOk result (self.new ≡ turned_in mark.kind mark self.old) }
    {
        match mark.kind {
            Kind::WeakComes => self.weaken(mark),
            Kind::StrongComes => {
                self.restore(mark, true);
                Ok(())
            }
            _ => {
                self.restore(mark, false);
                Ok(())
            }
        }
    }

    // Whether a line tells the bridge's place of what it restores.
    fn tells_restore(&self, line: &[u8]) -> bool
        ensures { result ≡ tells_restore self.now line.now }
    {
        self.cycles.len() != 0 && has_word(line, b"take_global_ref")
    }

    // Whether a line tells the bridge's place of a mark of that kind.
    fn tells_turn(&self, kind: Kind, line: &[u8]) -> bool
        ensures { result ≡ tells_turn kind self.now line.now }
    {
        match kind {
            Kind::WeakComes => has_word(line, b"take_weak_global_ref"),
            Kind::StrongGoes => false,
            Kind::StrongComes | Kind::WeakGoes => self.tells_restore(line),
        }
    }

    // Whether it does so first.
    fn turns(&self, mark: Pending, line: &[u8]) -> bool
        ensures { result ≡ turns mark self.now line.now }
    {
        !mark.told && self.tells_turn(mark.kind, line)
    }

    // What the bridge did, where it did.
    fn turn_if(&mut self, turned: bool, mark: Pending) -> Result<(), AllocError>
        ensures { OnOk result (self.new ≡ turned_if turned mark self.old) }
    {
        if turned {
            return self.turn_in(mark);
        }
        Ok(())
    }

    // What a line tells of the bridge, and that it was told.
    fn tell_turn(&mut self, i: usize, mark: Pending, line: &[u8]) -> Result<(), AllocError>
        ensures { OnOk result (self.new ≡ told_at i mark line.now self.old) }
    {
        let turned = self.turns(mark, line);
        self.turn_if(turned, mark)?;
        self.threads.put_at(i, mark.after(turned));
        Ok(())
    }

    /// A line of the place of the mark that is kept there.
    pub(crate) fn tell_place(
        &mut self,
        i: usize,
        mark: Pending,
        line: &[u8],
        frame: Option<&[u8]>,
    ) -> Result<(), AllocError>
        ensures { OnOk result (self.new ≡ with_place i mark line.now (option_copied frame.entry) self.old) }
    {
        self.tell_site(mark, line, frame)?;
        self.tell_turn(i, mark, line)
    }
}

impl Pending {
    // The same after a line of its place.
    fn after(self, turned: bool) -> Pending
        ensures { result ≡ told_mark turned self }
    {
        let mut mark = self;
        mark.takes_note = false;
        mark.told = self.told || turned;
        mark
    }
}

/// Whether the end of a mark's own line tells its place.
pub(crate) fn has_rest(rest: &[u8]) -> bool
    ensures { result ≡ has_rest rest.now }
{
    !rest.is_empty() && !rest.starts_with(b"thread ")
}

/// The frame that it is.
pub(crate) fn rest_frame(rest: &[u8]) -> Option<&[u8]>
    ensures { MatchOption result (rest_frame rest.now ≡ None) (λ r. rest_frame rest.now ≡ Some r.now) }
{
    let count = spaces(rest);
    after(&rest[count..], b"at ")
}
