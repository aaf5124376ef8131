// What each line does.

ghost use Rattle.std.specs.Prelude.{◌≡◌, OnOk};
ghost use Rattle.std.specs.Option.{option_copied};
ghost use Rattle.android_log.specs.Bodies.{said};
ghost use Rattle.android_log.specs.Parts.{decimal_of};
ghost use Rattle.android_lives.specs.Holding.{life_of};
ghost use Rattle.android_lives.specs.Sites.{has_rest};
ghost use Rattle.android_lives.specs.Lines.{after_bare, after_body, after_frame, after_heard, after_line, after_mark, after_note};
ghost use Rattle.android_lives.specs.Lines.{by_form, closed_behind, frames_up, heard_after, is_mark, is_same};
ghost use Rattle.android_lives.specs.Lines.{marks_up, may_start, notes_up, odd_up, placed_behind, skipped_up, started_by};
ghost use Rattle.android_lives.specs.Lines.{starts_plain, thread_of, typed_by, types_up, with_rest, without_return};

use crate::logs::{Form, Log};
use crate::places::{has_rest, rest_frame};
use crate::tallies::counted;
use crate::threads::Pending;
use android_log::{Body, Mark, Placed, decimal_of, heard_in, is_other, said_in};
use std::alloc::AllocError;

// Whether two texts are the same.
fn is_same(a: &[u8], b: &[u8]) -> bool
    ensures { result ≡ is_same a.now b.now }
{
    a == b
}

// Whether a line is a mark.
fn is_mark(line: &[u8]) -> bool
    ensures { result ≡ is_mark (said line.now) }
{
    matches!(said_in(line), Body::Mark(_, _))
}

// The number of a thread: one more than its word, where this is a number below 2^32, and else 0.
fn thread_of(word: &[u8]) -> u64
    ensures { result ≡ thread_of (decimal_of word.now) }
{
    match decimal_of(word) {
        Some(n) => n as u64 + 1,
        None => 0,
    }
}

// A line without its newline: a carriage return at its end goes.
fn without_return(line: &[u8]) -> &[u8]
    ensures { result.now ≡ without_return line.now }
{
    let n = line.len();
    if n > 0 && line[n - 1] == b'\r' {
        return &line[..n - 1];
    }
    line
}

impl Log {
    // No line tells the place of a thread's last mark from now on.
    fn close(&mut self, thread: u64)
        ensures { self.new ≡ closed_behind thread self.old }
    {
        self.threads.close(thread);
    }

    // A line of the place of a thread's last mark.
    fn tell_behind(
        &mut self,
        thread: u64,
        line: &[u8],
        frame: Option<&[u8]>,
    ) -> Result<(), AllocError>
        ensures { OnOk result (self.new ≡ placed_behind thread line.now (option_copied frame.entry) self.old) }
    {
        let Some(i) = self.threads.place(thread) else {
            return Ok(());
        };
        let Some(mark) = self.threads.at(i) else {
            return Ok(());
        };
        self.tell_place(i, mark, line, frame)
    }

    // The end of a mark's own line.
    fn tell_rest(&mut self, thread: u64, rest: &[u8]) -> Result<(), AllocError>
        ensures { OnOk result (self.new ≡ with_rest (has_rest rest.now) thread rest.now self.old) }
    {
        if has_rest(rest) {
            return self.tell_behind(thread, rest, rest_frame(rest));
        }
        Ok(())
    }

    // A mark.
    fn take_mark(&mut self, thread: u64, mark: &Mark, rest: &[u8]) -> Result<(), AllocError>
        ensures { OnOk result (self.new ≡ after_mark thread mark.now rest.now (marks_up self.old)) }
    {
        self.counts.marks = counted(self.counts.marks);
        let (life, new) = self.take(mark)?;
        let line = self.counts.lines;
        let pending = Pending {
            kind: mark.kind,
            life,
            new,
            takes_frames: true,
            takes_note: true,
            told: false,
            line,
        };
        self.threads.put(thread, pending)?;
        self.tell_rest(thread, rest)
    }

    // A frame.
    fn take_frame(&mut self, thread: u64, line: &[u8], text: &[u8]) -> Result<(), AllocError>
        ensures { OnOk result (self.new ≡ after_frame thread line.now text.now (frames_up self.old)) }
    {
        self.counts.frames = counted(self.counts.frames);
        let Some(i) = self.threads.place(thread) else {
            return Ok(());
        };
        let Some(mark) = self.threads.at(i) else {
            return Ok(());
        };
        if mark.takes_frames {
            return self.tell_place(i, mark, line, Some(text));
        }
        Ok(())
    }

    // A note.
    fn take_note(&mut self, thread: u64, line: &[u8]) -> Result<(), AllocError>
        ensures { OnOk result (self.new ≡ after_note thread line.now (notes_up self.old)) }
    {
        self.counts.notes = counted(self.counts.notes);
        let Some(i) = self.threads.place(thread) else {
            return Ok(());
        };
        let Some(mark) = self.threads.at(i) else {
            return Ok(());
        };
        if mark.takes_note && !is_other(line) {
            return self.tell_place(i, mark, line, None);
        }
        self.close(thread);
        Ok(())
    }

    // The type of a live handle.
    fn tell_type(&mut self, h: u64, name: &[u8]) -> Result<(), AllocError>
        ensures { OnOk result (self.new ≡ typed_by (life_of self.old.strong h) name.now self.old) }
    {
        if let Some(i) = self.strong.life_of(h) {
            if i < self.lives.len() {
                self.lives[i].tell_kind(self.alloc, name)?;
            }
        }
        Ok(())
    }

    // A line of a type.
    fn take_type(&mut self, thread: u64, h: u64, name: &[u8]) -> Result<(), AllocError>
        ensures { OnOk result (self.new ≡ closed_behind thread (typed_by (life_of self.old.strong h) name.now (types_up self.old))) }
    {
        self.counts.types = counted(self.counts.types);
        self.tell_type(h, name)?;
        self.close(thread);
        Ok(())
    }

    // An odd line.
    fn take_odd(&mut self, thread: u64)
        ensures { self.new ≡ closed_behind thread (odd_up self.old) }
    {
        self.counts.odd = counted(self.counts.odd);
        if self.counts.first_odd == 0 {
            self.counts.first_odd = self.counts.lines;
        }
        self.close(thread);
    }

    // A line of a thread.
    #[inline(always)]
    fn take_body(&mut self, thread: u64, line: &[u8]) -> Result<(), AllocError>
        ensures { OnOk result (self.new ≡ after_body thread line.now self.old) }
    {
        match said_in(line) {
            Body::Frame(text) => self.take_frame(thread, line, text),
            Body::Mark(mark, rest) => self.take_mark(thread, &mark, rest),
            Body::Type(h, name) => self.take_type(thread, h, name),
            Body::Odd => {
                self.take_odd(thread);
                Ok(())
            }
            Body::Note => self.take_note(thread, line),
        }
    }

    // A line that isn't read.
    fn skip(&mut self)
        ensures { self.new ≡ skipped_up self.old }
    {
        self.counts.skipped = counted(self.counts.skipped);
    }

    // Whether a line with a tag is the first mark that may be read.
    fn may_start(&self, placed: &Placed) -> bool
        ensures { result ≡ may_start placed.now self.now }
    {
        (!self.named || is_same(&self.process, placed.process)) && is_mark(placed.body)
    }

    // The first mark that may be read tells how lines are written.
    fn start(&mut self, placed: &Placed) -> Result<(), AllocError>
        ensures { OnOk result (self.new ≡ started_by self.old.form placed.now self.old) }
    {
        match self.form {
            Form::Unknown => {
                if self.may_start(placed) {
                    self.process.clear();
                    self.process.extend_from_slice(placed.process)?;
                    self.form = Form::Tagged;
                }
                Ok(())
            }
            _ => Ok(()),
        }
    }

    // A line with a tag, once it was looked at whether it is the first mark.
    #[inline(always)]
    fn hear(&mut self, placed: &Placed) -> Result<(), AllocError>
        ensures { OnOk result (self.new ≡ heard_after placed.now self.old) }
    {
        match self.form {
            Form::Tagged => {
                if is_same(&self.process, placed.process) {
                    return self.take_body(thread_of(placed.thread), placed.body);
                }
                self.skip();
                Ok(())
            }
            _ => {
                self.skip();
                Ok(())
            }
        }
    }

    // A line with a tag.
    fn take_heard(&mut self, placed: &Placed) -> Result<(), AllocError>
        ensures { OnOk result (self.new ≡ after_heard placed.now self.old) }
    {
        self.start(placed)?;
        self.hear(placed)
    }

    // Whether a line without a tag is the first mark.
    fn starts_plain(&self, line: &[u8]) -> bool
        ensures { result ≡ starts_plain self.now.form self.now line.now }
    {
        match self.form {
            Form::Unknown => !self.named && is_mark(line),
            _ => false,
        }
    }

    // A line without a tag.
    fn take_bare(&mut self, line: &[u8]) -> Result<(), AllocError>
        ensures { OnOk result (self.new ≡ after_bare line.now self.old) }
    {
        if self.starts_plain(line) {
            self.form = Form::Plain;
            return self.take_body(0, line);
        }
        self.skip();
        Ok(())
    }

    // A line, by how lines are written.
    fn take_line(&mut self, line: &[u8]) -> Result<(), AllocError>
        ensures { OnOk result (self.new ≡ by_form self.old.form line.now self.old) }
    {
        match self.form {
            Form::Plain => self.take_body(0, line),
            _ => match heard_in(line) {
                Some(placed) => self.take_heard(&placed),
                None => self.take_bare(line),
            },
        }
    }

    /// Reads a line, which is without its newline.
    pub fn read_line(&mut self, line: &[u8]) -> Result<(), AllocError>
        ensures { OnOk result (self.new ≡ after_line self.old line.now) }
    {
        self.counts.lines = counted(self.counts.lines);
        self.take_line(without_return(line))
    }
}
