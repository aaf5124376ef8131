// A log's text that is put together for a sink in a fixed buffer, and the digits of the lines before.

ghost use Rattle.std.specs.Prelude.{◌≡◌, ◌+◌, ◌≤◌, ◌++◌, [], ◌∷◌, OnOk, codes, decimal, take};
ghost use Rattle.byte_streams.specs.Drafts.{AddsText};
ghost use Rattle.byte_streams.specs.Streams.{Writes};
ghost use Rattle.byte_streams.specs.Sending.{Sends};
ghost use Rattle.log_text.specs.Text.{end_text, line_text, lines_text, mark_text};

use crate::lines::{LogLine, Mark};
use byte_streams::{Failed, Part, Sink, put_number, write_text};
use joint_model::HNum;
use std::marker::Model;

// The bytes of the buffer.
const SIZE: usize = 16_384;

// For so many bytes [`LogDraft::make_room`] sees that there is room.
const LEAST: usize = 512;

/// The words of a line with the digits of the numbers that were put last. The text of a line is the same whatever
/// these are.
#[derive(Drop)]
pub struct LastNumbers {
    g_plus: Part,
    g_minus: Part,
    w_plus: Part,
    w_minus: Part,
    peer: Part,
    grefc: Part,
    gwrefc: Part,
    entry: Part,
}

impl Model for LastNumbers {
    ghost use Rattle.std.specs.Prelude.{◌≡◌, codes};

    ghost Value = { Unit {0} };

    ghost view = { λ _. tt };

    ghost invariant = { λ l. (l.g_plus.word ≡ codes "+g+ h")
        × ((l.g_minus.word ≡ codes "-g- h")
        × ((l.w_plus.word ≡ codes "+w+ h")
        × ((l.w_minus.word ≡ codes "-w- h")
        × ((l.peer.word ≡ codes " p") × ((l.grefc.word ≡ codes " grefc ")
        × ((l.gwrefc.word ≡ codes " gwrefc ") × (l.entry.word ≡ codes " @"))))))) };
}

impl LastNumbers {
    /// Before the first line.
    pub fn new() -> LastNumbers {
        LastNumbers {
            g_plus: Part::of(b"+g+ h"),
            g_minus: Part::of(b"-g- h"),
            w_plus: Part::of(b"+w+ h"),
            w_minus: Part::of(b"-w- h"),
            peer: Part::of(b" p"),
            grefc: Part::of(b" grefc "),
            gwrefc: Part::of(b" gwrefc "),
            entry: Part::of(b" @"),
        }
    }

    // Puts a mark and a handle.
    #[inline(always)]
    fn put_handle(&mut self, bytes: &mut [u8; 16_384], at: usize, mark: Mark, h: HNum) -> usize
        requires { at + 56 ≤ 16384 }
        ensures text { take result bytes.new ≡ take at bytes.old ++ (mark_text mark ++ 32 ∷ 104 ∷ decimal h.0) }
        ensures end { result ≤ at + 43 }
    {
        match mark {
            Mark::GPlus => put_number(bytes, at, &mut self.g_plus, h.0 as u64),
            Mark::GMinus => put_number(bytes, at, &mut self.g_minus, h.0 as u64),
            Mark::WPlus => put_number(bytes, at, &mut self.w_plus, h.0 as u64),
            Mark::WMinus => put_number(bytes, at, &mut self.w_minus, h.0 as u64),
        }
    }

    // Puts a line with its newline, and answers where it ends.
    #[inline(always)]
    fn put_line(&mut self, bytes: &mut [u8; 16_384], start: usize, line: &LogLine) -> usize
        requires { start + 240 ≤ 16384 }
        ensures text { take result bytes.new ≡ take start bytes.old ++ (line_text line.now ++ 10 ∷ []) }
        ensures end { result ≤ start + 216 }
    {
        let at = self.put_handle(bytes, start, line.mark, line.h);
        let at = put_number(bytes, at, &mut self.peer, line.p.0 as u64);
        let at = put_number(bytes, at, &mut self.grefc, line.grefc as u64);
        let at = put_number(bytes, at, &mut self.gwrefc, line.gwrefc as u64);
        let at = put_number(bytes, at, &mut self.entry, line.entry);
        bytes[at] = b'\n';
        at + 1
    }
}

/// A log's text that is put together: lines, of at most 16,384 bytes in all.
#[derive(Drop)]
pub struct LogDraft {
    bytes: [u8; 16_384],
    len: usize,
}

impl Model for LogDraft {
    ghost use Rattle.std.specs.Prelude.{◌-◌, ◌≤◌, take};
    ghost use Rattle.byte_streams.specs.Drafts.{Draft};

    ghost Value = { Draft };

    ghost view = { λ l. record { text = take l.len l.bytes; room = 16384 - l.len } };

    ghost invariant = { λ l. l.len ≤ 16384 };
}

impl LogDraft {
    /// Nothing was put together yet.
    pub fn new() -> LogDraft
        ensures text { result.text ≡ [] }
        ensures room { result.room ≡ 16384 }
    {
        LogDraft {
            bytes: [0; SIZE],
            len: 0,
        }
    }

    /// Sees that there is room for 512 bytes more: where there isn't, the sink gets the text, and the draft is empty.
    /// [`Failed`] only where the sink's count of faults rose; then it got a beginning of the text.
    #[inline(always)]
    pub fn make_room<K: Sink>(&mut self, out: &mut K) -> Result<(), Failed>
        ensures sent { Sends (K.held out.old) (K.held out.new) self.old.text self.new.text
            (K.faults out.old) (K.faults out.new) result [] }
        ensures room { OnOk result (512 ≤ self.new.room) }
    {
        if SIZE - self.len >= LEAST {
            return Ok(());
        }
        self.flush(out)
    }

    /// Gives the sink the text and empties the draft. [`Failed`] only where the sink's count of faults rose; then it
    /// got a beginning of the text.
    pub fn flush<K: Sink>(&mut self, out: &mut K) -> Result<(), Failed>
        ensures written { Writes (K.held out.old) (K.held out.new)
            (K.faults out.old) (K.faults out.new) result self.old.text }
        ensures text { OnOk result (self.new.text ≡ []) }
        ensures room { OnOk result (self.new.room ≡ 16384) }
    {
        write_text(out, &self.bytes[..self.len])?;
        self.len = 0;
        Ok(())
    }

    /// Puts a line behind it, with its newline.
    #[inline(always)]
    pub fn put(&mut self, line: &LogLine, last: &mut LastNumbers)
        requires { 240 ≤ self.old.room }
        ensures { AddsText self.old self.new (line_text line.now ++ 10 ∷ []) 240 }
    {
        self.len = last.put_line(&mut self.bytes, self.len, line);
    }

    /// Puts two lines behind it, each with its newline.
    #[inline(always)]
    pub fn put_two(&mut self, first: &LogLine, second: &LogLine, last: &mut LastNumbers)
        requires { 480 ≤ self.old.room }
        ensures { AddsText self.old self.new (lines_text (first.now ∷ second.now ∷ [])) 480 }
    {
        let at = last.put_line(&mut self.bytes, self.len, first);
        self.len = last.put_line(&mut self.bytes, at, second);
    }

    /// Puts the last line behind it, with its newline.
    pub fn put_end(&mut self, count: u64)
        requires { 100 ≤ self.old.room }
        ensures { AddsText self.old self.new (end_text count ++ 10 ∷ []) 100 }
    {
        let at = put_number(&mut self.bytes, self.len, &mut Part::of(b"end "), count);
        self.bytes[at] = b'\n';
        self.len = at + 1;
    }
}
