// A reference's life.

ghost use Rattle.std.specs.Prelude.{◌≡◌, ◌+◌, ◌++◌, ◌<◌, ◌^◌, OnOk, Some};
ghost use Rattle.std.specs.Option.{option_copied};
ghost use Rattle.android_lives.specs.declared.lives.Stage.TheVariants as Stage;
ghost use Rattle.android_lives.specs.Lives.{born, site_of, site_word, with_frame, with_named, with_note, with_runtimes, with_site};

use android_log::{is_runtimes, name_of};
use std::alloc::{AllocError, Global};
use std::marker::Model;

/// How far a life's site is told: not at all, by a note, by a frame of the runtime's own, or by so many other frames.
#[derive(Clone, Copy, PartialEq, Eq, Debug)]
pub enum Stage {
    Untold,
    Noted,
    Framed,
    Named(u32),
}

/// A reference's life. Clauses see it as `Lived` of `specs/Lives.antt`.
#[derive(Drop)]
pub struct Life {
    begun: u64,
    weakened: u64,
    kind: Option<Vec<u8>>,
    site: Vec<u8>,
    stage: Stage,
}

impl Model for Life {
    ghost use Rattle.std.specs.Option.{option_map};
    ghost use Rattle.android_lives.specs.Lives.{Lived};

    ghost Value = { Lived };

    ghost view = { λ l. record { begun = l.begun; weakened = l.weakened; kind = option_map (λ v. v.items) l.kind; site = l.site.items; stage = l.stage } };
}

impl Life {
    /// A life that is made where so many cycles had begun.
    pub(crate) fn born(alloc: Global, begun: u64) -> Life
        ensures { result ≡ born begun }
    {
        Life {
            begun,
            weakened: 0,
            kind: None,
            site: Vec::new(alloc),
            stage: Stage::Untold,
        }
    }

    /// How many cycles had begun when it was made.
    pub fn begun(&self) -> u64
        ensures { result ≡ self.now.begun }
    {
        self.begun
    }

    /// The last cycle that weakened it; 0 where none did.
    pub fn weakened(&self) -> u64
        ensures { result ≡ self.now.weakened }
    {
        self.weakened
    }

    /// The Java type of its handle, once it was told.
    pub fn kind(&self) -> Option<&[u8]>
        ensures { option_copied result ≡ self.now.kind }
    {
        match &self.kind {
            Some(kind) => Some(kind.as_slice()),
            None => None,
        }
    }

    /// Its site, once a line told it.
    pub fn site(&self) -> Option<&[u8]>
        ensures { option_copied result ≡ site_of self.now }
    {
        match self.stage {
            Stage::Untold => None,
            _ => Some(self.site.as_slice()),
        }
    }

    /// A cycle weakened it.
    pub(crate) fn weaken(&mut self, cycle: u64)
        ensures { self.new ≡ record self.old { weakened = cycle } }
    {
        self.weakened = cycle;
    }

    /// The Java type of its handle is told.
    pub(crate) fn tell_kind(&mut self, alloc: Global, kind: &[u8]) -> Result<(), AllocError>
        ensures { OnOk result (self.new ≡ record self.old { kind = Some kind.now }) }
    {
        self.kind = Some(Vec::from_slice(alloc, kind)?);
        Ok(())
    }

    // The site is that text.
    fn tell_text(&mut self, text: &[u8], stage: Stage) -> Result<(), AllocError>
        ensures { OnOk result (self.new ≡ record self.old { site = text.now; stage = stage }) }
    {
        self.site.clear();
        self.site.extend_from_slice(text)?;
        self.stage = stage;
        Ok(())
    }

    // One of the runtime's own frames.
    fn tell_runtimes(&mut self, name: &[u8]) -> Result<(), AllocError>
        ensures { OnOk result (self.new ≡ with_runtimes self.old name.now self.old.stage) }
    {
        match self.stage {
            Stage::Named(_) | Stage::Framed => Ok(()),
            _ => self.tell_text(name, Stage::Framed),
        }
    }

    // One more name behind those before it.
    fn add_name(&mut self, name: &[u8], count: u32) -> Result<(), AllocError>
        requires { count < 2 ^ 31 }
        ensures { OnOk result (self.new ≡ record self.old { site = self.old.site ++ (site_word ++ name.now); stage = Stage.Named (count + 1) }) }
    {
        self.site.extend_from_slice(b" < ")?;
        self.site.extend_from_slice(name)?;
        self.stage = Stage::Named(count + 1);
        Ok(())
    }

    // Another frame.
    fn tell_named(&mut self, most: u32, name: &[u8]) -> Result<(), AllocError>
        requires { most < 2 ^ 31 }
        ensures { OnOk result (self.new ≡ with_named most self.old name.now self.old.stage) }
    {
        match self.stage {
            Stage::Named(count) => {
                if count < most {
                    return self.add_name(name, count);
                }
                Ok(())
            }
            _ => self.tell_text(name, Stage::Named(1)),
        }
    }

    // A frame of the place that made it.
    fn tell_frame(&mut self, most: u32, frame: &[u8]) -> Result<(), AllocError>
        requires { most < 2 ^ 31 }
        ensures { OnOk result (self.new ≡ with_frame most self.old frame.now) }
    {
        let name = name_of(frame);
        if is_runtimes(name) {
            return self.tell_runtimes(name);
        }
        self.tell_named(most, name)
    }

    // A note.
    fn tell_note(&mut self, note: &[u8]) -> Result<(), AllocError>
        ensures { OnOk result (self.new ≡ with_note self.old note.now self.old.stage) }
    {
        match self.stage {
            Stage::Untold => self.tell_text(note, Stage::Noted),
            _ => Ok(()),
        }
    }

    /// A line of the place that made it: a frame with its text, or a note.
    pub(crate) fn tell_site(
        &mut self,
        most: u32,
        line: &[u8],
        frame: Option<&[u8]>,
    ) -> Result<(), AllocError>
        requires { most < 2 ^ 31 }
        ensures { OnOk result (self.new ≡ with_site most self.old line.now (option_copied frame.entry)) }
    {
        match frame {
            Some(text) => self.tell_frame(most, text),
            None => self.tell_note(line),
        }
    }
}
