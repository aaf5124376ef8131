// The state of a log.

ghost use Rattle.std.specs.Prelude.{◌≡◌, ◌<◌, ◌&&◌, ◌^◌, None, OnOk, IfOk, Some, true, false};
ghost use Rattle.std.specs.Option.{option_copied};
ghost use Rattle.android_log.specs.Marks.{comes};
ghost use Rattle.android_lives.specs.Logs.{judging, no_counts, opening, seen_in, with_fault};
ghost use Rattle.android_lives.specs.Marks.{came, checked_use, compared, counted_mark, differed, fault_at, gone_in, is_used_wrongly};
ghost use Rattle.android_lives.specs.Marks.{life_before, moved_by, put_in, put_strong, put_weak, told_by, took, came_with};
ghost use Rattle.android_lives.specs.Marks.{gone_strong, gone_weak};

use crate::cycles::{Cycles, Seen};
use crate::holding::Strength;
use crate::lives::Life;
use crate::tallies::{Whole, counted, strong_change, weak_change};
use crate::threads::Threads;
use android_log::{Kind, Mark};
use std::alloc::{AllocError, Global};
use std::marker::Model;

/// How many lines there are, and of each kind: marks, lines of types, frames, notes, skipped ones, and odd ones, which
/// begin as a mark and are none; and the number of the first odd line, 0 where there is none.
#[derive(Clone, Copy, PartialEq, Eq, Debug)]
pub struct Counts {
    pub lines: u64,
    pub marks: u64,
    pub types: u64,
    pub frames: u64,
    pub notes: u64,
    pub skipped: u64,
    pub odd: u64,
    pub first_odd: u64,
}

/// A mark whose counts aren't those by the lines: its line, what it tells, and the counts by the lines.
#[derive(Clone, Copy, PartialEq, Eq, Debug)]
pub struct Difference {
    pub line: u64,
    pub grefc: u32,
    pub gwrefc: u32,
    pub strong: Whole,
    pub weak: Whole,
}

/// Whether there was a mark, how many marks differ, and the first that does.
#[derive(Clone, Copy, PartialEq, Eq, Debug)]
pub struct Differ {
    pub started: bool,
    pub count: u64,
    pub first: Option<Difference>,
}

/// What is wrong with a mark's handle: it is made where it is live, used where it isn't, or released where it isn't.
#[derive(Clone, Copy, PartialEq, Eq, Debug)]
pub enum What {
    Made,
    Used,
    Released,
}

/// A fault: its line, what is wrong, and the handle with its strength.
#[derive(Clone, Copy, PartialEq, Eq, Debug)]
pub struct Fault {
    pub line: u64,
    pub what: What,
    pub strong: bool,
    pub handle: u64,
}

/// How lines are written: nobody knows before the first mark, by themselves, or behind a tag.
#[derive(Clone, Copy, PartialEq, Eq, Debug)]
pub enum Form {
    Unknown,
    Plain,
    Tagged,
}

/// What a log's lines left behind. Clauses see it as `Logged` of `specs/Logs.antt`.
#[derive(Drop)]
pub struct Log {
    pub(crate) alloc: Global,
    pub(crate) counts: Counts,
    pub(crate) differ: Differ,
    pub(crate) strong: Strength,
    pub(crate) weak: Strength,
    pub(crate) lives: Vec<Life>,
    pub(crate) faults: Vec<Fault>,
    pub(crate) cycles: Cycles,
    pub(crate) threads: Threads,
    pub(crate) form: Form,
    pub(crate) named: bool,
    pub(crate) process: Vec<u8>,
    pub(crate) most: u32,
}

impl Model for Log {
    ghost use Rattle.std.specs.Prelude.{◌<◌, ◌^◌};
    ghost use Rattle.android_log.specs.Marks.{comes};
    ghost use Rattle.android_lives.specs.Logs.{judging, Logged};

    ghost Value = { Logged };

    ghost view = { λ l. record { counts = l.counts; differ = l.differ; strong = l.strong; weak = l.weak; lives = l.lives.items; faults = l.faults.items; turned = l.cycles; threads = l.threads; form = l.form; named = l.named; process = l.process.items; most = l.most } };

    ghost invariant = { λ l. l.most < 2 ^ 31 };
}

impl Counts {
    // No lines.
    fn none() -> Counts
        ensures { result ≡ no_counts }
    {
        Counts {
            lines: 0,
            marks: 0,
            types: 0,
            frames: 0,
            notes: 0,
            skipped: 0,
            odd: 0,
            first_odd: 0,
        }
    }
}

impl Log {
    // Before the first line, with a process that is read.
    fn with_process(alloc: Global, named: bool, process: Vec<u8>, most: u32) -> Log
        requires { most < 2 ^ 31 }
        ensures { result ≡ record (opening None most) { named = named; process = process.items } }
    {
        Log {
            alloc,
            counts: Counts::none(),
            differ: Differ {
                started: false,
                count: 0,
                first: None,
            },
            strong: Strength::new(alloc),
            weak: Strength::new(alloc),
            lives: Vec::new(alloc),
            faults: Vec::new(alloc),
            cycles: Cycles::new(alloc),
            threads: Threads::new(alloc),
            form: Form::Unknown,
            named,
            process,
            most,
        }
    }

    /// Before the first line: of a process that is asked for by its digits, or of the one that the first mark is of.
    /// Sites have so many names at most.
    pub fn new(alloc: Global, asked: Option<&[u8]>, most: u32) -> Result<Log, AllocError>
        requires { most < 2 ^ 31 }
        ensures { IfOk result (λ log. log ≡ opening (option_copied asked.entry) most) }
    {
        match asked {
            Some(process) => {
                let process = Vec::from_slice(alloc, process)?;
                Ok(Log::with_process(alloc, true, process, most))
            }
            None => Ok(Log::with_process(alloc, false, Vec::new(alloc), most)),
        }
    }

    /// Its cycles.
    pub fn cycles(&self) -> &Cycles
        ensures { result.now ≡ self.now.turned }
    {
        &self.cycles
    }

    /// How many lines there are, and of each kind.
    pub fn counts(&self) -> &Counts
        ensures { result.now ≡ self.now.counts }
    {
        &self.counts
    }

    /// The references that are strong.
    pub fn strong(&self) -> &Strength
        ensures { result.now ≡ self.now.strong }
    {
        &self.strong
    }

    /// The references that are weak.
    pub fn weak(&self) -> &Strength
        ensures { result.now ≡ self.now.weak }
    {
        &self.weak
    }

    /// All lives, each at the place where it began.
    pub fn lives(&self) -> &[Life]
        ensures { result.now ≡ self.now.lives }
    {
        &self.lives
    }

    /// The faults, in the order of the lines.
    pub fn faults(&self) -> &[Fault]
        ensures { result.now ≡ self.now.faults }
    {
        &self.faults
    }

    /// How many marks differ, and the first that does.
    pub fn differ(&self) -> Differ
        ensures { result ≡ self.now.differ }
    {
        self.differ
    }

    /// Whether one of them is a mark.
    pub fn has_marks(&self) -> bool
        ensures { result ≡ self.now.differ.started }
    {
        self.differ.started
    }

    /// The cycle that is asked, which is the last one where 0 is asked for.
    pub fn judging(&self, cycle: u64) -> u64
        ensures { result ≡ judging cycle self.now }
    {
        if cycle == 0 {
            return self.cycles.len() as u64;
        }
        cycle
    }

    // What a place tells of the state.
    pub(crate) fn seen(&self, line: u64) -> Seen
        ensures { result ≡ seen_in self.now line }
    {
        Seen {
            line,
            held: self.strong.len(),
            off_strong: self.strong.tally().off(),
            off_weak: self.weak.tally().off(),
        }
    }

    // A fault, where there is one.
    fn add_fault(&mut self, wrong: bool, fault: Fault) -> Result<(), AllocError>
        ensures { OnOk result (self.new ≡ with_fault wrong fault self.old) }
    {
        if wrong {
            self.faults.push(fault)?;
        }
        Ok(())
    }

    // The fault of a line.
    fn fault_at(&self, what: What, strong: bool, handle: u64) -> Fault
        ensures { result ≡ fault_at self.now what strong handle }
    {
        Fault {
            line: self.counts.lines,
            what,
            strong,
            handle,
        }
    }

    // The counts at the first mark.
    fn open(&mut self, mark: &Mark)
        ensures { self.new ≡ told_by mark.now self.old.differ.started self.old }
    {
        if !self.differ.started {
            self.strong.open(mark.grefc, strong_change(mark.kind));
            self.weak.open(mark.gwrefc, weak_change(mark.kind));
        }
    }

    // The counts at a mark.
    fn count(&mut self, mark: &Mark)
        ensures { self.new ≡ moved_by mark.now self.old }
    {
        self.strong.tell(mark.grefc, strong_change(mark.kind));
        self.weak.tell(mark.gwrefc, weak_change(mark.kind));
    }

    // Whether a mark's counts differ.
    fn compare(&mut self, mark: &Mark)
        ensures { self.new ≡ compared mark.now self.old }
    {
        let agrees = self.strong.tally().agrees() && self.weak.tally().agrees();
        let difference = Difference {
            line: self.counts.lines,
            grefc: mark.grefc,
            gwrefc: mark.gwrefc,
            strong: self.strong.tally().by_lines(),
            weak: self.weak.tally().by_lines(),
        };
        self.differ = self.differ.after(agrees, difference);
    }

    // A mark's counts.
    fn count_mark(&mut self, mark: &Mark)
        ensures { self.new ≡ counted_mark mark.now self.old }
    {
        self.open(mark);
        self.count(mark);
        self.compare(mark);
    }

    // Whether a reference is made from one that isn't live any more.
    fn is_used_wrongly(&self, mark: &Mark) -> bool
        ensures { result ≡ is_used_wrongly mark.now self.now }
    {
        match mark.from_kind {
            b'G' => self.strong.is_stale(mark.from),
            b'W' => self.weak.is_stale(mark.from),
            _ => false,
        }
    }

    // A fault where it is.
    fn check_use(&mut self, mark: &Mark) -> Result<(), AllocError>
        ensures { OnOk result (self.new ≡ checked_use mark.now self.old) }
    {
        let wrong = self.is_used_wrongly(mark);
        let fault = self.fault_at(What::Used, mark.from_kind == b'G', mark.from);
        self.add_fault(wrong, fault)
    }

    // The life that goes on with a reference that comes.
    fn life_before(&self, mark: &Mark) -> Option<usize>
        ensures { result ≡ life_before mark.now.kind mark.now self.now }
    {
        match mark.kind {
            Kind::StrongComes => {
                if mark.from_kind == b'W' {
                    return self.weak.life_of(mark.from);
                }
                None
            }
            Kind::WeakComes => {
                if mark.from_kind == b'G' {
                    return self.strong.life_of(mark.from);
                }
                None
            }
            Kind::StrongGoes | Kind::WeakGoes => None,
        }
    }

    // A strong reference comes.
    fn put_strong(&mut self, mark: &Mark, life: usize) -> Result<(), AllocError>
        ensures { OnOk result (self.new ≡ put_strong mark.now life self.old) }
    {
        let was = self.strong.come(mark.handle, life)?;
        let fault = self.fault_at(What::Made, true, mark.handle);
        self.add_fault(was, fault)
    }

    // A weak one comes.
    fn put_weak(&mut self, mark: &Mark, life: usize) -> Result<(), AllocError>
        ensures { OnOk result (self.new ≡ put_weak mark.now life self.old) }
    {
        let was = self.weak.come(mark.handle, life)?;
        let fault = self.fault_at(What::Made, false, mark.handle);
        self.add_fault(was, fault)
    }

    // Either comes.
    fn put(&mut self, mark: &Mark, life: usize) -> Result<(), AllocError>
        ensures { OnOk result (self.new ≡ put_in mark.now.kind mark.now life self.old) }
    {
        match mark.kind {
            Kind::StrongComes => self.put_strong(mark, life),
            _ => self.put_weak(mark, life),
        }
    }

    // A reference comes. Answers the place of its life, and whether this begins.
    fn come(&mut self, mark: &Mark) -> Result<(usize, bool), AllocError>
        ensures { IfOk result (λ r. came mark.now self.old ≡ record { log = self.new; life = r.0; new = r.1 }) }
    {
        self.check_use(mark)?;
        if let Some(life) = self.life_before(mark) {
            self.put(mark, life)?;
            return Ok((life, false));
        }
        let life = self.lives.len();
        let begun = self.cycles.len() as u64;
        self.lives.push(Life::born(self.alloc, begun))?;
        self.put(mark, life)?;
        Ok((life, true))
    }

    // A strong reference goes.
    fn drop_strong(&mut self, mark: &Mark) -> Result<(), AllocError>
        ensures { OnOk result (self.new ≡ gone_strong mark.now self.old) }
    {
        let wrong = self.strong.go(mark.handle);
        let fault = self.fault_at(What::Released, true, mark.handle);
        self.add_fault(wrong, fault)
    }

    // A weak one goes.
    fn drop_weak(&mut self, mark: &Mark) -> Result<(), AllocError>
        ensures { OnOk result (self.new ≡ gone_weak mark.now self.old) }
    {
        let wrong = self.weak.go(mark.handle);
        let fault = self.fault_at(What::Released, false, mark.handle);
        self.add_fault(wrong, fault)
    }

    // Either goes.
    fn go(&mut self, mark: &Mark) -> Result<(), AllocError>
        ensures { OnOk result (self.new ≡ gone_in mark.now.kind mark.now self.old) }
    {
        match mark.kind {
            Kind::StrongGoes => self.drop_strong(mark),
            _ => self.drop_weak(mark),
        }
    }

    /// A mark's reference comes or goes. Answers the place of its life, and whether this begins.
    pub(crate) fn take(&mut self, mark: &Mark) -> Result<(usize, bool), AllocError>
        ensures { IfOk result (λ r. took (comes mark.now.kind) mark.now (counted_mark mark.now self.old) ≡ record { log = self.new; life = r.0; new = r.1 }) }
    {
        self.count_mark(mark);
        if mark.kind.comes() {
            return self.come(mark);
        }
        self.go(mark)?;
        Ok((0, false))
    }
}

impl Differ {
    // The same after a mark.
    fn after(self, agrees: bool, difference: Difference) -> Differ
        ensures { result ≡ differed agrees self difference }
    {
        let mut differ = self;
        differ.started = true;
        if !agrees {
            differ.count = counted(self.count);
            if self.first.is_none() {
                differ.first = Some(difference);
            }
        }
        differ
    }
}
