// An entry as a list keeps it, in 44 bytes: of its number and of the one that it cites the low halves alone, and
// whether a number is cited in a byte beside the caller.

ghost use Rattle.std.specs.Prelude.{◌≡◌, ◌≢◌, ◌+◌, ◌*◌, ◌^◌, Some, None, if◌then◌else◌, false};
ghost use Rattle.joint_machine.specs.declared.events.Entry.{Entry};
ghost use Rattle.joint_model.specs.Packed.{entry_high, entry_in, whole_of};

use joint_machine::{Entry, Made, Op, Reply, Thread};

/// An entry that is read part by part: one that a list keeps, or one by itself.
pub trait EntryParts {
    /// The entry.
    ghost entry: { Self → Entry };

    /// The entry's number.
    fn number(&self) -> u64
        ensures { result ≡ (entry self.now).number };

    /// The entry's caller.
    fn caller(&self) -> Thread
        ensures { result ≡ (entry self.now).made.caller };

    /// The script line on which the entry was made.
    fn index(&self) -> u32
        ensures { result ≡ (entry self.now).made.index };

    /// The entry's event.
    fn op(&self) -> &Op
        ensures { result.now ≡ (entry self.now).made.op };

    /// The entry's reply.
    fn reply(&self) -> &Reply
        ensures { result.now ≡ (entry self.now).made.reply };

    /// The number of the entry that it cites; None where it cites none.
    fn cites(&self) -> Option<u64>
        ensures { result ≡ (entry self.now).made.cites };
}

/// An entry in fewer bytes, as a list keeps it. Of its number and of the one that it cites it has the low halves: where
/// one of the high ones isn't zero, its list keeps both elsewhere.
#[derive(Drop)]
pub struct PackedEntry {
    number: u32,
    cited: u32,
    index: u32,
    op: Op,
    reply: Reply,
    caller: Thread,
    cites: bool,
    // whether the list has a mark for it
    pub(crate) marked: bool,
}

const _: () = prove!(size_of::<PackedEntry>() <= 44);

// What a half of a number is below.
const HALF: u64 = 4_294_967_296;

// Whether a number is cited, and which; 0 where none is.
#[inline(always)]
fn apart(cites: Option<u64>) -> (bool, u64)
    ensures { (if result.0 then Some result.1 else None) ≡ cites }
{
    match cites {
        Some(number) => (true, number),
        None => (false, 0),
    }
}

// The number that is cited.
#[inline(always)]
fn together(cites: bool, cited: u64) -> Option<u64>
    ensures { result ≡ (if cites then Some cited else None) }
{
    if cites { Some(cited) } else { None }
}

// The low half of a number, and the high one.
#[inline(always)]
fn halves(number: u64) -> (u32, u32)
    ensures { whole_of result.0 result.1 ≡ number }
{
    ((number % HALF) as u32, (number / HALF) as u32)
}

// The number with these halves.
#[inline(always)]
pub(crate) fn whole(low: u32, high: u32) -> u64
    ensures { result ≡ whole_of low high }
{
    low as u64 + high as u64 * HALF
}

impl PackedEntry {
    /// The entry in fewer bytes, and the high halves of its number and of the one that it cites. It is marked where one
    /// of them isn't zero.
    #[inline(always)]
    pub(crate) fn pack(entry: Entry) -> (PackedEntry, u32, u32)
        ensures entry { entry_high result.0 result.1 result.2 ≡ entry }
        ensures marked { result.0.marked ≡ false → (result.1 ≡ 0) × (result.2 ≡ 0) }
    {
        let made = entry.made;
        let (cites, whole_cited) = apart(made.cites);
        let (number, number_high) = halves(entry.number);
        let (cited, cited_high) = halves(whole_cited);
        let packed = PackedEntry {
            number,
            cited,
            index: made.index,
            op: made.op,
            reply: made.reply,
            caller: made.caller,
            cites,
            marked: number_high != 0 || cited_high != 0,
        };
        (packed, number_high, cited_high)
    }

    /// The entry whose high halves are zero.
    #[inline(always)]
    pub fn unpack(&self) -> Entry
        ensures { result ≡ entry_in self.now }
    {
        Entry {
            number: self.number as u64,
            made: Made {
                caller: self.caller,
                index: self.index,
                op: self.op,
                reply: self.reply,
                cites: together(self.cites, self.cited as u64),
            },
        }
    }

    /// The entry with these high halves of its number and of the one that it cites.
    #[inline(always)]
    pub(crate) fn unpack_high(&self, number_high: u32, cited_high: u32) -> Entry
        ensures { result ≡ entry_high self.now number_high cited_high }
    {
        Entry {
            number: whole(self.number, number_high),
            made: Made {
                caller: self.caller,
                index: self.index,
                op: self.op,
                reply: self.reply,
                cites: together(self.cites, whole(self.cited, cited_high)),
            },
        }
    }

    /// The number with this high half.
    #[inline(always)]
    pub(crate) fn number_high(&self, number_high: u32) -> u64
        ensures { result ≡ whole_of self.now.number number_high }
    {
        whole(self.number, number_high)
    }
}

impl EntryParts for PackedEntry {
    ghost entry = { entry_in };

    #[inline(always)]
    fn number(&self) -> u64 {
        self.number as u64
    }

    #[inline(always)]
    fn caller(&self) -> Thread {
        self.caller
    }

    #[inline(always)]
    fn index(&self) -> u32 {
        self.index
    }

    #[inline(always)]
    fn op(&self) -> &Op {
        &self.op
    }

    #[inline(always)]
    fn reply(&self) -> &Reply {
        &self.reply
    }

    #[inline(always)]
    fn cites(&self) -> Option<u64> {
        together(self.cites, self.cited as u64)
    }
}

impl EntryParts for Entry {
    ghost entry = { λ e. e };

    #[inline(always)]
    fn number(&self) -> u64 {
        self.number
    }

    #[inline(always)]
    fn caller(&self) -> Thread {
        self.made.caller
    }

    #[inline(always)]
    fn index(&self) -> u32 {
        self.made.index
    }

    #[inline(always)]
    fn op(&self) -> &Op {
        &self.made.op
    }

    #[inline(always)]
    fn reply(&self) -> &Reply {
        &self.made.reply
    }

    #[inline(always)]
    fn cites(&self) -> Option<u64> {
        self.made.cites
    }
}
