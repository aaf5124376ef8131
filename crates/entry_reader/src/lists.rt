// The three lists of a history, as far as the lines that were read name them.

ghost use Rattle.std.specs.Prelude.{◌≡◌, ◌≢◌, ◌+◌, ◌≤◌, ◌++◌, [], ◌∷◌, cond, true, false, ℕ, List, length, codes, IfOk};
ghost use Rattle.std.specs.Prelude.{MatchBool};
ghost use Rattle.history_report.specs.Report.{cite_words};
ghost use Rattle.entry_reader.specs.Meaning.{as_managed, as_peers};
ghost use Rattle.entry_reader.specs.Listing.{TakesNumber, Puts, TakesList, EndsList};

use crate::replies::read_cites;
use joint_machine::{MNum, PNum, Span};
use std::alloc::{AllocError, Global};
use std::marker::Model;
use text_words::{Words, is_same, lettered};

// Numbers of objects are below this one.
const SHORT: u64 = 1 << 32;

// The most numbers of a list.
const MOST: usize = 4_294_967_295;

/// What the lines that were read have named: the managed objects and the peers that were freed, and the notices that
/// were taken, in the order of the lines.
#[derive(Drop)]
pub struct NamedLists {
    freed_managed: Vec<MNum>,
    freed_peers: Vec<PNum>,
    notices: Vec<MNum>,
}

impl Model for NamedLists {
    ghost use Rattle.std.specs.Prelude.{◌≤◌, length};
    ghost use Rattle.entry_reader.specs.Meaning.{Lists};
    ghost use Rattle.joint_machine.specs.Numbers.{u32_max};

    ghost Value = { Lists };

    ghost view = { λ l. record {
      managed = l.freed_managed.items;
      peers = l.freed_peers.items;
      notices = l.notices.items;
    } };

    ghost invariant = { λ l. (length l.freed_managed.items ≤ u32_max)
        × (length l.freed_peers.items ≤ u32_max) × (length l.notices.items ≤ u32_max) };
}

// Takes the next word where it is a number of that letter that isn't below `least`; else None, and the words stay.
fn next_number(letter: u8, least: u64, words: &mut Words) -> Option<u32>
    ensures { TakesNumber letter least words.old words.new result }
{
    let mut ahead = words.fork();
    let n = lettered(ahead.next()?, letter, SHORT)?;
    if n < least {
        return None;
    }
    *words = ahead;
    Some(n as u32)
}

// Takes the word `-`, where it is the next; else false, and the words stay.
fn take_none(words: &mut Words) -> bool
    ensures { MatchBool result (words.old ≡ codes "-" ∷ words.new)
        ((words.new ≡ words.old) × ((rest : List (List ℕ)) → words.old ≢ codes "-" ∷ rest)) }
{
    let mut ahead = words.fork();
    let Some(word) = ahead.next() else {
        return false;
    };
    if !is_same(word, b"-") {
        return false;
    }
    *words = ahead;
    true
}

// Puts an item last; AllocError also where the list would have more than a span can name.
fn put<T: Drop>(list: &mut Vec<T>, item: T) -> Result<(), AllocError>
    requires { length list.old.items ≤ u32.MAX }
    ensures put { IfOk result (λ _. list.new.items ≡ list.old.items ++ item ∷ []) }
    ensures limit { length list.new.items ≤ u32.MAX }
{
    if list.len() >= MOST {
        return Err(AllocError);
    }
    list.push(item)?;
    Ok(())
}

// The least number that may follow.
fn least_after(n: u32, rising: bool) -> u64
    ensures { result ≡ cond rising (n + 1) 0 }
{
    if rising { n as u64 + 1 } else { 0 }
}

// Takes managed objects, which rise where that is asked for, and puts them last.
fn put_managed(words: &mut Words, rising: bool, list: &mut Vec<MNum>) -> Result<(), AllocError>
    requires { length list.old.items ≤ u32.MAX }
    ensures put { IfOk result (λ _. Puts as_managed rising 109 words.old words.new list.old.items list.new.items) }
    ensures limit { length list.new.items ≤ u32.MAX }
{
    let mut least = 0;
    while let Some(n) = next_number(b'm', least, words) {
        put(list, MNum(n))?;
        least = least_after(n, rising);
    }
    Ok(())
}

// Takes peers, which rise, and puts them last.
fn put_peers(words: &mut Words, list: &mut Vec<PNum>) -> Result<(), AllocError>
    requires { length list.old.items ≤ u32.MAX }
    ensures put { IfOk result (λ _. Puts as_peers true 112 words.old words.new list.old.items list.new.items) }
    ensures limit { length list.new.items ≤ u32.MAX }
{
    let mut least = 0;
    while let Some(n) = next_number(b'p', least, words) {
        put(list, PNum(n))?;
        least = least_after(n, true);
    }
    Ok(())
}

// Takes a list of managed objects and puts it last: its span, or None where no list is next.
fn take_managed(
    words: &mut Words,
    rising: bool,
    list: &mut Vec<MNum>,
) -> Result<Option<Span>, AllocError>
    requires { length list.old.items ≤ u32.MAX }
    ensures list { IfOk result (λ found. TakesList as_managed rising
        109 words.old words.new list.old.items list.new.items found) }
    ensures limit { length list.new.items ≤ u32.MAX }
{
    let first = list.len() as u32;
    if take_none(words) {
        return Ok(Some(Span { first, count: 0 }));
    }
    put_managed(words, rising, list)?;
    let count = list.len() as u32 - first;
    if count == 0 {
        return Ok(None);
    }
    Ok(Some(Span { first, count }))
}

// Takes a list of peers and puts it last: its span, or None where no list is next.
fn take_peers(words: &mut Words, list: &mut Vec<PNum>) -> Result<Option<Span>, AllocError>
    requires { length list.old.items ≤ u32.MAX }
    ensures list { IfOk result (λ found. TakesList as_peers true
        112 words.old words.new list.old.items list.new.items found) }
    ensures limit { length list.new.items ≤ u32.MAX }
{
    let first = list.len() as u32;
    if take_none(words) {
        return Ok(Some(Span { first, count: 0 }));
    }
    put_peers(words, list)?;
    let count = list.len() as u32 - first;
    if count == 0 {
        return Ok(None);
    }
    Ok(Some(Span { first, count }))
}

// The words that are left as a list of managed objects, which is put last, with what the line cites. None where they
// are none, and the list stays.
fn read_managed(
    words: &mut Words,
    rising: bool,
    list: &mut Vec<MNum>,
) -> Result<Option<(Span, Option<u64>)>, AllocError>
    requires { length list.old.items ≤ u32.MAX }
    ensures list { IfOk result (λ found. EndsList as_managed rising 109 words.old list.old.items list.new.items found) }
    ensures limit { length list.new.items ≤ u32.MAX }
{
    let first = list.len();
    let Some(span) = take_managed(words, rising, list)? else {
        return Ok(None);
    };
    match read_cites(words) {
        Some(cites) => Ok(Some((span, cites))),
        None => {
            list.truncate(first);
            Ok(None)
        }
    }
}

// The same with peers, which rise.
fn read_peers(
    words: &mut Words,
    list: &mut Vec<PNum>,
) -> Result<Option<(Span, Option<u64>)>, AllocError>
    requires { length list.old.items ≤ u32.MAX }
    ensures list { IfOk result (λ found. EndsList as_peers true 112 words.old list.old.items list.new.items found) }
    ensures limit { length list.new.items ≤ u32.MAX }
{
    let first = list.len();
    let Some(span) = take_peers(words, list)? else {
        return Ok(None);
    };
    match read_cites(words) {
        Some(cites) => Ok(Some((span, cites))),
        None => {
            list.truncate(first);
            Ok(None)
        }
    }
}

impl NamedLists {
    /// No number yet.
    pub fn new(alloc: Global) -> NamedLists
        ensures { result ≡ record { managed = []; peers = []; notices = [] } }
    {
        NamedLists {
            freed_managed: Vec::new(alloc),
            freed_peers: Vec::new(alloc),
            notices: Vec::new(alloc),
        }
    }

    /// The words that are left as a list of managed objects that were freed, with what the line cites; its span behind
    /// those before. None where they are none, and then the lists stay.
    pub fn read_freed(
        &mut self,
        words: &mut Words,
    ) -> Result<Option<(Span, Option<u64>)>, AllocError>
        ensures list { IfOk result (λ found. EndsList as_managed true
            109 words.old self.old.managed self.new.managed found) }
        ensures others { (self.new.peers ≡ self.old.peers) × (self.new.notices ≡ self.old.notices) }
    {
        read_managed(words, true, &mut self.freed_managed)
    }

    /// The same with peers that were freed.
    pub fn read_freed_peers(
        &mut self,
        words: &mut Words,
    ) -> Result<Option<(Span, Option<u64>)>, AllocError>
        ensures list { IfOk result (λ found. EndsList as_peers true 112 words.old self.old.peers self.new.peers found) }
        ensures others { (self.new.managed ≡ self.old.managed) × (self.new.notices ≡ self.old.notices) }
    {
        read_peers(words, &mut self.freed_peers)
    }

    /// The same with notices, in any order.
    pub fn read_notices(
        &mut self,
        words: &mut Words,
    ) -> Result<Option<(Span, Option<u64>)>, AllocError>
        ensures list { IfOk result (λ found. EndsList as_managed false
            109 words.old self.old.notices self.new.notices found) }
        ensures others { (self.new.managed ≡ self.old.managed) × (self.new.peers ≡ self.old.peers) }
    {
        read_managed(words, false, &mut self.notices)
    }

    /// The managed objects that were freed, the peers that were freed, and the notices; of each at most 4,294,967,295.
    pub fn into_parts(self) -> (Vec<MNum>, Vec<PNum>, Vec<MNum>)
        ensures parts { (result.0.items ≡ self.managed)
            × (result.1.items ≡ self.peers) × (result.2.items ≡ self.notices) }
        ensures limit { (length self.managed ≤ u32.MAX)
            × (length self.peers ≤ u32.MAX) × (length self.notices ≤ u32.MAX) }
    {
        let NamedLists {
            freed_managed,
            freed_peers,
            notices,
        } = self;
        (freed_managed, freed_peers, notices)
    }
}
