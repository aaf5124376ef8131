// The operands of a line: what the words behind its operation stand for, each at its place.

ghost use Rattle.std.specs.Prelude.{◌≡◌, ◌<◌, ◌≤◌, ◌++◌, ℕ, List, [], ◌∷◌, length, Some, IfSome};
ghost use Rattle.bridge_script.specs.declared.operands.Operand.{Operand};
ghost use Rattle.bridge_script.specs.Operands.{ReadsAt, ReadsPlaces, Notes, StandAll, texts, earlier};

use crate::faults::Cause;
use crate::grammar::Place;
use crate::words::{cell, global, managed_static, optional, peer_static, var};
use joint_model::{Cell, GName, Kind, Sort, StaticNo, Var};
use std::marker::Model;
use text_words::{Words, is_same, number};

/// What a word stands for at its place.
#[derive(Clone, Copy)]
pub enum Operand {
    Var(Var),
    VarOrNone(Option<Var>),
    ManagedStatic(StaticNo),
    PeerStatic(StaticNo),
    Global(GName),
    Cell(Cell),
    Number(u32),
    Kind(Kind),
    Sort(Sort),
}

// The most places of an operation.
const MOST_PLACES: usize = 5;

/// Operands in a row, as many as an operation may have places.
#[derive(Drop)]
pub struct Operands {
    list: [Operand; 5],
    len: usize,
}

impl Model for Operands {
    ghost use Rattle.std.specs.Prelude.{◌≤◌, List, take};
    ghost use Rattle.bridge_script.specs.declared.operands.Operand.{Operand};

    ghost Value = { List Operand };

    ghost view = { λ v. take v.len v.list };

    ghost invariant = { λ v. v.len ≤ 5 };
}

impl Operands {
    // No operand.
    fn new() -> Operands
        ensures { result ≡ [] }
    {
        Operands {
            list: [Operand::Number(0); MOST_PLACES],
            len: 0,
        }
    }

    /// The operands in order.
    pub fn as_slice(&self) -> &[Operand]
        ensures { result.now ≡ self.now }
    {
        &self.list[..self.len]
    }

    // Puts an operand last.
    fn push(&mut self, operand: Operand)
        requires { length self.old < 5 }
        ensures { self.new ≡ self.old ++ operand ∷ [] }
    {
        self.list[self.len] = operand;
        self.len += 1;
    }
}

/// The operand of a word at a place, or the one cause that the word has there.
pub fn operand_at(place: Place, word: &[u8]) -> Result<Operand, Cause>
    ensures { ReadsAt place word.now result }
{
    match place {
        Place::Var => var(word).map(Operand::Var).ok_or(Cause::Name),
        Place::VarOrNone => optional(word).map(Operand::VarOrNone).ok_or(Cause::Name),
        Place::ManagedStatic => managed_static(word)
            .map(Operand::ManagedStatic)
            .ok_or(Cause::Name),
        Place::PeerStatic => peer_static(word)
            .map(Operand::PeerStatic)
            .ok_or(Cause::Name),
        Place::Global => global(word).map(Operand::Global).ok_or(Cause::Name),
        Place::Cell => cell(word).map(Operand::Cell).ok_or(Cause::Name),
        Place::Number { least, most } => number_at(word, least, most),
        Place::PlainKind => plain_kind(word),
        Place::BridgeKind => bridge_kind(word),
        Place::Sort => sort(word),
    }
}

// The operand of a word at the place of a number in that range.
fn number_at(word: &[u8], least: u32, most: u32) -> Result<Operand, Cause>
    ensures { ReadsAt (Place.Number least most) word.now result }
{
    match number(word) {
        None => Err(Cause::Number),
        Some(n) if n < least as u64 || n > most as u64 => Err(Cause::Limit),
        Some(n) => Ok(Operand::Number(n as u32)),
    }
}

// The operand of a word at the place of a kind without a peer.
fn plain_kind(word: &[u8]) -> Result<Operand, Cause>
    ensures { ReadsAt Place.PlainKind word.now result }
{
    if is_same(word, b"plain") {
        return Ok(Operand::Kind(Kind::Plain));
    }
    if is_same(word, b"leaf") {
        return Ok(Operand::Kind(Kind::Leaf));
    }
    Err(Cause::Kind)
}

// The operand of a word at the place of a kind with a peer.
fn bridge_kind(word: &[u8]) -> Result<Operand, Cause>
    ensures { ReadsAt Place.BridgeKind word.now result }
{
    if is_same(word, b"bridge") {
        return Ok(Operand::Kind(Kind::Bridge));
    }
    if is_same(word, b"leafbridge") {
        return Ok(Operand::Kind(Kind::LeafBridge));
    }
    Err(Cause::Kind)
}

// The operand of a word at the place of a sort.
fn sort(word: &[u8]) -> Result<Operand, Cause>
    ensures { ReadsAt Place.Sort word.now result }
{
    if is_same(word, b"user") {
        return Ok(Operand::Sort(Sort::User));
    }
    if is_same(word, b"framework") {
        return Ok(Operand::Sort(Sort::Framework));
    }
    Err(Cause::Kind)
}

// Puts a word's operand last, or notes its cause where it comes before those that were noted.
fn note(found: Result<Operand, Cause>, operands: &mut Operands, first: &mut Option<Cause>)
    requires { length operands.old < 5 }
    ensures { Notes found operands.old operands.new first.old first.new }
{
    match found {
        Ok(operand) => operands.push(operand),
        Err(cause) => *first = Some(earlier(*first, cause)),
    }
}

// The first of the causes that were found.
fn earlier(first: Option<Cause>, cause: Cause) -> Cause
    ensures { result ≡ earlier first cause }
{
    match first {
        Some(first) if first.number() <= cause.number() => first,
        _ => cause,
    }
}

/// The operands of the words at these places. Otherwise the first cause that the words have there: `Arity` where there
/// are more places than words or fewer, or else the first that a word has at its place.
pub fn read_operands(places: &[Place], words: &mut Words) -> Result<Operands, Cause>
    requires { length places.now ≤ 5 }
    ensures { ReadsPlaces places.now words.old result }
{
    let mut operands = Operands::new();
    let mut first = None;
    for place in places {
        let Some(word) = words.next() else {
            return Err(Cause::Arity);
        };
        note(operand_at(*place, word), &mut operands, &mut first);
    }
    if !words.is_empty() {
        return Err(Cause::Arity);
    }
    match first {
        Some(cause) => Err(cause),
        None => Ok(operands),
    }
}

/// Takes the words at these places, and answers what they stand for. None where the words that are left don't begin
/// with such words.
pub fn take_operands(places: &[Place], words: &mut Words) -> Option<Operands>
    requires { length places.now ≤ 5 }
    ensures sound { IfSome result (λ xs. StandAll places.now xs × (words.old ≡ texts xs ++ words.new)) }
    ensures complete { (xs : List Operand) (rest : List (List ℕ)) → StandAll places.now xs
        → words.old ≡ texts xs ++ rest → (result ≡ Some xs) × (words.new ≡ rest) }
{
    let mut operands = Operands::new();
    for place in places {
        let Ok(operand) = operand_at(*place, words.next()?) else {
            return None;
        };
        operands.push(operand);
    }
    Some(operands)
}
