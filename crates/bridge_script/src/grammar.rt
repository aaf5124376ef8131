// The grammar of a script's lines: the table of operations, with the word and the places of each.

ghost use Rattle.std.specs.Prelude.{◌≡◌, ◌≢◌, MatchOption, List, Some};
ghost use Rattle.bridge_script.specs.declared.grammar.Operation.{Operation};
ghost use Rattle.bridge_script.specs.declared.grammar.Place.{Place};
ghost use Rattle.bridge_script.specs.Grammar.{operation_text, managed_form, peer_form, driver_form, form_of};

use joint_model::{PhaseWord, Thread};
use text_words::is_same;

/// What a line asks for, without its places. `New` makes a managed object and `NewPeer` a peer.
#[derive(Clone, Copy)]
pub enum Operation {
    New,
    Bridge,
    Copy,
    Set,
    Get,
    Drop,
    Load,
    Store,
    Weak,
    Read,
    Await,
    Take,
    Pass,
    Surface,
    Dispose,
    Handle,
    NewPeer,
    Global,
    WGlobal,
    UnGlobal,
    WRead,
    Collect,
    BeginMark,
    Slice,
    SweepMark,
    Phase(PhaseWord),
    Finalise,
}

/// What may stand at a place of a line.
#[derive(Clone, Copy)]
pub enum Place {
    /// `a` to `h`.
    Var,
    /// `a` to `h`, or `-`.
    VarOrNone,
    /// `g0` to `g15`.
    ManagedStatic,
    /// `s0` to `s15`.
    PeerStatic,
    /// `G0` to `G63`.
    Global,
    /// `k0` to `k63`.
    Cell,
    /// A decimal number in that range, both ends within it.
    Number { least: u32, most: u32 },
    /// `plain` or `leaf`.
    PlainKind,
    /// `bridge` or `leafbridge`.
    BridgeKind,
    /// `user` or `framework`.
    Sort,
}

/// The place of a number of fields.
pub const FIELDS: Place = Place::Number { least: 0, most: 16 };

/// The place of a field's index.
pub const INDEX: Place = Place::Number {
    least: 0,
    most: 255,
};

/// The place of a count.
pub const COUNT: Place = Place::Number {
    least: 1,
    most: 65_535,
};

/// A row of the table: an operation, and what stands at its places.
pub type Form = (Operation, &'static [Place]);

/// The operation that a word asks for of a thread, and its places. None where the thread has no such operation.
pub fn form_of(thread: Thread, word: &[u8]) -> Option<Form>
    ensures { MatchOption result ((o : Operation) (places : List Place) → form_of thread o ≡ Some places
        → operation_text o ≢ word.now) (λ row. (form_of thread row.0 ≡ Some row.1.now)
        × (operation_text row.0 ≡ word.now)) }
{
    match thread {
        Thread::M(_) => managed_form(word),
        Thread::P(_) => peer_form(word),
        Thread::C => driver_form(word),
    }
}

// The rows of a managed thread.
fn managed_form(word: &[u8]) -> Option<Form>
    ensures { MatchOption result ((o : Operation) (places : List Place) → managed_form o ≡ Some places
        → operation_text o ≢ word.now) (λ row. (managed_form row.0 ≡ Some row.1.now)
        × (operation_text row.0 ≡ word.now)) }
{
    if is_same(word, b"new") {
        return Some((Operation::New, &[Place::Var, Place::PlainKind, FIELDS]));
    }
    if is_same(word, b"bridge") {
        return Some((
            Operation::Bridge,
            &[Place::Var, Place::BridgeKind, FIELDS, Place::Sort, FIELDS],
        ));
    }
    if is_same(word, b"copy") {
        return Some((Operation::Copy, &[Place::Var, Place::Var]));
    }
    if is_same(word, b"set") {
        return Some((Operation::Set, &[Place::Var, INDEX, Place::VarOrNone]));
    }
    if is_same(word, b"get") {
        return Some((Operation::Get, &[Place::Var, Place::Var, INDEX]));
    }
    if is_same(word, b"drop") {
        return Some((Operation::Drop, &[Place::Var]));
    }
    if is_same(word, b"load") {
        return Some((Operation::Load, &[Place::Var, Place::ManagedStatic]));
    }
    if is_same(word, b"store") {
        return Some((Operation::Store, &[Place::ManagedStatic, Place::VarOrNone]));
    }
    if is_same(word, b"weak") {
        return Some((Operation::Weak, &[Place::Cell, Place::Var]));
    }
    if is_same(word, b"read") {
        return Some((Operation::Read, &[Place::Cell]));
    }
    if is_same(word, b"wait") {
        return Some((Operation::Await, &[Place::Cell]));
    }
    if is_same(word, b"take") {
        return Some((Operation::Take, &[Place::Var]));
    }
    if is_same(word, b"pass") {
        return Some((Operation::Pass, &[Place::Var, Place::PeerStatic]));
    }
    if is_same(word, b"surface") {
        return Some((Operation::Surface, &[Place::Var, Place::PeerStatic]));
    }
    if is_same(word, b"dispose") {
        return Some((Operation::Dispose, &[Place::Var]));
    }
    if is_same(word, b"handle") {
        return Some((Operation::Handle, &[Place::Var]));
    }
    None
}

// The rows of a peer thread.
fn peer_form(word: &[u8]) -> Option<Form>
    ensures { MatchOption result ((o : Operation) (places : List Place) → peer_form o ≡ Some places
        → operation_text o ≢ word.now) (λ row. (peer_form row.0 ≡ Some row.1.now) × (operation_text row.0 ≡ word.now)) }
{
    if is_same(word, b"copy") {
        return Some((Operation::Copy, &[Place::Var, Place::Var]));
    }
    if is_same(word, b"set") {
        return Some((Operation::Set, &[Place::Var, INDEX, Place::VarOrNone]));
    }
    if is_same(word, b"get") {
        return Some((Operation::Get, &[Place::Var, Place::Var, INDEX]));
    }
    if is_same(word, b"drop") {
        return Some((Operation::Drop, &[Place::Var]));
    }
    if is_same(word, b"load") {
        return Some((Operation::Load, &[Place::Var, Place::PeerStatic]));
    }
    if is_same(word, b"store") {
        return Some((Operation::Store, &[Place::PeerStatic, Place::VarOrNone]));
    }
    if is_same(word, b"new") {
        return Some((Operation::NewPeer, &[Place::Var, FIELDS]));
    }
    if is_same(word, b"global") {
        return Some((Operation::Global, &[Place::Global, Place::Var]));
    }
    if is_same(word, b"wglobal") {
        return Some((Operation::WGlobal, &[Place::Global, Place::Var]));
    }
    if is_same(word, b"unglobal") {
        return Some((Operation::UnGlobal, &[Place::Global]));
    }
    if is_same(word, b"wread") {
        return Some((Operation::WRead, &[Place::Var, Place::Global]));
    }
    if is_same(word, b"collect") {
        return Some((Operation::Collect, &[]));
    }
    if is_same(word, b"begin") {
        return Some((Operation::BeginMark, &[]));
    }
    if is_same(word, b"slice") {
        return Some((Operation::Slice, &[COUNT]));
    }
    if is_same(word, b"sweep") {
        return Some((Operation::SweepMark, &[]));
    }
    None
}

// The rows of the driver.
fn driver_form(word: &[u8]) -> Option<Form>
    ensures { MatchOption result ((o : Operation) (places : List Place) → driver_form o ≡ Some places
        → operation_text o ≢ word.now) (λ row. (driver_form row.0 ≡ Some row.1.now)
        × (operation_text row.0 ≡ word.now)) }
{
    if is_same(word, b"cycle") {
        return Some((Operation::Phase(PhaseWord::Cycle), &[]));
    }
    if is_same(word, b"snap") {
        return Some((Operation::Phase(PhaseWord::Snap), &[]));
    }
    if is_same(word, b"contract") {
        return Some((Operation::Phase(PhaseWord::Contract), &[]));
    }
    if is_same(word, b"mirror") {
        return Some((Operation::Phase(PhaseWord::Mirror), &[]));
    }
    if is_same(word, b"weaken") {
        return Some((Operation::Phase(PhaseWord::Weaken), &[]));
    }
    if is_same(word, b"mark") {
        return Some((Operation::Phase(PhaseWord::Mark), &[]));
    }
    if is_same(word, b"sweep") {
        return Some((Operation::Phase(PhaseWord::Sweep), &[]));
    }
    if is_same(word, b"restore") {
        return Some((Operation::Phase(PhaseWord::Restore), &[]));
    }
    if is_same(word, b"resolve") {
        return Some((Operation::Phase(PhaseWord::Resolve), &[]));
    }
    if is_same(word, b"finalise") {
        return Some((Operation::Finalise, &[COUNT]));
    }
    None
}
