// What a line of a script asks for, by its words, or what is wrong with them.

ghost use Rattle.std.specs.Prelude.{◌≡◌, ◌≢◌, ◌∷◌, ◌++◌, ◌≤◌, ℕ, true, min, length, List, Option, Some, IfSome};
ghost use Rattle.std.specs.Prelude.{MatchBool, MatchOption};
ghost use Rattle.joint_machine.specs.Lines.{IsPlainObject, IsBridgeObject, IsThread, IsLine};
ghost use Rattle.joint_machine.specs.declared.lines.Act.{Act};
ghost use Rattle.bridge_script.specs.declared.grammar.Operation.{Operation};
ghost use Rattle.bridge_script.specs.declared.grammar.Place.{Place};
ghost use Rattle.bridge_script.specs.Words.{act_words};
ghost use Rattle.bridge_script.specs.Grammar.{operation_text, form_of};
ghost use Rattle.bridge_script.specs.Operands.{IsPossible, act_at, act_alone, static_of, act_of_one, act_of_two};
ghost use Rattle.bridge_script.specs.Operands.{act_of_three, act_of_five};
ghost use Rattle.bridge_script.specs.Steps.{ReadsLine};

use crate::faults::Cause;
use crate::grammar::{Form, Operation, form_of};
use crate::operands::{Operand, read_operands, take_operands};
use crate::words::take_thread;
use joint_model::{Act, Kind, Sort, StaticNo, Thread};
use text_words::{Stretch, Words};

/// The line that has this text, which is without its newline. Where there is no such line, the first of the causes
/// that its words have: `Unknown`, `Arity`, `Name`, `Number`, `Limit` or `Kind`.
pub fn read_line(text: Stretch) -> Result<(Thread, Act), Cause>
    ensures { ReadsLine text.entry result }
{
    let mut words = Words::of(text);
    let Some(thread) = take_thread(&mut words) else {
        return Err(Cause::Unknown);
    };
    let Some((operation, places)) = take_row(thread, &mut words) else {
        return Err(Cause::Unknown);
    };
    let operands = match read_operands(places, &mut words) {
        Ok(operands) => operands,
        Err(cause) => return Err(cause),
    };
    match possible_act(operation, operands.as_slice()) {
        Some(act) => Ok((thread, act)),
        None => Err(Cause::Kind),
    }
}

/// Takes what a line of the thread asks for: the words behind its thread. None where the words that are left don't
/// begin with those of such a line.
pub fn take_act(thread: Thread, words: &mut Words) -> Option<Act>
    requires { IsThread thread }
    ensures sound { IfSome result (λ a. IsLine thread a × (words.old ≡ act_words thread a ++ words.new)) }
    ensures complete { (a : Act) (rest : List (List ℕ)) → IsLine thread a
        → words.old ≡ act_words thread a ++ rest → (result ≡ Some a) × (words.new ≡ rest) }
{
    let (operation, places) = take_row(thread, words)?;
    let operands = take_operands(places, words)?;
    possible_act(operation, operands.as_slice())
}

// Takes the word of an operation of a thread, and answers its row of the table. None where the next word asks for none.
fn take_row(thread: Thread, words: &mut Words) -> Option<Form>
    ensures { MatchOption result ((o : Operation) (places : List Place) (rest : List (List ℕ))
        → form_of thread o ≡ Some places → words.old ≢ operation_text o ∷ rest)
        (λ row. (form_of thread row.0 ≡ Some row.1.now)
        × (words.old ≡ operation_text row.0 ∷ words.new) × (length row.1.now ≤ 5)) }
{
    form_of(thread, words.next()?)
}

// The act of an operation with these operands at its places. None where they can't stand there, or not beside each
// other.
fn possible_act(operation: Operation, operands: &[Operand]) -> Option<Act>
    ensures { MatchOption result ((a : Act) → act_at operation operands.now ≡ Some a → IsPossible a → ⊥)
        (λ a. (act_at operation operands.now ≡ Some a) × IsPossible a) }
{
    let act = act_of(operation, operands)?;
    if is_possible(&act) { Some(act) } else { None }
}

// The act of an operation with these operands at its places; None where they can't stand there. Numbers past those of a
// byte, which don't stand at such a place, are taken for the greatest.
fn act_of(operation: Operation, operands: &[Operand]) -> Option<Act>
    ensures { result ≡ act_at operation operands.now }
{
    match *operands {
        [] => act_alone(operation),
        [a] => act_of_one(operation, a),
        [a, b] => act_of_two(operation, a, b),
        [a, b, c] => act_of_three(operation, a, b, c),
        [a, b, c, d, e] => act_of_five(operation, a, b, c, d, e),
        _ => None,
    }
}

// The act of an operation with no operand.
fn act_alone(operation: Operation) -> Option<Act>
    ensures { result ≡ act_alone operation }
{
    match operation {
        Operation::Collect => Some(Act::Collect),
        Operation::BeginMark => Some(Act::BeginMark),
        Operation::SweepMark => Some(Act::SweepMark),
        Operation::Phase(word) => Some(Act::PhaseLine { word }),
        _ => None,
    }
}

// The act of an operation with one operand.
fn act_of_one(operation: Operation, a: Operand) -> Option<Act>
    ensures { result ≡ act_of_one operation a }
{
    match (operation, a) {
        (Operation::Drop, Operand::Var(v)) => Some(Act::Drop { v }),
        (Operation::Take, Operand::Var(v)) => Some(Act::Take { v }),
        (Operation::Dispose, Operand::Var(v)) => Some(Act::Dispose { v }),
        (Operation::Handle, Operand::Var(v)) => Some(Act::Handle { v }),
        (Operation::Read, Operand::Cell(k)) => Some(Act::Read { k }),
        (Operation::Await, Operand::Cell(k)) => Some(Act::Await { k }),
        (Operation::UnGlobal, Operand::Global(g)) => Some(Act::UnGlobal { g }),
        (Operation::Slice, Operand::Number(n)) => Some(Act::Slice { n }),
        (Operation::Finalise, Operand::Number(n)) => Some(Act::Finalise { n }),
        _ => None,
    }
}

// The act of an operation with two operands.
fn act_of_two(operation: Operation, a: Operand, b: Operand) -> Option<Act>
    ensures { result ≡ act_of_two operation a b }
{
    match (operation, a, b) {
        (Operation::Copy, Operand::Var(v), Operand::Var(w)) => Some(Act::Copy { v, w }),
        (Operation::Load, Operand::Var(v), x) => Some(Act::Load {
            v,
            x: static_of(x)?,
        }),
        (Operation::Store, x, Operand::VarOrNone(v)) => Some(Act::Store {
            x: static_of(x)?,
            v,
        }),
        (Operation::Weak, Operand::Cell(k), Operand::Var(v)) => Some(Act::Weak { k, v }),
        (Operation::Pass, Operand::Var(v), Operand::PeerStatic(x)) => Some(Act::Pass { v, x }),
        (Operation::Surface, Operand::Var(v), Operand::PeerStatic(x)) => Some(Act::Surface {
            v,
            x,
        }),
        (Operation::NewPeer, Operand::Var(v), Operand::Number(n)) => Some(Act::NewPeer {
            v,
            fields: byte(n),
        }),
        (Operation::Global, Operand::Global(g), Operand::Var(v)) => Some(Act::Global { g, v }),
        (Operation::WGlobal, Operand::Global(g), Operand::Var(v)) => Some(Act::WGlobal { g, v }),
        (Operation::WRead, Operand::Var(v), Operand::Global(g)) => Some(Act::WRead { v, g }),
        _ => None,
    }
}

// The static of an operand, of whichever heap.
fn static_of(operand: Operand) -> Option<StaticNo>
    ensures { result ≡ static_of operand }
{
    match operand {
        Operand::ManagedStatic(x) => Some(x),
        Operand::PeerStatic(x) => Some(x),
        _ => None,
    }
}

// The act of an operation with three operands.
fn act_of_three(operation: Operation, a: Operand, b: Operand, c: Operand) -> Option<Act>
    ensures { result ≡ act_of_three operation a b c }
{
    match (operation, a, b, c) {
        (Operation::New, Operand::Var(v), Operand::Kind(kind), Operand::Number(n)) => Some(
            Act::New {
                v,
                kind,
                fields: byte(n),
            },
        ),
        (Operation::Set, Operand::Var(v), Operand::Number(i), Operand::VarOrNone(w)) => Some(
            Act::Set { v, i: byte(i), w },
        ),
        (Operation::Get, Operand::Var(v), Operand::Var(w), Operand::Number(i)) => Some(Act::Get {
            v,
            w,
            i: byte(i),
        }),
        _ => None,
    }
}

// The act of an operation with five operands.
fn act_of_five(
    operation: Operation,
    a: Operand,
    b: Operand,
    c: Operand,
    d: Operand,
    e: Operand,
) -> Option<Act>
    ensures { result ≡ act_of_five operation a b c d e }
{
    match (operation, a, b, c, d, e) {
        (
            Operation::Bridge,
            Operand::Var(v),
            Operand::Kind(kind),
            Operand::Number(n),
            Operand::Sort(sort),
            Operand::Number(f),
        ) => Some(Act::Bridge {
            v,
            kind,
            fields: byte(n),
            sort,
            peer_fields: byte(f),
        }),
        _ => None,
    }
}

// The number as a byte: 255 where it is greater.
fn byte(n: u32) -> u8
    ensures { result ≡ min n 255 }
{
    n.min(255) as u8
}

// Whether the act's kind allows what stands beside it: a leaf or a leaf bridge no fields, a bridge no framework's
// peer.
fn is_possible(act: &Act) -> bool
    ensures { MatchBool result (IsPossible act.now) (IsPossible act.now → ⊥) }
{
    match *act {
        Act::New { kind, fields, .. } => is_plain_object(kind, fields),
        Act::Bridge {
            kind,
            fields,
            sort,
            ..
        } => is_bridge_object(kind, fields, sort),
        _ => true,
    }
}

// Whether there may be an object without a peer of this kind, with so many fields.
fn is_plain_object(kind: Kind, fields: u8) -> bool
    ensures { MatchBool result (IsPlainObject kind fields) (IsPlainObject kind fields → ⊥) }
{
    match kind {
        Kind::Plain => fields <= 16,
        Kind::Leaf => fields == 0,
        Kind::Bridge | Kind::LeafBridge => false,
    }
}

// Whether there may be a bridge object of this kind, with so many fields and a peer of this sort.
fn is_bridge_object(kind: Kind, fields: u8, sort: Sort) -> bool
    ensures { MatchBool result (IsBridgeObject kind fields sort) (IsBridgeObject kind fields sort → ⊥) }
{
    match kind {
        Kind::Plain | Kind::Leaf => false,
        Kind::Bridge => fields <= 16 && matches!(sort, Sort::User),
        Kind::LeafBridge => fields == 0,
    }
}
