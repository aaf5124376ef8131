// The top call.

ghost use Rattle.std.specs.Prelude.{◌≡◌, ◌≤◌, ◌<◌, ◌⊎◌, map, string_bytes, length};
ghost use Rattle.std.specs.Io.KnownBytes.{Appends, Keeps};
ghost use Rattle.byte_streams.specs.Faults.{AppendsPart, Rose};
ghost use Rattle.picture_program.specs.Drawn.{refusal_line};
ghost use Rattle.picture_program.specs.Top.{NamesNone, PictureOf, PicturePut, RefusalOf, RefusalPut, TextPut};
ghost use Rattle.picture_program.specs.Top.{UsagePut, usage_text};
ghost use Rattle.picture_program.specs.Words.{AreEntries, Asks};

use crate::drawing::{Drawn, Refusal, draw};
use crate::statuses::{DONE, NO_MEMORY, READ_FAULT, REFUSED, USAGE, WRITE_FAULT};
use crate::words::{Request, request_of};
use byte_streams::{ReadError, Sink, Source, read_up_to, write_text};
use std::alloc::Global;

// The most bytes of a report.
const MOST_BYTES: usize = 268_435_456;

/// Reads a report from `src`, to its end or to one byte past 268,435,456, and writes to `out` the picture of both heaps
/// after the entry that the words name, or of what came and went between two, or the part of it around a node. Answers
/// the program's exit status: 0 where the picture was written, 1 where the words ask for no picture, 2 where the source
/// failed, 3 where the input is no report, or is found illegal at the last of these entries or before it, or has no
/// such entry, or the picture has no such node, 4 where the sink failed, 5 where there was no memory.
pub fn picture_main<S: Source, K: Sink>(
    alloc: Global,
    words: &Vec<String>,
    src: &mut S,
    out: &mut K,
) -> u8
    ensures printed { result ≡ 0 → PicturePut 268435456 (map string_bytes words.now.items)
        (S.left src.old) (S.left src.new) (Appends (K.held out.old) (K.held out.new)) }
    ensures usage { result ≡ 1 → UsagePut (map string_bytes words.now.items)
        (Appends (K.held out.old) (K.held out.new)) }
    ensures no_entry { NamesNone (map string_bytes words.now.items) → (result ≡ 1) ⊎ (result ≡ 4) }
    ensures untouched { NamesNone (map string_bytes words.now.items)
        → (S.left src.new ≡ S.left src.old) × (S.faults src.new ≡ S.faults src.old) }
    ensures read { result ≡ 2 → Rose (S.faults src.old) (S.faults src.new) × Keeps (K.held out.old) (K.held out.new) }
    ensures refused { result ≡ 3 → RefusalPut 268435456 (map string_bytes words.now.items)
        (S.left src.old) (S.left src.new) (Appends (K.held out.old) (K.held out.new)) }
    ensures write { result ≡ 4 → Rose (K.faults out.old) (K.faults out.new) }
    ensures part { result ≡ 4 → TextPut 268435456 (map string_bytes words.now.items)
        (S.left src.old) (S.left src.new) (AppendsPart (K.held out.old) (K.held out.new)) }
    ensures memory { result ≡ 5 → Keeps (K.held out.old) (K.held out.new) }
    ensures status { result ≤ 5 }
{
    match request_of(words) {
        Some(request) => print_picture(alloc, words, request, src, out),
        None => print_usage(out),
    }
}

// Writes the line that tells how the program is called.
fn print_usage<K: Sink>(out: &mut K) -> u8
    ensures usage { result ≡ 1 → Appends (K.held out.old) (K.held out.new) usage_text }
    ensures write { result ≡ 4 → Rose (K.faults out.old) (K.faults out.new) }
    ensures part { result ≡ 4 → AppendsPart (K.held out.old) (K.held out.new) usage_text }
    ensures status { (result ≡ 1) ⊎ (result ≡ 4) }
{
    match write_text(out, b"usage: heap_picture N [M] [--around NODE K]\n") {
        Ok(()) => USAGE,
        Err(_) => WRITE_FAULT,
    }
}

// Reads a report and writes the picture.
fn print_picture<S: Source, K: Sink>(
    alloc: Global,
    words: &Vec<String>,
    request: Request,
    src: &mut S,
    out: &mut K,
) -> u8
    requires { Asks (map string_bytes words.now.items) request }
    ensures printed { result ≡ 0 → PicturePut 268435456 (map string_bytes words.now.items)
        (S.left src.old) (S.left src.new) (Appends (K.held out.old) (K.held out.new)) }
    ensures read { result ≡ 2 → Rose (S.faults src.old) (S.faults src.new) × Keeps (K.held out.old) (K.held out.new) }
    ensures refused { result ≡ 3 → RefusalPut 268435456 (map string_bytes words.now.items)
        (S.left src.old) (S.left src.new) (Appends (K.held out.old) (K.held out.new)) }
    ensures write { result ≡ 4 → Rose (K.faults out.old) (K.faults out.new) }
    ensures part { result ≡ 4 → RefusalPut 268435456 (map string_bytes words.now.items) (S.left src.old)
        (S.left src.new) (AppendsPart (K.held out.old) (K.held out.new))
        ⊎ PicturePut 268435456 (map string_bytes words.now.items) (S.left src.old)
        (S.left src.new) (AppendsPart (K.held out.old) (K.held out.new)) }
    ensures memory { result ≡ 5 → Keeps (K.held out.old) (K.held out.new) }
    ensures status { (result ≡ 0) ⊎ ((2 ≤ result) × (result ≤ 5)) }
{
    let _words = words;
    match read_up_to(alloc, src, MOST_BYTES) {
        Ok(bytes) => print_drawn(alloc, &bytes, request, out),
        Err(ReadError::OutOfMemory) => NO_MEMORY,
        Err(ReadError::Failed) => READ_FAULT,
    }
}

// Writes the picture of a report, or why there is none.
fn print_drawn<K: Sink>(alloc: Global, bytes: &[u8], request: Request, out: &mut K) -> u8
    requires few { length bytes.now < u32.MAX }
    requires order { AreEntries request.entries }
    ensures printed { result ≡ 0 → PictureOf 268435456 bytes.now request (Appends (K.held out.old) (K.held out.new)) }
    ensures refused { result ≡ 3 → RefusalOf 268435456 bytes.now request (Appends (K.held out.old) (K.held out.new)) }
    ensures write { result ≡ 4 → Rose (K.faults out.old) (K.faults out.new) }
    ensures part { result ≡ 4 → RefusalOf 268435456 bytes.now request (AppendsPart (K.held out.old) (K.held out.new))
        ⊎ PictureOf 268435456 bytes.now request (AppendsPart (K.held out.old) (K.held out.new)) }
    ensures memory { result ≡ 5 → Keeps (K.held out.old) (K.held out.new) }
    ensures status { (result ≡ 0) ⊎ ((3 ≤ result) × (result ≤ 5)) }
{
    match draw(alloc, bytes, MOST_BYTES, request) {
        Ok(Drawn::Picture(text)) => print_text(text.as_slice(), out),
        Ok(Drawn::None(refusal)) => print_refusal(refusal, out),
        Err(_) => NO_MEMORY,
    }
}

// Writes a text.
fn print_text<K: Sink>(text: &[u8], out: &mut K) -> u8
    ensures printed { result ≡ 0 → Appends (K.held out.old) (K.held out.new) text.now }
    ensures write { result ≡ 4 → Rose (K.faults out.old) (K.faults out.new) }
    ensures part { result ≡ 4 → AppendsPart (K.held out.old) (K.held out.new) text.now }
    ensures status { (result ≡ 0) ⊎ (result ≡ 4) }
{
    match write_text(out, text) {
        Ok(()) => DONE,
        Err(_) => WRITE_FAULT,
    }
}

// Writes why there is no picture.
fn print_refusal<K: Sink>(refusal: Refusal, out: &mut K) -> u8
    ensures refused { result ≡ 3 → Appends (K.held out.old) (K.held out.new) (refusal_line refusal) }
    ensures write { result ≡ 4 → Rose (K.faults out.old) (K.faults out.new) }
    ensures part { result ≡ 4 → AppendsPart (K.held out.old) (K.held out.new) (refusal_line refusal) }
    ensures status { (result ≡ 3) ⊎ (result ≡ 4) }
{
    match refusal.write(out) {
        Ok(()) => REFUSED,
        Err(_) => WRITE_FAULT,
    }
}
