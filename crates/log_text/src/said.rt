// What a line of a log says, by its words.

ghost use Rattle.std.specs.Prelude.{◌≡◌, ◌≢◌, ◌<◌, ◌^◌, ℕ, List, [], ◌∷◌, ◌++◌, MatchOption, codes, decimal};
ghost use Rattle.log_text.specs.declared.lines.Mark.{Mark};
ghost use Rattle.log_text.specs.declared.lines.LogLine.{LogLine};
ghost use Rattle.log_text.specs.Behind.{Fits};
ghost use Rattle.log_text.specs.Text.{mark_text, line_words, number_words, end_words};
ghost use Rattle.log_text.specs.Faults.{IsNeither};
ghost use Rattle.log_text.specs.Taking.{Says};

use crate::lines::{LogLine, Mark};
use joint_model::{HNum, PNum};
use text_words::{Stretch, Words, is_same, lettered, number};

/// A line of a log, or its last line with the number of lines.
pub enum Said {
    Entry(LogLine),
    End(u64),
}

// The mark that a word is.
fn mark_of(word: &[u8]) -> Option<Mark>
    ensures { MatchOption result ((m : Mark) → mark_text m ≢ word.now) (λ m. mark_text m ≡ word.now) }
{
    if is_same(word, b"+g+") {
        return Some(Mark::GPlus);
    }
    if is_same(word, b"-g-") {
        return Some(Mark::GMinus);
    }
    if is_same(word, b"+w+") {
        return Some(Mark::WPlus);
    }
    if is_same(word, b"-w-") {
        return Some(Mark::WMinus);
    }
    None
}

// Takes a letter and a number of 32 bits.
#[inline(always)]
fn take_lettered(words: &mut Words, letter: u8) -> Option<u32>
    ensures { MatchOption result ((n : ℕ) (rest : List (List ℕ)) → n < 2 ^ 32 → words.old ≢ (letter ∷ decimal n) ∷ rest)
        (λ n. (n < 2 ^ 32) × (words.old ≡ (letter ∷ decimal n) ∷ words.new)) }
{
    let n = lettered(words.next()?, letter, 4_294_967_296)?;
    Some(n as u32)
}

// Takes a word and a number of 32 bits behind it.
#[inline(always)]
fn take_count(words: &mut Words, name: &[u8]) -> Option<u32>
    ensures { MatchOption result ((n : ℕ) (rest : List (List ℕ)) → n < 2 ^ 32 → words.old ≢ name.now ∷ decimal n ∷ rest)
        (λ n. (n < 2 ^ 32) × (words.old ≡ name.now ∷ decimal n ∷ words.new)) }
{
    if !is_same(words.next()?, name) {
        return None;
    }
    let n = number(words.next()?)?;
    if n < 4_294_967_296 {
        Some(n as u32)
    } else {
        None
    }
}

// Takes the number of an entry: `@` and a number of 64 bits.
#[inline(always)]
fn take_entry(words: &mut Words) -> Option<u64>
    ensures { MatchOption result ((n : ℕ) (rest : List (List ℕ)) → n < 2 ^ 64 → words.old ≢ (64 ∷ decimal n) ∷ rest)
        (λ n. (n < 2 ^ 64) × (words.old ≡ (64 ∷ decimal n) ∷ words.new)) }
{
    let word = words.next()?;
    if word.is_empty() || word[0] != b'@' {
        return None;
    }
    number(&word[1..])
}

// The line with that mark whose other words these are.
fn line_of(mark: Mark, words: &mut Words) -> Option<LogLine>
    ensures { MatchOption result ((l : LogLine) → Fits l → words.old ≢ number_words l)
        (λ l. Fits l × (l.mark ≡ mark) × (words.old ≡ number_words l)) }
{
    let h = take_lettered(words, b'h')?;
    let p = take_lettered(words, b'p')?;
    let grefc = take_count(words, b"grefc")?;
    let gwrefc = take_count(words, b"gwrefc")?;
    let entry = take_entry(words)?;
    if !words.is_empty() {
        return None;
    }
    Some(LogLine {
        mark,
        h: HNum(h),
        p: PNum(p),
        grefc,
        gwrefc,
        entry,
    })
}

// The number of a last line whose words behind `end` these are.
fn end_of(words: &mut Words) -> Option<u64>
    ensures { MatchOption result ((n : ℕ) → n < 2 ^ 64 → words.old ≢ decimal n ∷ [])
        (λ n. (n < 2 ^ 64) × (words.old ≡ decimal n ∷ [])) }
{
    let n = number(words.next()?)?;
    if words.is_empty() { Some(n) } else { None }
}

/// What a line with this text says, which is without its newline. None where it is no line of a log and no last line.
pub fn said_in(text: Stretch) -> Option<Said>
    ensures { MatchOption result (IsNeither text.entry) (λ s. Says s text.entry) }
{
    let mut words = Words::of(text);
    let first = words.next()?;
    if is_same(first, b"end") {
        return Some(Said::End(end_of(&mut words)?));
    }
    let mark = mark_of(first)?;
    Some(Said::Entry(line_of(mark, &mut words)?))
}
