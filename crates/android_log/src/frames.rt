// Frames of a stack.

ghost use Rattle.std.specs.Prelude.{◌≡◌, ◌<◌, ◌≤◌, None, Some, MatchOption, length};
ghost use Rattle.android_log.specs.Frames.{before_end, ends_name, frame_of, is_end, is_runtimes, name_len, name_of};
ghost use Rattle.android_log.specs.Frames.{trimmed_len};

use crate::parts::{after, spaces};

/// The frame's text, of a line that is one.
#[inline(always)]
pub fn frame_of(line: &[u8]) -> Option<&[u8]>
    ensures { MatchOption result (frame_of line.now ≡ None) (λ r. frame_of line.now ≡ Some r.now) }
{
    let count = spaces(line);
    if count == 0 {
        return None;
    }
    after(&line[count..], b"at ")
}

// Whether an offset or a file begins here.
fn ends_name(text: &[u8]) -> bool
    ensures { result ≡ ends_name text.now }
{
    text.starts_with(b" [0x") || text.starts_with(b" in ")
}

// Whether a name ends here.
fn is_end(text: &[u8]) -> bool
    requires { 0 < length text.now }
    ensures { result ≡ is_end text.now }
{
    text[0] == b'(' || (text[0] == b' ' && ends_name(text))
}

// How many bytes stand before its end.
fn before_end(text: &[u8]) -> usize
    ensures is { result ≡ before_end text.now }
    ensures within { result ≤ length text.now }
{
    for at in 0..text.len() {
        if is_end(&text[at..]) {
            return at;
        }
    }
    text.len()
}

// How many bytes a name has, with the spaces at its end.
fn name_len(text: &[u8]) -> usize
    ensures is { result ≡ name_len text.now }
    ensures within { result ≤ length text.now }
{
    if text.is_empty() || (text[0] == b' ' && ends_name(text)) {
        return 0;
    }
    before_end(&text[1..]) + 1
}

// How many bytes there are without the spaces at the end.
fn trimmed_len(text: &[u8]) -> usize
    ensures is { result ≡ trimmed_len text.now }
    ensures within { result ≤ length text.now }
{
    let mut len = 0;
    for (i, b) in text.iter().enumerate() {
        if *b != b' ' {
            len = i + 1;
        }
    }
    len
}

/// The name in a frame's text.
pub fn name_of(text: &[u8]) -> &[u8]
    ensures { result.now ≡ name_of text.now }
{
    let name = &text[..name_len(text)];
    &name[..trimmed_len(name)]
}

/// Whether a frame with that name is the runtime's own.
pub fn is_runtimes(name: &[u8]) -> bool
    ensures { result ≡ is_runtimes name.now }
{
    name.starts_with(b"Android.Runtime.AndroidObjectReferenceManager.")
        || name.starts_with(b"Android.Runtime.AndroidValueManager.")
        || name.starts_with(b"Android.Runtime.JNIEnv.")
        || name.starts_with(b"Android.Runtime.JNINativeWrapper.")
        || name.starts_with(b"Java.Interop.")
        || name.starts_with(b"Java.Lang.Object.")
        || name.starts_with(b"Java.Lang.Throwable.")
        || name.starts_with(b"System.")
        || name.starts_with(b"Microsoft.Android.Runtime.")
        || name.starts_with(b"(wrapper")
}
