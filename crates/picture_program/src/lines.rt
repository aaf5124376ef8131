// The lines of bytes.

ghost use Rattle.std.specs.Prelude.{◌≡◌};
ghost use Rattle.picture_program.specs.Lines.{after_line, after_lines, first_line, line_at};

use text_words::first_place_far;

// The bytes up to the first newline.
fn first_line(bytes: &[u8]) -> &[u8]
    ensures { result.now ≡ first_line bytes.now }
{
    let end = first_place_far(bytes, b'\n');
    &bytes[..end]
}

// The bytes behind it.
fn after_line(bytes: &[u8]) -> &[u8]
    ensures { result.now ≡ after_line bytes.now }
{
    let end = first_place_far(bytes, b'\n');
    if end < bytes.len() {
        return &bytes[end + 1..];
    }
    &[]
}

// The bytes behind the first n lines.
fn after_lines(bytes: &[u8], n: u64) -> &[u8]
    ensures { result.now ≡ after_lines n bytes.now }
{
    let mut rest = bytes;
    for i in 0..n {
        let _line = i;
        rest = after_line(rest);
    }
    rest
}

/// Line n of the bytes, counted from 0, without its newline.
pub(crate) fn line_at(bytes: &[u8], n: u64) -> &[u8]
    ensures { result.now ≡ line_at n bytes.now }
{
    first_line(after_lines(bytes, n))
}
