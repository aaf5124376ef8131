// Pieces of text.

ghost use Rattle.std.specs.Prelude.{◌≡◌, [], ◌∷◌, ◌++◌, decimal, OnOk};
ghost use Rattle.picture_text.specs.Texts.{named, quoted, quoted_byte};

use itoa::Buffer;
use std::alloc::AllocError;

/// Puts a piece last.
pub(crate) fn put(piece: &[u8], text: &mut Vec<u8>) -> Result<(), AllocError>
    ensures { OnOk result (text.new.items ≡ text.old.items ++ piece.now) }
{
    text.extend_from_slice(piece)
}

/// Puts a byte last.
pub(crate) fn put_byte(b: u8, text: &mut Vec<u8>) -> Result<(), AllocError>
    ensures { OnOk result (text.new.items ≡ text.old.items ++ b ∷ []) }
{
    text.push(b)?;
    Ok(())
}

/// Puts a number last.
pub(crate) fn put_number(n: u64, text: &mut Vec<u8>) -> Result<(), AllocError>
    ensures { OnOk result (text.new.items ≡ text.old.items ++ decimal n) }
{
    let mut buffer = Buffer::new();
    text.extend_from_slice(buffer.format(n).as_bytes())
}

/// Puts a letter and a number last.
pub(crate) fn put_named(letter: u8, n: u32, text: &mut Vec<u8>) -> Result<(), AllocError>
    ensures { OnOk result (text.new.items ≡ text.old.items ++ named letter n) }
{
    put_byte(letter, text)?;
    put_number(n as u64, text)?;
    Ok(())
}

// Puts a byte last, with a backslash before it.
fn put_escaped(b: u8, text: &mut Vec<u8>) -> Result<(), AllocError>
    ensures { OnOk result (text.new.items ≡ text.old.items ++ (92 ∷ b ∷ [])) }
{
    put_byte(b'\\', text)?;
    put_byte(b, text)?;
    Ok(())
}

// Puts a byte last that stands between quotes.
fn put_quoted_byte(b: u8, text: &mut Vec<u8>) -> Result<(), AllocError>
    ensures { OnOk result (text.new.items ≡ text.old.items ++ quoted_byte b) }
{
    if b == b'"' || b == b'\\' {
        return put_escaped(b, text);
    }
    put_byte(b, text)
}

/// Puts bytes last that stand between quotes: a quote and a backslash get a backslash before them.
pub(crate) fn put_quoted(bytes: &[u8], text: &mut Vec<u8>) -> Result<(), AllocError>
    ensures { OnOk result (text.new.items ≡ text.old.items ++ quoted bytes.now) }
{
    for b in bytes {
        put_quoted_byte(*b, text)?;
    }
    Ok(())
}
