// The cut, and the count of lines.

ghost use Rattle.std.specs.Prelude.{◌≡◌, ◌≢◌, ◌<◌, ◌≤◌, All, count_by, drop, length, nat_eq, take};
ghost use Rattle.text_limits.specs.Limits.{AreClosed, IsFrontOf};

// How many of the bytes stand before the last line, which has no newline: they end with the last newline.
fn closed_length(bytes: &[u8]) -> usize
    ensures fits { result ≤ length bytes.now }
    ensures closed { AreClosed (take result bytes.now) }
    ensures line { All (λ b. b ≢ 10) (drop result bytes.now) }
{
    let mut at = bytes.len();
    while at > 0 && bytes[at - 1] != b'\n' {
        at -= 1;
    }
    at
}

/// How many newlines there are.
pub fn newlines(bytes: &[u8]) -> u32
    requires { length bytes.now < u32.MAX }
    ensures { result ≡ count_by (λ b. nat_eq b 10) bytes.now }
{
    let mut count = 0;
    for byte in bytes {
        if *byte == b'\n' {
            count += 1;
        }
    }
    count
}

/// Of a text that has more bytes than a limit, the lines before the one that holds the first byte behind it.
pub fn front_of(bytes: &[u8], most: usize) -> &[u8]
    requires { most < length bytes.now }
    ensures { IsFrontOf most bytes.now result.now }
{
    &bytes[..closed_length(&bytes[..most])]
}
