//! What may stand between tokens, and where words end.

ghost use Rattle.std.specs.Prelude.{◌≡◌, ◌≤◌, length, drop, true};
ghost use Rattle.json.specs.Lex.{between, lex};
ghost use Rattle.json.specs.Word.{is_space};
ghost use Rattle.jp_flat.specs.Private.Tokens.{EndsWhole, ends_byte};

/// The first offset from this one on that holds no blank (RFC 8259 section 2).
#[inline(always)]
pub(crate) fn past_blanks(bytes: &[u8], from: usize) -> usize
    requires { from ≤ length bytes.now }
    ensures same { lex between (drop result bytes.now) ≡ lex between (drop from bytes.now) }
    ensures within { result ≤ length bytes.now }
{
    if from < bytes.len() && bytes[from] > b' ' {
        return from;
    }
    past_blanks_slowly(bytes, from)
}

/// The first offset from this one on that holds no blank, looked for byte by byte.
fn past_blanks_slowly(bytes: &[u8], from: usize) -> usize
    requires { from ≤ length bytes.now }
    ensures same { lex between (drop result bytes.now) ≡ lex between (drop from bytes.now) }
    ensures within { result ≤ length bytes.now }
{
    let mut at = from;
    'blanks: while at < bytes.len() && is_blank(bytes[at]) {
        at += 1;
    }
    at
}

/// Whether a blank stands there (RFC 8259 section 2).
#[inline(always)]
pub(crate) fn is_blank(byte: u8) -> bool
    ensures { result ≡ is_space byte }
{
    byte == b' ' || byte == b'\t' || byte == b'\n' || byte == b'\r'
}

/// Whether a whole number may end before this offset: it is none where a point or an exponent
/// follows.
#[inline(always)]
pub(crate) fn ends_whole(bytes: &[u8], at: usize) -> bool
    requires { at ≤ length bytes.now }
    ensures { result ≡ true → EndsWhole (drop at bytes.now) }
{
    if at == bytes.len() {
        return true;
    }
    ends_before(bytes[at])
}

/// Whether a whole number may end before this byte: a comma, a `}`, a `]` or a blank.
#[inline(always)]
fn ends_before(byte: u8) -> bool
    ensures { result ≡ ends_byte byte }
{
    byte == b',' || byte == b'}' || byte == b']' || is_blank(byte)
}
