//! How far the parts of comments, names, numbers and quoted texts go.

ghost use Rattle.std.specs.Prelude.{◌≡◌, ◌≢◌, ◌+◌, ◌<◌, ◌≤◌, ◌==◌, ◌||◌, codes, length, drop, slice_index, if◌then◌else◌, IfSome, IfNone, IsTrue, false};
ghost use Rattle.std.specs.Option.{option_map};
ghost use Rattle.std.specs.List.{prefix_len};
ghost use Rattle.std.specs.Char.{is_ascii_alphanumeric, is_ascii_digit};
ghost use Rattle.unicode_ident.specs.Ident.{is_xid_continue};
ghost use Rattle.gql_lexer.specs.Lengths.{begins, line_length, block_length, quoted_length, first_passes, first_size, may_start, continue_length, name_length};

/// How many bytes stand before the next line feed, or before the end.
#[inline(never)]
pub fn line_length(rest: &[u8]) -> usize
    ensures value { result ≡ line_length rest.now }
    ensures bounds { result ≤ length rest.now }
{
    for (at, byte) in rest.iter().enumerate() {
        if *byte == b'\n' {
            return at;
        }
    }
    rest.len()
}

/// How many digits stand at the front.
pub fn digits_length(rest: &[u8]) -> usize
    ensures value { result ≡ prefix_len is_ascii_digit rest.now }
    ensures bounds { result ≤ length rest.now }
{
    for (at, byte) in rest.iter().enumerate() {
        if !byte.is_ascii_digit() {
            return at;
        }
    }
    rest.len()
}

/// How many bytes stand before the first `*/`.
#[inline(never)]
pub fn block_length(rest: &[u8]) -> Option<usize>
    ensures value { result ≡ block_length rest.now }
    ensures bounds { IfSome result (λ n. n + 2 ≤ length rest.now) }
{
    let mut at = 0;
    while at < rest.len() {
        if closes_block(&rest[at..]) {
            return Some(at);
        }
        at += 1;
    }
    None
}

/// Whether the bytes begin with `*/`.
fn closes_block(rest: &[u8]) -> bool
    ensures value { result ≡ begins (codes "*/") rest.now }
    ensures bounds { IsTrue result → 2 ≤ length rest.now }
{
    rest.len() > 1 && rest[0] == b'*' && rest[1] == b'/'
}

/// How many bytes stand before the closing quote. A backslash takes the next byte with it, and a doubled quote closes
/// nothing.
#[inline(never)]
pub fn quoted_length(rest: &[u8], quote: u8) -> Option<usize>
    requires { quote ≢ 92 }
    ensures value { result ≡ quoted_length quote rest.now }
    ensures bounds { IfSome result (λ n. n + 1 ≤ length rest.now) }
{
    let mut at = 0;
    while at < rest.len() {
        match quoted_part(&rest[at..], quote) {
            Some(size) => at += size,
            None => return if rest[at] == quote { Some(at) } else { None },
        }
    }
    None
}

/// How many bytes belong together at the front of a quoted text: one, or two behind a backslash and at a doubled quote.
/// None where the text is closed, and at a backslash with nothing behind it.
fn quoted_part(rest: &[u8], quote: u8) -> Option<usize>
    requires some_bytes { 0 < length rest.now }
    requires no_backslash { quote ≢ 92 }
    ensures bounds { IfSome result (λ n. (0 < n) × (n ≤ length rest.now)) }
    ensures goes_on { IfSome result (λ n. quoted_length quote rest.now ≡ option_map (λ m. m + n) (quoted_length quote (drop n rest.now))) }
    ensures ends { IfNone result (quoted_length quote rest.now ≡ (if slice_index rest.now 0 == quote then Some 0 else None)) }
{
    let byte = rest[0];
    if byte == b'\\' {
        return if rest.len() > 1 { Some(2) } else { None };
    }
    if byte != quote {
        return Some(1);
    }
    if rest.len() > 1 && rest[1] == quote {
        Some(2)
    } else {
        None
    }
}

/// How many bytes the name takes that stands at the front.
#[inline(never)]
pub fn name_length(rest: &[u8]) -> Option<usize>
    ensures value { result ≡ name_length rest.now }
    ensures bounds { IfSome result (λ n. (0 < n) × (n ≤ length rest.now)) }
{
    match starting(rest) {
        Some(size) => Some(continue_length(rest, size)),
        None => None,
    }
}

/// How many bytes the first character takes if a name may begin with it.
fn starting(rest: &[u8]) -> Option<usize>
    ensures value { result ≡ (if first_passes may_start rest.now then Some (first_size rest.now) else None) }
    ensures bounds { IfSome result (λ n. (0 < n) × (n ≤ length rest.now)) }
{
    match bstr::decode_utf8(rest) {
        (Some(first), size) => { if may_start(first) { Some(size) } else { None } }
        (None, _) => None,
    }
}

/// Whether a name may begin with the character.
fn may_start(first: char) -> bool
    ensures { result ≡ may_start first }
{
    unicode_ident::is_xid_start(first) | (first == '_')
}

/// Whether an ASCII byte may go on with a name.
fn may_continue(byte: u8) -> bool
    ensures { result ≡ (is_ascii_alphanumeric byte || (byte == 95)) }
{
    byte.is_ascii_alphabetic() || byte.is_ascii_digit() || byte == b'_'
}

/// How many bytes the first character takes if it may go on with a name.
fn continuing(rest: &[u8]) -> Option<usize>
    ensures value { result ≡ (if first_passes is_xid_continue rest.now then Some (first_size rest.now) else None) }
    ensures bounds { IfSome result (λ n. (0 < n) × (n ≤ length rest.now)) }
{
    match bstr::decode_utf8(rest) {
        (Some(first), size) => {
            if unicode_ident::is_xid_continue(first) {
                Some(size)
            } else {
                None
            }
        }
        (None, _) => None,
    }
}

/// How many bytes a name takes whose first character takes so many.
#[inline(never)]
pub fn continue_length(rest: &[u8], first: usize) -> usize
    requires { first ≤ length rest.now }
    ensures value { result ≡ continue_length first rest.now }
    ensures bounds { (first ≤ result) × (result ≤ length rest.now) }
{
    let at = ascii_end(rest, first);
    if at == rest.len() {
        return at;
    }
    if rest[at] < 128 {
        return at;
    }
    continue_beyond(rest, at)
}

/// Where the ASCII characters end that go on with a name from a place on.
fn ascii_end(rest: &[u8], first: usize) -> usize
    requires { first ≤ length rest.now }
    ensures bounds { (first ≤ result) × (result ≤ length rest.now) }
    ensures value { continue_length result rest.now ≡ continue_length first rest.now }
    ensures ends { result < length rest.now → (is_ascii_alphanumeric (slice_index rest.now result) || (slice_index rest.now result == 95)) ≡ false }
{
    let mut at = first;
    while at < rest.len() {
        if !may_continue(rest[at]) {
            return at;
        }
        at += 1;
    }
    at
}

/// The same as `continue_length`, each character by itself.
#[inline(never)]
fn continue_beyond(rest: &[u8], first: usize) -> usize
    requires { first ≤ length rest.now }
    ensures value { result ≡ continue_length first rest.now }
    ensures bounds { (first ≤ result) × (result ≤ length rest.now) }
{
    let mut at = first;
    while at < rest.len() {
        match continuing(&rest[at..]) {
            Some(size) => at += size,
            None => return at,
        }
    }
    at
}
