//! Kinds of characters, and the texts of marks and reserved words.

ghost use Rattle.std.specs.Prelude.{◌≡◌, ◌≤◌};
ghost use Rattle.std.specs.List.{list_any};
ghost use Rattle.std.specs.Str.{bytes_eq};
ghost use Rattle.erl_tree.specs.Lexis as lexis;
ghost use Rattle.erl_lexer.specs.Scan as scan;

/// Whether the character is one of `a` to `z`.
pub(crate) fn is_lower(c: u8) -> bool
    ensures { result ≡ lexis.is_lower c }
{
    97 <= c && c <= 122
}

/// Whether the character is one of `0` to `9`.
pub(crate) fn is_digit(c: u8) -> bool
    ensures { result ≡ lexis.is_digit c }
{
    48 <= c && c <= 57
}

/// Whether the character is one of `A` to `Z`, or the underscore.
pub(crate) fn is_upper(c: u8) -> bool
    ensures { result ≡ lexis.is_upper c }
{
    (65 <= c && c <= 90) || c == 95
}

/// Whether the character is a digit of this base. A letter of either case is 10 and more.
pub(crate) fn is_digit_of(base: u128, c: u8) -> bool
    requires { base ≤ 36 }
    ensures { result ≡ lexis.is_digit_of base c }
{
    let code = c as u128;
    (is_digit(c) && code + 1 <= 48 + base)
        || (97 <= code && code + 11 <= 97 + base && is_lower(c))
        || (65 <= code && code + 11 <= 65 + base && code <= 90)
}

/// Whether a name may go on with the character.
pub(crate) fn is_name(c: u8) -> bool
    ensures { result ≡ lexis.is_name c }
{
    is_lower(c) || (is_digit(c) || (is_upper(c) || c == 64))
}

/// Whether the character is white space.
pub(crate) fn is_white(c: u8) -> bool
    ensures { result ≡ lexis.is_white c }
{
    c == 32 || (9 <= c && c <= 13)
}

/// Whether the byte stands in a character's UTF-8 after the first one.
pub(crate) fn is_continuation(c: u8) -> bool
    ensures { result ≡ scan.is_continuation c }
{
    128 <= c && c <= 191
}

/// Whether the character may follow a backslash.
pub(crate) fn is_escape(c: u8) -> bool
    ensures { result ≡ lexis.is_escape c }
{
    b"nrtsbdefv\\'\"".as_slice().iter().any(|d| c == *d)
}

/// The character that an escape stands for: line feed, return, tab, space, backspace, delete,
/// escape, form feed, vertical tab, or the character itself.
pub(crate) fn escape_value(c: u8) -> u8
    ensures { result ≡ lexis.escape_value c }
{
    match c {
        b'n' => 10,
        b'r' => 13,
        b't' => 9,
        b's' => 32,
        b'b' => 8,
        b'd' => 127,
        b'e' => 27,
        b'f' => 12,
        b'v' => 11,
        _ => c,
    }
}

/// The value of a digit. A letter of either case is 10 and more.
pub(crate) fn digit_value(c: u8) -> u8
    ensures { result ≡ lexis.digit_value c }
{
    if is_digit(c) {
        c.saturating_sub(48)
    } else if is_lower(c) {
        c.saturating_sub(87)
    } else {
        c.saturating_sub(55)
    }
}

/// Whether a dot before this text ends a form: before white space, a comment and the end.
pub(crate) fn ends_form(follow: &[u8]) -> bool
    ensures { result ≡ lexis.ends_form follow.now }
{
    match follow {
        [] => true,
        [c, ..] => is_white(*c) || *c == 37,
    }
}

/// Whether the text is one of these.
fn is_among(text: &[u8], texts: &[&[u8]]) -> bool
    ensures { result ≡ list_any (λ one. bytes_eq text.now one.now) texts.now }
{
    texts.iter().any(|one| text == *one)
}

/// Whether the text is a mark.
pub(crate) fn is_mark(text: &[u8]) -> bool
    ensures { result ≡ lexis.is_mark text.now }
{
    is_among(
        text,
        &[
            b"(".as_slice(),
            b")".as_slice(),
            b"[".as_slice(),
            b"]".as_slice(),
            b"{".as_slice(),
            b"}".as_slice(),
            b",".as_slice(),
            b";".as_slice(),
            b":".as_slice(),
            b"::".as_slice(),
            b".".as_slice(),
            b"..".as_slice(),
            b"...".as_slice(),
            b"|".as_slice(),
            b"||".as_slice(),
            b"<-".as_slice(),
            b"->".as_slice(),
            b"=>".as_slice(),
            b":=".as_slice(),
            b"=".as_slice(),
            b"#".as_slice(),
            b"+".as_slice(),
            b"-".as_slice(),
            b"*".as_slice(),
            b"==".as_slice(),
            b"/=".as_slice(),
            b"=:=".as_slice(),
            b"=/=".as_slice(),
            b"<".as_slice(),
            b">".as_slice(),
            b"=<".as_slice(),
            b">=".as_slice(),
            b"++".as_slice(),
            b"/".as_slice(),
        ],
    )
}

/// Whether the text is one of the reserved words of Erlang (Erlang Reference Manual, "Reserved
/// Words").
pub fn is_reserved(text: &[u8]) -> bool
    ensures { result ≡ lexis.is_reserved text.now }
{
    is_among(
        text,
        &[
            b"after".as_slice(),
            b"and".as_slice(),
            b"andalso".as_slice(),
            b"band".as_slice(),
            b"begin".as_slice(),
            b"bnot".as_slice(),
            b"bor".as_slice(),
            b"bsl".as_slice(),
            b"bsr".as_slice(),
            b"bxor".as_slice(),
            b"case".as_slice(),
            b"catch".as_slice(),
            b"cond".as_slice(),
            b"div".as_slice(),
            b"else".as_slice(),
            b"end".as_slice(),
            b"fun".as_slice(),
            b"if".as_slice(),
            b"let".as_slice(),
            b"maybe".as_slice(),
            b"not".as_slice(),
            b"of".as_slice(),
            b"or".as_slice(),
            b"orelse".as_slice(),
            b"receive".as_slice(),
            b"rem".as_slice(),
            b"try".as_slice(),
            b"when".as_slice(),
            b"xor".as_slice(),
        ],
    )
}
