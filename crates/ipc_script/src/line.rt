//! The lines of a script.

ghost use Rattle.std.specs.Prelude.{◌≡◌, ◌<◌, ◌≤◌, ◌+◌, ◌==◌, [], ◌∷◌, length, position, option_map};
ghost use Rattle.ipc_script.specs.Line.{line_of, lines_of, words_of, line_of_words};
ghost use Rattle.ipc_script.specs.Line.{moment_of, conn_of};
ghost use Rattle.ipc_script.specs.Relations.Lines.{plain_line, words_after};

use crate::digits::Hex;

/// A line, with its connection and its moment. The moment of `open` means nothing, and is not kept.
#[derive(Clone, Copy)]
pub enum Line<'a> {
    Open {
        conn: u32,
    },
    Data {
        moment: u64,
        conn: u32,
        hex: Hex<'a>,
    },
    End {
        moment: u64,
        conn: u32,
    },
    Tick {
        moment: u64,
    },
    Save,
    Stop,
}

/// The line that a text is: `M open C`, `M data C HEX`, `M end C`, `M tick`, `save` or `stop`, its
/// words parted by one space each; M and C are digits alone, within their types.
pub fn line_of(text: &[u8]) -> Option<Line<'_>>
    ensures { option_map plain_line result ≡ line_of text.now }
{
    let (first, rest) = word(text);
    let Some(rest) = rest else {
        return one_word(first);
    };
    let (second, rest) = word(rest);
    let Some(rest) = rest else {
        return two_words(first, second);
    };
    let (third, rest) = word(rest);
    let Some(rest) = rest else {
        return three_words(first, second, third);
    };
    let (fourth, rest) = word(rest);
    match rest {
        None => four_words(first, second, third, fourth),
        Some(_) => None,
    }
}

/// `save` or `stop`.
fn one_word<'a>(verb: &[u8]) -> Option<Line<'a>>
    ensures { option_map plain_line result ≡ line_of_words (verb.now ∷ []) }
{
    if verb == b"save".as_slice() {
        Some(Line::Save)
    } else if verb == b"stop".as_slice() {
        Some(Line::Stop)
    } else {
        None
    }
}

/// `M tick`.
fn two_words<'a>(moment: &[u8], verb: &[u8]) -> Option<Line<'a>>
    ensures { option_map plain_line result ≡ line_of_words (moment.now ∷ verb.now ∷ []) }
{
    if verb != b"tick".as_slice() {
        return None;
    }
    let moment = number(moment)?;
    Some(Line::Tick { moment })
}

/// `M open C` or `M end C`.
fn three_words<'a>(moment: &[u8], verb: &[u8], conn: &[u8]) -> Option<Line<'a>>
    ensures { option_map plain_line result ≡ line_of_words (moment.now ∷ verb.now ∷ conn.now ∷ []) }
{
    let moment = number(moment)?;
    let conn = conn_number(conn)?;
    if verb == b"open".as_slice() {
        Some(Line::Open { conn })
    } else if verb == b"end".as_slice() {
        Some(Line::End { moment, conn })
    } else {
        None
    }
}

/// `M data C HEX`.
fn four_words<'a>(moment: &[u8], verb: &[u8], conn: &[u8], hex: &'a [u8]) -> Option<Line<'a>>
    ensures { option_map plain_line result
        ≡ line_of_words (moment.now ∷ verb.now ∷ conn.now ∷ hex.now ∷ []) }
{
    if verb != b"data".as_slice() {
        return None;
    }
    let moment = number(moment)?;
    let conn = conn_number(conn)?;
    let hex = Hex::new(hex)?;
    Some(Line::Data { moment, conn, hex })
}

/// The bytes up to the first space, and those after it if there is one.
fn word(text: &[u8]) -> (&[u8], Option<&[u8]>)
    ensures { words_of text.now ≡ result.0.now ∷ words_after result.1 }
{
    match place_of(b' ', text) {
        Some(space) => (&text[..space], Some(&text[space + 1..])),
        None => (text, None),
    }
}

/// The number that the bytes spell, if they are digits alone and it is below 2^64.
fn number(digits: &[u8]) -> Option<u64>
    ensures { result ≡ moment_of digits.now }
{
    if digits.is_empty() {
        return None;
    }
    let mut number: u64 = 0;
    for digit in digits {
        if !digit.is_ascii_digit() {
            return None;
        }
        number = number
            .checked_mul(10)?
            .checked_add(u64::from(*digit - b'0'))?;
    }
    Some(number)
}

/// The number of a connection, below 2^32.
fn conn_number(digits: &[u8]) -> Option<u32>
    ensures { result ≡ conn_of digits.now }
{
    u32::try_from(number(digits)?).ok()
}

/// The first line, and what stands after its newline.
pub fn first_line(text: &[u8]) -> (&[u8], &[u8])
    requires { 0 < length text.now }
    ensures lines { lines_of text.now ≡ result.0.now ∷ lines_of result.1.now }
    ensures shorter { length result.1.now < length text.now }
    ensures parts { length result.0.now + length result.1.now ≤ length text.now }
{
    match place_of(b'\n', text) {
        Some(end) => (&text[..end], &text[end + 1..]),
        None => (text, &[]),
    }
}

/// The place of the first such byte.
fn place_of(byte: u8, text: &[u8]) -> Option<usize>
    ensures { result ≡ position (λ other. other == byte) text.now }
{
    text.iter().position(|other| *other == byte)
}
