ghost use Rattle.std.specs.Prelude.{◌≡◌, ◌≤◌, ◌<◌, length, drop, true, IfSome};
ghost use Rattle.std.specs.List.{prefix_len};
ghost use Rattle.std.specs.Char.{is_ascii_alphabetic};
ghost use Rattle.tstp_read.specs.Lines.{is_space, is_sign, is_inside_line, behind_spaces, behind_some_spaces, said, goes_on_with, line_with, is_proved, letters, status_of, succeeds, behind_line, part_of};

use bstr::ByteSlice;

/// A range of places, the last one excluded.
#[derive(Clone, Copy, Debug, Drop, PartialEq, Eq)]
pub struct Span {
    pub from: usize,
    pub to: usize,
}

const STATUS: &[u8] = b"SZS status ";

const START: &[u8] = b"SZS output start";

const END: &[u8] = b"SZS output end";

fn is_space_byte(byte: u8) -> bool
    ensures { result ≡ is_space byte }
{
    byte == b' ' || byte == b'\t'
}

/// Whether the byte begins a comment or the mark of a line: `%` or `#`.
pub fn is_sign_byte(byte: u8) -> bool
    ensures { result ≡ is_sign byte }
{
    byte == b'%' || byte == b'#'
}

/// The number of bytes before the end of the line.
pub fn line_len(text: &[u8]) -> usize
    ensures value { result ≡ prefix_len is_inside_line text.now }
    ensures within { result ≤ length text.now }
{
    match text.find_byte(b'\n') {
        Some(at) => at,
        None => text.len(),
    }
}

/// What stands from a place on.
pub fn rest_at(text: &[u8], at: usize) -> &[u8]
    requires { at ≤ length text.now }
    ensures { result.now ≡ drop at text.now }
{
    &text[at..]
}

fn spaces_len(text: &[u8]) -> usize
    ensures value { result ≡ prefix_len is_space text.now }
    ensures within { result ≤ length text.now }
{
    text.iter().take_while(|b| is_space_byte(**b)).count()
}

fn skip_spaces(text: &[u8]) -> &[u8]
    ensures { result.now ≡ behind_spaces text.now }
{
    &text[spaces_len(text)..]
}

fn skip_some_spaces(text: &[u8]) -> &[u8]
    ensures { result.now ≡ behind_some_spaces text.now }
{
    match text {
        [first, rest @ ..] if is_space_byte(*first) => skip_spaces(rest),
        _ => &[],
    }
}

/// What the line at the front goes on with behind its mark, or nothing.
fn said_by(text: &[u8]) -> &[u8]
    ensures { result.now ≡ said text.now }
{
    match skip_spaces(text) {
        [first, rest @ ..] if is_sign_byte(*first) => skip_some_spaces(rest),
        _ => &[],
    }
}

fn is_said(words: &[u8], text: &[u8]) -> bool
    ensures { result ≡ goes_on_with words.now text.now }
{
    said_by(text).starts_with(words)
}

/// The place of the first line, from a line's beginning on, that is marked and goes on with the words.
fn find_line(words: &[u8], text: &[u8], from: usize) -> Option<usize>
    requires { from ≤ length text.now }
    ensures value { result ≡ line_with words.now true from (drop from text.now) }
    ensures within { IfSome result (λ at. (from ≤ at) × (at < length text.now)) }
{
    let mut at = from;
    'lines: while at < text.len() {
        let rest = rest_at(text, at);
        if is_said(words, rest) {
            return Some(at);
        }
        let len = line_len(rest);
        if len == rest.len() {
            return None;
        }
        at += len + 1;
    }
    None
}

fn letters_len(text: &[u8]) -> usize
    ensures value { result ≡ prefix_len is_ascii_alphabetic text.now }
    ensures within { result ≤ length text.now }
{
    text.iter().take_while(|b| b.is_ascii_alphabetic()).count()
}

fn letters_of(text: &[u8]) -> &[u8]
    ensures { result.now ≡ letters text.now }
{
    &text[..letters_len(text)]
}

fn is_proof_status(status: &[u8]) -> bool
    ensures { result ≡ is_proved status.now }
{
    status == b"Theorem".as_slice()
        || status == b"Unsatisfiable".as_slice()
        || status == b"ContradictoryAxioms".as_slice()
}

fn behind_words(text: &[u8], len: usize) -> &[u8]
    ensures { result.now ≡ drop len text.now }
{
    if len <= text.len() { &text[len..] } else { &[] }
}

fn has_proof_status(line: &[u8]) -> bool
    ensures { result ≡ status_of line.now }
{
    is_proof_status(letters_of(behind_words(said_by(line), STATUS.len())))
}

/// Whether the first line that tells a status tells that of a proof.
pub fn has_succeeded(text: &[u8]) -> bool
    ensures { result ≡ succeeds text.now }
{
    match find_line(STATUS, text, 0) {
        None => false,
        Some(at) => has_proof_status(rest_at(text, at)),
    }
}

/// Where the proof part stands: between the line that starts it and the one that ends it.
pub fn proof_part(text: &[u8]) -> Option<Span>
    ensures value { result ≡ part_of text.now }
    ensures within { IfSome result (λ part. (part.from ≤ part.to) × (part.to ≤ length text.now)) }
{
    let start = find_line(START, text, 0)?;
    let len = line_len(rest_at(text, start));
    if start + len == text.len() {
        return None;
    }
    let from = start + len + 1;
    let to = find_line(END, text, from)?;
    Some(Span { from, to })
}
