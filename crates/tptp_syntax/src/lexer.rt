ghost use Rattle.std.specs.Prelude.{◌≡◌, ◌≤◌, ◌<◌, ◌^◌, ◌++◌, length, drop, false, IfOk, IfSome, OnOk};
ghost use Rattle.tptp_syntax.specs.Tokens.{unescaped, known_words, lexed as lexed_of};
ghost use Rattle.tptp_syntax.specs.inner.Fronts.{FrontFits, pushed, put_front, front_len};

use crate::Tok;
use crate::front::{Front, look};
use crate::words::Words;
use std::alloc::Global;
use text_kit::{NoMemory, Rows};

/// The tokens of a text, the places of their first bytes, and what its names say.
#[derive(Drop)]
pub(crate) struct Lexed {
    pub tokens: Rows<Tok>,
    pub places: Rows<u64>,
    pub words: Words,
}

fn bytes_of(alloc: Global, text: &[u8]) -> Result<Vec<u8>, NoMemory>
    ensures { IfOk result (λ word. word.items ≡ text.now) }
{
    match Vec::from_slice(alloc, text) {
        Ok(word) => Ok(word),
        Err(_) => Err(NoMemory),
    }
}

/// What a name in quotes says: a backslash takes the next byte as it is.
fn without_escapes(alloc: Global, bytes: &[u8]) -> Result<Vec<u8>, NoMemory>
    ensures { IfOk result (λ word. word.items ≡ unescaped false bytes.now) }
{
    let mut out = Vec::new(alloc);
    let mut escaped = false;
    for byte in bytes {
        if !escaped && *byte == b'\\' {
            escaped = true;
        } else {
            match out.push(*byte) {
                Ok(()) => escaped = false,
                Err(_) => return Err(NoMemory),
            }
        }
    }
    Ok(out)
}

/// The names with numbers that the grammar knows.
fn first_words(alloc: Global) -> Result<Words, NoMemory>
    ensures { IfOk result (λ words. words ≡ known_words) }
{
    let mut words = Words::begin(alloc);
    let _ = words.number(bytes_of(alloc, b"fof".as_slice())?)?;
    let _ = words.number(bytes_of(alloc, b"cnf".as_slice())?)?;
    let _ = words.number(bytes_of(alloc, b"conjecture".as_slice())?)?;
    Ok(words)
}

/// The number of bytes of what stands at the front.
fn len_of(front: Front) -> Option<usize>
    ensures { result ≡ front_len front }
{
    match front {
        Front::Gap(len) => Some(len),
        Front::Sign(_, len) => Some(len),
        Front::Lower(len) => Some(len),
        Front::Quoted(len) => Some(len),
        Front::Upper(len) => Some(len),
        Front::Nothing => None,
    }
}

impl Lexed {
    fn push(&mut self, at: usize, tok: Tok) -> Result<(), NoMemory>
        ensures { OnOk result (self.new ≡ pushed self.old at tok self.old.words) }
    {
        self.tokens.push(tok)?;
        self.places.push(at as u64)
    }

    /// Appends the token at the front of a text that begins at this place.
    fn put(&mut self, alloc: Global, at: usize, text: &[u8], front: Front) -> Result<(), NoMemory>
        requires { FrontFits (length text.now) front }
        ensures { OnOk result (self.new ≡ put_front self.old at text.now front) }
    {
        match front {
            Front::Gap(_) => Ok(()),
            Front::Sign(tok, _) => self.push(at, tok),
            Front::Lower(len) => {
                let name = self.words.number(bytes_of(alloc, &text[..len])?)?;
                self.push(at, Tok::Name(false, name))
            }
            Front::Quoted(len) => {
                let name = self
                    .words
                    .number(without_escapes(alloc, &text[1..len - 1])?)?;
                self.push(at, Tok::Name(true, name))
            }
            Front::Upper(len) => {
                let name = self.words.number(bytes_of(alloc, &text[..len])?)?;
                self.push(at, Tok::Upper(name))
            }
            Front::Nothing => self.push(at, Tok::Bad),
        }
    }
}

/// The text from a place on.
fn rest_at(text: &[u8], at: usize) -> &[u8]
    requires { at ≤ length text.now }
    ensures { result.now ≡ drop at text.now }
{
    &text[at..]
}

/// Cuts a text into tokens. A byte that begins none is the last of them.
pub(crate) fn lex(alloc: Global, text: &[u8]) -> Result<Lexed, NoMemory>
    requires { length text.now < 2 ^ 63 }
    ensures { IfOk result (λ l. l ≡ lexed_of text.now) }
{
    let mut lexed = Lexed {
        tokens: Rows::begin(alloc),
        places: Rows::begin(alloc),
        words: first_words(alloc)?,
    };
    let mut at = 0;
    'pieces: while at < text.len() {
        let rest = rest_at(text, at);
        let front = look(rest);
        lexed.put(alloc, at, rest, front)?;
        match len_of(front) {
            Some(len) => at += len,
            None => return Ok(lexed),
        }
    }
    Ok(lexed)
}
