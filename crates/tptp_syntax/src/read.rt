ghost use Rattle.std.specs.Prelude.{◌≡◌, ◌<◌, ◌^◌, length, map, get_or, IfOk, MatchResult};
ghost use Rattle.tptp_syntax.specs.inner.Machine.{listed_of};
ghost use Rattle.tptp_syntax.specs.Reading.{said, statement_of, problem_of, IsProblem, IsRefused, SomeAnswer, OneAnswer, Answer, IsAnswer, Tells, Read};

use crate::lexer::{Lexed, lex};
use crate::names::Symbols;
use crate::reader::Reader;
use crate::walk::read_tokens;
use crate::words::Words;
use crate::{Claimed, Problem, Statement, TptpFault};
use first_fault::Fault;
use std::alloc::Global;
use text_kit::{Bytes, NoMemory, Rows};

/// What the symbols say, in order.
fn names_of(alloc: Global, words: &Words, symbols: &Symbols) -> Result<Rows<Bytes>, NoMemory>
    ensures { IfOk result (λ names. names ≡ map (said words.now) symbols.now) }
{
    let mut names = Rows::begin(alloc);
    for number in 0..symbols.len() {
        match symbols.at(number) {
            Some(name) => names.push(words.said(alloc, name)?)?,
            None => return Err(NoMemory),
        }
    }
    Ok(names)
}

/// The statements with their names written out.
fn statements_of(
    alloc: Global,
    words: &Words,
    claims: Rows<Claimed>,
) -> Result<Rows<Statement>, NoMemory>
    ensures { IfOk result (λ statements. statements ≡ map (statement_of words.now) claims) }
{
    let mut statements = Rows::begin(alloc);
    for claim in claims.into_vec() {
        let name = words.said(alloc, claim.name)?;
        statements.push(Statement {
            name,
            conjecture: claim.conjecture,
            formula: claim.formula,
        })?;
    }
    Ok(statements)
}

fn problem(alloc: Global, words: &Words, reader: Reader) -> Result<Problem, NoMemory>
    ensures { IfOk result (λ p. p ≡ problem_of words.now (listed_of reader)) }
{
    let names = names_of(alloc, words, &reader.symbols)?;
    let statements = statements_of(alloc, words, reader.done)?;
    Ok(Problem { names, statements })
}

/// The first byte of the token at a place, or the length of the text behind the last one.
fn first_byte(lexed: &Lexed, place: usize, end: u64) -> u64
    ensures { result ≡ get_or lexed.now.places place end }
{
    match lexed.places.get(place) {
        Some(at) => *at,
        None => end,
    }
}

fn read_text(alloc: Global, text: &[u8]) -> Result<Problem, TptpFault>
    requires { length text.now < 2 ^ 32 }
    ensures { MatchResult result (λ p. IsProblem text.now p) (λ e. IsRefused text.now e) }
{
    let Ok(lexed) = lex(alloc, text) else {
        return Err(TptpFault::NoMemory);
    };
    match read_tokens(alloc, lexed.tokens.as_slice()) {
        Ok(reader) => match problem(alloc, &lexed.words, reader) {
            Ok(whole) => Ok(whole),
            Err(_) => Err(TptpFault::NoMemory),
        },
        Err(Fault::Syntax(place)) => Err(TptpFault::BadText {
            at: first_byte(&lexed, place, text.len() as u64),
        }),
        Err(Fault::TooDeep(place)) => Err(TptpFault::BadText {
            at: first_byte(&lexed, place, text.len() as u64),
        }),
        Err(Fault::NoMemory) => Err(TptpFault::NoMemory),
    }
}

/// Reads a problem in the first-order form of TPTP: `fof` and `cnf` statements with any role and optional further parts.
///
/// The grammar is Sutcliffe's (the TPTP syntax, version 9), without numbers, distinct objects, `include`, types and words with `$`
/// other than `$true` and `$false`. Symbols are numbered by first occurrence in formulas, a quoted name as the same word without
/// quotes; a variable's number is the number of quantifiers around its binder. The variables of a `cnf` statement are bound around it
/// in the order of first occurrence.
///
/// A fault names the first byte of the first token, or the first byte that begins none, at which no problem goes on, or the text's
/// length. The 4,097th bracket that is open is such a token, and so is the role of a second conjecture. A formula whose tree has more
/// than 5,000 levels, by chains of `~`, quantifiers or `&`, is want of memory: what walks down it needs the machine's stack.
pub fn read_problem(alloc: Global, text: &[u8]) -> Result<Problem, TptpFault>
    requires { length text.now < 2 ^ 32 }
    // What is read is the text's problem, and a fault is at its byte.
    ensures found { MatchResult result (λ p. IsProblem text.now p) (λ e. IsRefused text.now e) }
    // The answer that the text has is given, unless memory runs out.
    ensures only { (a : Answer) → IsAnswer text.now a → MatchResult result (λ p. a ≡ Read p) (λ e. Tells a e) }
{
    read_text(alloc, text)
}
/// Each text is a problem or has a first bad byte, and none has two answers.
pub fn one_answer()
    ensures some { SomeAnswer }
    ensures one { OneAnswer }
{}
