ghost use Rattle.std.specs.Prelude.{MatchOption};
ghost use Rattle.proof_syntax.specs.Reading.{NeverStarts};
ghost use Rattle.proof_reader.specs.inner.Start.{IsBody, NoLineEnd, IsBehindLine};

use bstr::ByteSlice;

const FIRST_LINE: &[u8] = b"sledge proof 1\n";

/// What stands behind the end of the line at the front.
fn behind_line(text: &[u8]) -> Option<&[u8]>
    ensures { MatchOption result (NoLineEnd text.now) (λ rest. IsBehindLine text.now rest.now) }
{
    match text.find_byte(b'\n') {
        None => None,
        Some(at) => Some(&text[at + 1..]),
    }
}

/// What stands behind the first line of a proof. What stands before that line is passed over.
pub fn body_of(text: &[u8]) -> Option<&[u8]>
    ensures { MatchOption result (NeverStarts text.now) (λ body. IsBody text.now body.now) }
{
    let mut rest = text;
    'lines: loop {
        match rest.strip_prefix(FIRST_LINE) {
            Some(body) => return Some(body),
            None => match behind_line(rest) {
                None => return None,
                Some(behind) => {
                    rest = behind;
                }
            },
        }
    }
}
