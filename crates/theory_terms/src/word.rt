ghost use Rattle.std.specs.Prelude.{◌≡◌};
ghost use Rattle.theory_terms.specs.Words.{word_at as bytes_of};

use theory_syntax::Word;

/// The bytes of a word of the text. Where the word reaches beyond the text, they are those that the text has.
pub fn word_at<'t>(text: &'t [u8], word: Word) -> &'t [u8]
    ensures { result.now ≡ bytes_of text.now word }
{
    let start = text.len().min(word.start as usize);
    let behind = &text[start..];
    let len = behind.len().min(word.len as usize);
    &behind[..len]
}
