ghost use Rattle.std.specs.Prelude.{◌≡◌, ◌++◌, OnOk};
ghost use Rattle.std.specs.List.{flat_map, list_all};
ghost use Rattle.text_kit.specs.Tokens.{is_word_byte as is_word_byte_of};
ghost use Rattle.tstp_print.specs.Names.{is_lower_word as is_lower_word_of, escaped, name_text};

use text_kit::{Bytes, NoMemory};

fn is_word_byte(b: u8) -> bool
    ensures { result ≡ is_word_byte_of b }
{
    b.is_ascii_alphanumeric() || b == b'_'
}

fn are_word_bytes(bytes: &[u8]) -> bool
    ensures { result ≡ Rattle.std.specs.List.list_all is_word_byte_of bytes.now }
{
    bytes.iter().all(|b| is_word_byte(*b))
}

/// Whether a name may stand without quotes: a small letter, and letters, digits and `_` behind it.
fn is_lower_word(name: &[u8]) -> bool
    ensures { result ≡ is_lower_word_of name.now }
{
    match name {
        [] => false,
        [b, rest @ ..] => b.is_ascii_lowercase() && are_word_bytes(rest),
    }
}

fn put_escaped(out: &mut Bytes, b: u8) -> Result<(), NoMemory>
    ensures { OnOk result (out.new ≡ out.old ++ escaped b) }
{
    if b == b'\\' || b == b'\'' {
        out.push(b'\\')?;
    }
    out.push(b)
}

fn put_all_escaped(out: &mut Bytes, name: &[u8]) -> Result<(), NoMemory>
    ensures { OnOk result (out.new ≡ out.old ++ flat_map escaped name.now) }
{
    for b in name {
        put_escaped(out, *b)?;
    }
    Ok(())
}

/// Appends a name, in quotes where it is no lower-case word.
pub fn put_name(out: &mut Bytes, name: &[u8]) -> Result<(), NoMemory>
    ensures { OnOk result (out.new ≡ out.old ++ name_text name.now) }
{
    if is_lower_word(name) {
        return out.append(name);
    }
    out.push(b'\'')?;
    put_all_escaped(out, name)?;
    out.push(b'\'')
}
