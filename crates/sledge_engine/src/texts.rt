ghost use Rattle.std.specs.Prelude.{◌≡◌, ◌++◌, [], OnOk, IfOk};
ghost use Rattle.sledge_engine.specs.Texts.{around, kind_text, theory_text, usage_text, SaysFault};

use text_kit::{Bytes, NoMemory, put_decimal};
use theory_reader::{TheoryFault, TheoryKind};

/// Appends a text round a name.
fn put_around(out: &mut Bytes, before: &[u8], name: &[u8], after: &[u8]) -> Result<(), NoMemory>
    ensures { OnOk result (out.new ≡ out.old ++ around before.now name.now after.now) }
{
    out.append(before)?;
    out.append(name)?;
    out.append(after)
}

/// Puts a refusal round a name.
pub(crate) fn put_refusal(
    text: &mut Bytes,
    status: u8,
    before: &[u8],
    name: &[u8],
    after: &[u8],
) -> Result<u8, NoMemory>
    requires { text.old ≡ [] }
    ensures { IfOk result (λ given. (given ≡ status) × (text.new ≡ around before.now name.now after.now)) }
{
    put_around(text, before, name, after)?;
    Ok(status)
}

/// Puts that the words are in no command's grammar.
pub(crate) fn put_usage(text: &mut Bytes) -> Result<u8, NoMemory>
    requires { text.old ≡ [] }
    ensures { IfOk result (λ given. (given ≡ 2) × (text.new ≡ usage_text)) }
{
    text.append(b"fault: usage\n")?;
    Ok(2)
}

/// The name of a kind of fault.
fn kind_name(kind: TheoryKind) -> &'static [u8]
    ensures { result.now ≡ kind_text kind }
{
    match kind {
        TheoryKind::Token => b"token",
        TheoryKind::Syntax => b"syntax",
        TheoryKind::TooDeep => b"too deep",
        TheoryKind::TooMany => b"too many",
        TheoryKind::Repeated => b"repeated",
        TheoryKind::Unknown => b"unknown",
        TheoryKind::IllTyped => b"ill typed",
        TheoryKind::NotBool => b"not bool",
    }
}

/// Puts the fault at a byte.
fn put_at(text: &mut Bytes, at: u64, kind: TheoryKind) -> Result<(), NoMemory>
    requires { text.old ≡ [] }
    ensures { OnOk result (text.new ≡ theory_text at kind) }
{
    text.append(b"fault: theory at ")?;
    put_decimal(text, at)?;
    put_around(text, b": ", kind_name(kind), b"\n")
}

/// Puts the fault of a theory file.
pub(crate) fn put_fault(text: &mut Bytes, fault: TheoryFault) -> Result<u8, NoMemory>
    requires { text.old ≡ [] }
    ensures { IfOk result (λ given. (given ≡ 4) × SaysFault fault text.new) }
{
    match fault {
        TheoryFault::At { at, kind } => {
            put_at(text, at, kind)?;
            Ok(4)
        }
        TheoryFault::NoMemory => Err(NoMemory),
    }
}
