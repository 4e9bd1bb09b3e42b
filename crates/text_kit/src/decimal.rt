ghost use Rattle.std.specs.Prelude.{◌≡◌, ◌++◌, decimal, OnOk, OnErr};

use crate::{Bytes, NoMemory};
use itoa::Buffer;

/// Appends the decimal digits of a number, with no leading zero. A refused call leaves the bytes as they were.
pub fn put_decimal(out: &mut Bytes, n: u64) -> Result<(), NoMemory>
    ensures ok { OnOk result (out.new ≡ out.old ++ decimal n) }
    ensures err { OnErr result (out.new ≡ out.old) }
{
    let mut buffer = Buffer::new();
    out.append(buffer.format(n).as_bytes())
}
