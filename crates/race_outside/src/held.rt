ghost use Rattle.std.specs.Prelude.{◌≡◌};
ghost use Rattle.std.specs.Option.{option_copied};
ghost use Rattle.race_outside.specs.Shelves.{files_of};

use text_kit::{Bytes, Rows};

/// A file in memory: its name and its bytes.
#[derive(Debug, Drop)]
pub struct Held {
    pub name: Bytes,
    pub bytes: Bytes,
}

/// The bytes held under a name; of several files with it those of the first.
pub(crate) fn find<'a>(files: &'a Rows<Held>, name: &[u8]) -> Option<&'a Bytes>
    ensures { option_copied result ≡ files_of files.now name.now }
{
    for file in files.as_slice() {
        if file.name.as_slice() == name {
            return Some(&file.bytes);
        }
    }
    None
}
