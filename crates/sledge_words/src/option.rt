ghost use Rattle.std.specs.Prelude.{◌≡◌};
ghost use Rattle.sledge_words.specs.Options.{flag_of as named};
ghost use Rattle.sledge_words.specs.Pieces.{has_value as has_value_of};
ghost use Rattle.sledge_words.specs.Lines.{flag_place, same_flag as same};

/// An option of a command.
#[derive(Clone, Copy, Debug, Drop, PartialEq, Eq)]
pub enum Flag {
    Slices,
    Workers,
    Budget,
    Timeout,
    Prover,
    Slice,
    Size,
    Proof,
}

/// The option of this name.
pub(crate) fn flag_of(word: &[u8]) -> Option<Flag>
    ensures { result ≡ named word.now }
{
    if word == b"--slices".as_slice() {
        Some(Flag::Slices)
    } else if word == b"--workers".as_slice() {
        Some(Flag::Workers)
    } else if word == b"--budget".as_slice() {
        Some(Flag::Budget)
    } else if word == b"--timeout".as_slice() {
        Some(Flag::Timeout)
    } else if word == b"--prover".as_slice() {
        Some(Flag::Prover)
    } else if word == b"--slice".as_slice() {
        Some(Flag::Slice)
    } else if word == b"--size".as_slice() {
        Some(Flag::Size)
    } else if word == b"--proof".as_slice() {
        Some(Flag::Proof)
    } else {
        None
    }
}

/// Whether the option has a value: every one but `--proof`.
pub(crate) fn has_value(flag: Flag) -> bool
    ensures { result ≡ has_value_of flag }
{
    match flag {
        Flag::Proof => false,
        _ => true,
    }
}

fn place(flag: Flag) -> u8
    ensures { result ≡ flag_place flag }
{
    match flag {
        Flag::Slices => 0,
        Flag::Workers => 1,
        Flag::Budget => 2,
        Flag::Timeout => 3,
        Flag::Prover => 4,
        Flag::Slice => 5,
        Flag::Size => 6,
        Flag::Proof => 7,
    }
}

/// Whether two options are the same.
pub(crate) fn same_flag(f: Flag, g: Flag) -> bool
    ensures { result ≡ same f g }
{
    place(f) == place(g)
}
