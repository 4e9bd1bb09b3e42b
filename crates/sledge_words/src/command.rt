ghost use Rattle.std.specs.Prelude.{◌≡◌};
ghost use Rattle.sledge_words.specs.Options.{command_of as named, takes as takes_of, arguments as arguments_of, has_facts as has_facts_of, default_prover as default_prover_of};

use crate::Flag;

/// What `sledge` is asked to do.
#[derive(Clone, Copy, Debug, Drop, PartialEq, Eq)]
pub enum Command {
    Prove,
    Drill,
    Metis,
    Check,
    Filter,
    Problem,
    Gen,
    Model,
    Refute,
    Chain,
    Batch,
}

/// The command of this name.
pub(crate) fn command_of(word: &[u8]) -> Option<Command>
    ensures { result ≡ named word.now }
{
    if word == b"prove".as_slice() {
        Some(Command::Prove)
    } else if word == b"drill".as_slice() {
        Some(Command::Drill)
    } else if word == b"metis".as_slice() {
        Some(Command::Metis)
    } else if word == b"check".as_slice() {
        Some(Command::Check)
    } else if word == b"filter".as_slice() {
        Some(Command::Filter)
    } else if word == b"problem".as_slice() {
        Some(Command::Problem)
    } else if word == b"gen".as_slice() {
        Some(Command::Gen)
    } else if word == b"model".as_slice() {
        Some(Command::Model)
    } else if word == b"refute".as_slice() {
        Some(Command::Refute)
    } else if word == b"chain".as_slice() {
        Some(Command::Chain)
    } else if word == b"batch".as_slice() {
        Some(Command::Batch)
    } else {
        None
    }
}

/// Whether the command takes the option.
pub(crate) fn takes(command: Command, flag: Flag) -> bool
    ensures { result ≡ takes_of command flag }
{
    match command {
        Command::Prove => match flag {
            Flag::Slice => false,
            Flag::Size => false,
            _ => true,
        },
        Command::Drill => match flag {
            Flag::Workers => true,
            Flag::Prover => true,
            _ => false,
        },
        Command::Metis => match flag {
            Flag::Budget => true,
            Flag::Proof => true,
            _ => false,
        },
        Command::Check => false,
        Command::Filter => match flag {
            Flag::Slice => true,
            _ => false,
        },
        Command::Problem => match flag {
            Flag::Slice => true,
            _ => false,
        },
        Command::Gen => false,
        Command::Model => match flag {
            Flag::Size => true,
            _ => false,
        },
        Command::Refute => match flag {
            Flag::Workers => true,
            Flag::Prover => true,
            _ => false,
        },
        Command::Chain => match flag {
            Flag::Budget => true,
            Flag::Proof => true,
            _ => false,
        },
        Command::Batch => match flag {
            Flag::Slice => false,
            Flag::Size => false,
            Flag::Proof => false,
            _ => true,
        },
    }
}

/// The number of arguments before any facts.
pub(crate) fn arguments(command: Command) -> usize
    ensures { result ≡ arguments_of command }
{
    match command {
        Command::Drill => 1,
        Command::Gen => 1,
        Command::Batch => 1,
        Command::Chain => 3,
        _ => 2,
    }
}

/// Whether facts may follow the arguments.
pub(crate) fn has_facts(command: Command) -> bool
    ensures { result ≡ has_facts_of command }
{
    match command {
        Command::Metis => true,
        Command::Model => true,
        Command::Refute => true,
        _ => false,
    }
}

/// The prover where none is given.
pub(crate) fn default_prover(command: Command) -> &'static [u8]
    ensures { result.now ≡ default_prover_of command }
{
    match command {
        Command::Refute => b"sledge",
        _ => b"sledge_atp",
    }
}
