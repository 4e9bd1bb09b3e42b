ghost use Rattle.std.specs.Prelude.{◌≡◌, ◌<◌, slice_index_or};
ghost use Rattle.mepo_filter.specs.Slices.{slice_at, rows, no_slice};

/// How many facts are chosen, and by what mark.
#[derive(Clone, Copy, Debug, Drop, PartialEq, Eq)]
pub struct Slice {
    /// At most so many facts.
    pub facts: u32,
    /// The mark of the first round, in parts of 2 to the 20th: a fact of this score is taken.
    pub mark: u64,
    /// Behind each round the mark rises by `rise` of `of` parts of what it lacks of one.
    pub rise: u64,
    /// See `rise`.
    pub of: u64,
    /// Each pick of the prover whose number this divides takes the oldest clause.
    pub age: u32,
}

fn row(number: u32, age: u32) -> Slice
    requires { number < 8 }
    ensures { result ≡ slice_index_or (rows age) number no_slice }
{
    let (facts, mark, rise, of) = match number {
        0 => (32, 524_288, 0, 1),
        1 => (128, 393_216, 0, 1),
        2 => (64, 524_288, 1, 4),
        3 => (256, 262_144, 1, 8),
        4 => (512, 262_144, 0, 1),
        5 => (16, 786_432, 0, 1),
        6 => (1_024, 131_072, 0, 1),
        _ => (4_096, 0, 0, 1),
    };
    Slice {
        facts,
        mark,
        rise,
        of,
        age,
    }
}

/// The slice with this number: eight rows of facts and marks in turn, each time round with a greater age.
/// It takes no memory.
pub fn slice_of(number: u32) -> Slice
    requires { number < 64 }
    ensures { result ≡ slice_at number }
{
    row(number % 8, 3 + number / 8)
}
