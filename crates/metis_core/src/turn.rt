ghost use Rattle.std.specs.Prelude.{◌≡◌, ◌↔◌, IsTrue};
ghost use Rattle.metis_core.specs.declared.turn.Turn.{Turn};

/// What a search came to.
#[derive(Clone, Copy, Debug, Drop, PartialEq, Eq)]
pub enum Turn {
    /// it goes on
    More,
    /// the empty clause was offered
    Found,
    /// nothing waits
    Saturated,
    /// the budget is used up, or a clause too many would be kept
    Spent,
    /// memory is wanting
    NoMemory,
}

impl Turn {
    /// Whether the search goes on.
    pub fn is_more(self) -> bool
        ensures { IsTrue result ↔ (self ≡ Turn.More) }
    {
        match self {
            Turn::More => true,
            Turn::Found => false,
            Turn::Saturated => false,
            Turn::Spent => false,
            Turn::NoMemory => false,
        }
    }
}
