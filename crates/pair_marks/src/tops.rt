ghost use Rattle.std.specs.Prelude.{◌≡◌};
ghost use Rattle.pair_marks.specs.Tops.{single_top, args_top, term_top, is_position, top_symbol};

use fo_terms::FoTerm;

/// What a term shows of itself at its top. A substitution changes no more of it than its variables.
#[derive(Clone, Copy, Drop)]
pub(crate) enum Top {
    /// a variable
    Any,
    /// a symbol whose one argument is a variable
    Over(u64),
    /// a symbol whose one argument is no variable, and the symbol of that
    Pair(u64, u64),
    /// a symbol with no argument, or with two and more
    Sole(u64),
}

fn top_over(f: u64, t: &FoTerm) -> Top
    ensures { result ≡ single_top f t.now }
{
    match t {
        FoTerm::Var(_) => Top::Over(f),
        FoTerm::Fun(g, _) => Top::Pair(f, *g),
    }
}

fn top_with(f: u64, args: &[FoTerm]) -> Top
    ensures { result ≡ args_top f args.now }
{
    match args {
        [t] => top_over(f, t),
        _ => Top::Sole(f),
    }
}

pub(crate) fn top_of(t: &FoTerm) -> Top
    ensures { result ≡ term_top t.now }
{
    match t {
        FoTerm::Var(_) => Top::Any,
        FoTerm::Fun(f, args) => top_with(*f, args.as_slice()),
    }
}

/// Whether a term with this top is a place for paramodulation: a tag on a core that is no variable or, where all are
/// plain, any term that is no variable.
pub(crate) fn is_place(plain: bool, top: Top) -> bool
    ensures { result ≡ is_position plain top }
{
    match top {
        Top::Any => false,
        Top::Pair(_, _) => true,
        Top::Over(_) => plain,
        Top::Sole(_) => plain,
    }
}

/// The symbol of a term with this top.
pub(crate) fn symbol_of(top: Top) -> Option<u64>
    ensures { result ≡ top_symbol top }
{
    match top {
        Top::Any => None,
        Top::Over(f) => Some(f),
        Top::Pair(f, _) => Some(f),
        Top::Sole(f) => Some(f),
    }
}
