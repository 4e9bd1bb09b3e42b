ghost use Rattle.std.specs.Prelude.{◌≡◌, ◌↔◌, IsTrue, IfOk};
ghost use Rattle.fo_terms.specs.Weight.{size_of, size_of_all, capped};

use std::alloc::{AllocError, Global};
use text_kit::{NoMemory, Rows};

/// A first-order term: a variable, or a symbol with its arguments. Both are numbers that the caller chooses.
#[derive(Debug, Drop)]
pub enum FoTerm {
    /// a variable
    Var(u64),
    /// a symbol, and its arguments in order
    Fun(u64, Rows<FoTerm>),
}

impl FoTerm {
    /// The number of symbols and variables, or `u64::MAX` where it is above that. It takes no memory.
    #[cycle(weighing)]
    pub fn weight(&self) -> u64
        ensures { result ≡ capped (size_of self.now) }
    {
        match self {
            FoTerm::Var(_) => 1,
            FoTerm::Fun(_, args) => 1u64.saturating_add(weight_all(args.as_slice())),
        }
    }

    /// Whether two terms are the same. It takes no memory.
    #[cycle(sameness)]
    pub fn same(&self, other: &FoTerm) -> bool
        ensures { IsTrue result ↔ (self.now ≡ other.now) }
    {
        match (self, other) {
            (FoTerm::Var(x), FoTerm::Var(y)) => *x == *y,
            (FoTerm::Fun(f, xs), FoTerm::Fun(g, ys)) => *f == *g
                && same_all(xs.as_slice(), ys.as_slice()),
            _ => false,
        }
    }

    /// A second term of the same symbols and variables.
    #[cycle(copying)]
    pub fn copy(&self, alloc: Global) -> Result<FoTerm, NoMemory>
        ensures { IfOk result (λ t. t ≡ self.now) }
    {
        match self {
            FoTerm::Var(x) => Ok(FoTerm::Var(*x)),
            FoTerm::Fun(f, args) => Ok(FoTerm::Fun(*f, copy_all(alloc, args.as_slice())?)),
        }
    }
}

/// The weights of all these terms together, or `u64::MAX` where they are above that.
#[cycle(weighing)]
pub fn weight_all(terms: &[FoTerm]) -> u64
    ensures { result ≡ capped (size_of_all terms.now) }
{
    let mut total = 0u64;
    for t in terms {
        total = total.saturating_add(t.weight());
    }
    total
}

/// Whether two lists of terms are the same.
#[cycle(sameness)]
pub fn same_all(left: &[FoTerm], right: &[FoTerm]) -> bool
    ensures { IsTrue result ↔ (left.now ≡ right.now) }
{
    if left.len() != right.len() {
        return false;
    }
    for i in 0..left.len() {
        if !left[i].same(&right[i]) {
            return false;
        }
    }
    true
}

/// A second list of the same terms.
#[cycle(copying)]
pub fn copy_all(alloc: Global, terms: &[FoTerm]) -> Result<Rows<FoTerm>, NoMemory>
    ensures { IfOk result (λ ts. ts ≡ terms.now) }
{
    let mut out = Rows::begin(alloc);
    for t in terms {
        out.push(t.copy(alloc)?)?;
    }
    Ok(out)
}

impl Clone for FoTerm {
    ghost is_clone = { λ x y. y ≡ x };

    fn clone(&self) -> Result<FoTerm, AllocError> {
        match self {
            FoTerm::Var(x) => Ok(FoTerm::Var(*x)),
            FoTerm::Fun(f, args) => match copy_all(args.allocator(), args.as_slice()) {
                Ok(more) => Ok(FoTerm::Fun(*f, more)),
                Err(_) => Err(AllocError),
            },
        }
    }
}
