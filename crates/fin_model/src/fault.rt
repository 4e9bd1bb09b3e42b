use text_kit::NoMemory;

/// Why a term was not evaluated.
///
/// `TooBig` is told of the term and the model: some type that is measured has more than 65,536 values, or the sizes of
/// the binders around some measured term have a product above 4,096.
#[derive(Clone, Copy, Debug, Drop, PartialEq, Eq)]
pub enum EvalFault {
    TooBig,
    NoMemory,
}

impl From<NoMemory> for EvalFault {
    ghost use Rattle.std.specs.Prelude.{◌≡◌};
    ghost use Rattle.fin_model.specs.declared.fault.EvalFault.{EvalFault};

    ghost from_gives = { λ _ e. e ≡ EvalFault.NoMemory };

    fn from(_cause: NoMemory) -> EvalFault {
        EvalFault::NoMemory
    }
}
