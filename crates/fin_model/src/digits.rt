ghost use Rattle.std.specs.Prelude.{◌≡◌, ◌==◌, ◌<◌, ◌≤◌};
ghost use Rattle.model_truth.specs.Numbers.{digit as digit_of};
ghost use Rattle.fin_model.specs.inner.Seeking.{IsFirst};

/// The digit of a number at a place, the least digit at place 0.
pub(crate) fn digit(base: u64, number: u64, place: u64) -> u64
    requires { 0 < base }
    ensures { result ≡ digit_of base number place }
{
    let mut rest = number;
    for _i in 0..place {
        if rest == 0 {
            return 0;
        }
        rest /= base;
    }
    rest % base
}

/// The first place below `count` at which the number's digit in base 2 is 1, or isn't, as is wanted.
pub(crate) fn first_digit(count: u64, number: u64, wanted: bool) -> Option<u64>
    ensures { IsFirst (λ x. digit_of 2 number x == 1) count wanted result }
{
    for x in 0..count {
        let holds = digit(2, number, x) == 1;
        if holds == wanted {
            return Some(x);
        }
    }
    None
}
