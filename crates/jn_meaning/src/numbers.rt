ghost use Rattle.std.specs.Prelude.{◌≡◌};
ghost use Rattle.jn_steps.specs.Numbers.{sum_of, difference_of, product_of, negation_of, quotient_of, remainder_of};

pub fn sum(x: i64, y: i64) -> i64
    ensures { result ≡ sum_of x y }
{
    x.wrapping_add(y)
}

pub fn difference(x: i64, y: i64) -> i64
    ensures { result ≡ difference_of x y }
{
    x.wrapping_sub(y)
}

pub fn product(x: i64, y: i64) -> i64
    ensures { result ≡ product_of x y }
{
    x.wrapping_mul(y)
}

pub fn negation(x: i64) -> i64
    ensures { result ≡ negation_of x }
{
    x.wrapping_neg()
}

/// None where it divides by 0.
pub fn quotient(x: i64, y: i64) -> Option<i64>
    ensures { result ≡ quotient_of x y }
{
    if y == 0 {
        None
    } else {
        Some(x.wrapping_div(y))
    }
}

/// None where it divides by 0.
pub fn remainder(x: i64, y: i64) -> Option<i64>
    ensures { result ≡ remainder_of x y }
{
    if y == 0 {
        None
    } else {
        Some(x.wrapping_rem(y))
    }
}
