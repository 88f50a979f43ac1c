ghost use Rattle.std.specs.Prelude.{◌≡◌, ◌<◌, ◌≤◌, ◌^◌, not, int_lt, int_le};
ghost use Rattle.std.specs.Option.{option_map};
ghost use Rattle.std.specs.Ordering.{int_eq};
ghost use Rattle.jn_steps.specs.Numbers.{sum_of, difference_of, product_of, negation_of, quotient_of, remainder_of};
ghost use Rattle.jn_code.specs.Machine.{truth, word_of, ref_in, ref_word, object_in, class_in};
ghost use Rattle.jn_machine.specs.Views.{ref_of};

/// The class at which an object is viewed, and the first cell of the object.
#[derive(Clone, Copy)]
pub struct Reference {
    pub view: u32,
    pub cell: u32,
}

pub fn sum(x: i64, y: i64) -> i64
    ensures { result ≡ sum_of x y }
{
    x.wrapping_add(y)
}

pub fn difference(x: i64, y: i64) -> i64
    ensures { result ≡ difference_of x y }
{
    x.wrapping_sub(y)
}

pub fn product(x: i64, y: i64) -> i64
    ensures { result ≡ product_of x y }
{
    x.wrapping_mul(y)
}

pub fn negation(x: i64) -> i64
    ensures { result ≡ negation_of x }
{
    x.wrapping_neg()
}

/// None where it divides by 0.
pub fn quotient(x: i64, y: i64) -> Option<i64>
    ensures { result ≡ quotient_of x y }
{
    if y == 0 {
        None
    } else {
        Some(x.wrapping_div(y))
    }
}

/// None where it divides by 0.
pub fn remainder(x: i64, y: i64) -> Option<i64>
    ensures { result ≡ remainder_of x y }
{
    if y == 0 {
        None
    } else {
        Some(x.wrapping_rem(y))
    }
}

/// Anything but 0.
pub fn is_true(z: i64) -> bool
    ensures { result ≡ truth z }
{
    z != 0
}

pub fn word(b: bool) -> i64
    ensures { result ≡ word_of b }
{
    if b { 1 } else { 0 }
}

pub fn is_less(x: i64, y: i64) -> bool
    ensures { result ≡ int_lt x y }
{
    x < y
}

pub fn is_at_most(x: i64, y: i64) -> bool
    ensures { result ≡ int_le x y }
{
    x <= y
}

pub fn is_same(x: i64, y: i64) -> bool
    ensures { result ≡ int_eq x y }
{
    x == y
}

/// The reference that a word stands for, none where it is null.
pub fn reference_in(z: i64) -> Option<Reference>
    ensures { option_map ref_of result ≡ ref_in z }
{
    if z <= 0 {
        return None;
    }
    let n = (z - 1) as u64;
    Some(Reference {
        view: (n / 4294967296) as u32,
        cell: (n % 4294967296) as u32,
    })
}

/// What tells an object: the low 32 bits of a reference's word.
pub fn object(z: i64) -> u32
    ensures { result ≡ object_in z }
{
    if z < 0 {
        return 0;
    }
    (z as u64 % 4294967296) as u32
}

/// The word of a reference.
pub fn reference_word(view: u16, cell: u32) -> i64
    ensures { result ≡ ref_word view cell }
{
    (view as u64 * 4294967296 + cell as u64 + 1) as i64
}

/// The class that a word is.
pub fn class_in(z: i64) -> usize
    ensures class { result ≡ class_in z }
    ensures small { result < 2 ^ 63 }
{
    if z < 0 {
        return 0;
    }
    z as usize
}
