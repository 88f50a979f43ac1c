ghost use Rattle.std.specs.Prelude.{◌≡◌};
ghost use Rattle.jn_lower.specs.Written.{written_kind, is_reference, written_terms};

use jn_base::tree::TypeTerm;

/// The kind of the values of a written type: 1 a number, 2 a truth value, 3 a reference.
pub fn written_kind(ty: &TypeTerm) -> u8
    ensures { result ≡ written_kind ty.now }
{
    match ty {
        TypeTerm::Int => 1,
        TypeTerm::Bool => 2,
        TypeTerm::Class(_, _) => 3,
    }
}

/// Whether it is a class type.
pub fn is_reference(ty: &TypeTerm) -> bool
    ensures { result ≡ is_reference ty.now }
{
    match ty {
        TypeTerm::Int => false,
        TypeTerm::Bool => false,
        TypeTerm::Class(_, _) => true,
    }
}

/// How many terms it has.
pub fn written_terms(ty: &TypeTerm) -> usize
    ensures { result ≡ written_terms ty.now }
{
    match ty {
        TypeTerm::Int => 0,
        TypeTerm::Bool => 0,
        TypeTerm::Class(terms, _) => terms.len(),
    }
}
