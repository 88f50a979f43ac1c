//! Names, terms, views and types. `left` more marks and prefix operators may be open.

ghost use Rattle.std.specs.Prelude.{◌≡◌, ◌∷◌, ℕ, true, IfOk};
ghost use Rattle.jn_grammar.specs.ReadTypes.{dot_in, dots_in, bang_in, names_in, tail_in, ref_in, class_in, own_in, prefix_in, after_names_in, name_or_class_in, after_name_in, term_in, mask_in, masks_in, view_in, begins_term, atom_in, next_atom_in, atoms_in, class_type_in, type_in};
ghost use Rattle.jn_base.specs.declared.word.Mark.TheVariants.{Ampersand};
ghost use Rattle.jn_base.specs.declared.word.Word.TheVariants as words;
ghost use Rattle.jn_base.specs.Parts as grammar;
ghost use Rattle.jn_grammar.specs.Answers.{row};
ghost use Rattle.jn_grammar.specs.Begins.{begins};
ghost use Rattle.jn_parser.specs.Giving.{Gives};

use crate::cursor::{behind, name, passed, starts, starts_key, syntax, take, take_key};
use crate::fault::Stop;
use crate::rows::joined;
use jn_base::refusal::Limit;
use jn_base::tree::{Head, Name, Named, Place, Ref, Term, TypeTerm, ViewTerm};
use jn_base::word::{Keyword, Lexeme, Mark, Word};
use sqlite_items::Items;
use std::alloc::{AllocError, Global};

/// The names of a term, behind its head: those up to a `!`, and the others.
#[derive(Drop)]
pub struct TermNames {
    pub exact: Items<Name>,
    pub loose: Items<Name>,
}

/// A name and its dot, from the dot on.
#[tactic(auto, unfolding(jn_grammar::specs::ReadTypes::dot_in))]
fn dot(ts: &[Lexeme]) -> Result<(Name, &[Lexeme]), Stop>
    ensures { (k : ℕ) → Gives (λ x. (x.0, x.1.now)) result (dot_in k ts.now) }
{
    let (x, rest) = name(behind(ts))?;
    Ok((x.name, rest))
}

/// The names behind dots, as many as there are.
fn dots(alloc: Global, ts: &[Lexeme]) -> Result<(Items<Name>, &[Lexeme]), Stop>
    ensures { Gives (λ x. (x.0, x.1.now)) result (dots_in ts.now) }
{
    let mut found = Items::new(alloc);
    let mut rest = ts;
    'row: while starts(Mark::Dot, rest) {
        let (item, after) = dot(rest)?;
        found.push(item)?;
        rest = after;
    }
    Ok((found, rest))
}

/// This name, and these behind it.
fn with_first(alloc: Global, first: Name, others: Items<Name>) -> Result<Items<Name>, AllocError>
    ensures { IfOk result (λ names. names ≡ first ∷ others) }
{
    let mut names = Items::new(alloc);
    names.push(first)?;
    names.append(others)?;
    Ok(names)
}

/// The names of a term of which these stand before.
#[tactic(auto, unfolding(jn_grammar::specs::ReadTypes::bang_in))]
fn bang(alloc: Global, names: Items<Name>, ts: &[Lexeme]) -> Result<(TermNames, &[Lexeme]), Stop>
    ensures { Gives (λ x. ((x.0.exact, x.0.loose), x.1.now)) result (bang_in names ts.now) }
{
    if !starts(Mark::Bang, ts) {
        let exact = Items::new(alloc);
        return Ok((
            TermNames {
                exact,
                loose: names,
            },
            ts,
        ));
    }
    let (loose, rest) = dots(alloc, behind(ts))?;
    Ok((
        TermNames {
            exact: names,
            loose,
        },
        rest,
    ))
}

#[tactic(auto, unfolding(jn_grammar::specs::ReadTypes::names_in))]
fn names(alloc: Global, ts: &[Lexeme]) -> Result<(TermNames, &[Lexeme]), Stop>
    ensures { Gives (λ x. ((x.0.exact, x.0.loose), x.1.now)) result (names_in ts.now) }
{
    let (first, rest) = name(ts)?;
    let (others, rest) = dots(alloc, rest)?;
    bang(alloc, with_first(alloc, first.name, others)?, rest)
}

/// The names behind `class`, of which there may be none.
#[tactic(auto, unfolding(jn_grammar::specs::ReadTypes::tail_in))]
fn tail(alloc: Global, ts: &[Lexeme]) -> Result<(TermNames, &[Lexeme]), Stop>
    ensures { Gives (λ x. ((x.0.exact, x.0.loose), x.1.now)) result (tail_in ts.now) }
{
    if starts(Mark::Dot, ts) {
        return names(alloc, behind(ts));
    }
    let exact = Items::new(alloc);
    let loose = Items::new(alloc);
    Ok((TermNames { exact, loose }, ts))
}

/// `this` or a variable.
#[tactic(auto, unfolding(jn_grammar::specs::ReadTypes::ref_in))]
fn reference(ts: &[Lexeme]) -> Result<(Ref, &[Lexeme]), Stop>
    ensures { Gives (λ x. (x.0, x.1.now)) result (ref_in ts.now) }
{
    match ts {
        [] => Err(syntax(ts)),
        [t, rest @ ..] => match t.word {
            Word::Keyword(Keyword::This) => Ok((Ref::This, rest)),
            Word::Name(x) => Ok((Ref::Var(x), rest)),
            _ => Err(syntax(ts)),
        },
    }
}

/// A dot and `class`.
#[tactic(auto, unfolding(jn_grammar::specs::ReadTypes::class_in))]
fn dot_class(ts: &[Lexeme]) -> Result<(Place, &[Lexeme]), Stop>
    ensures { Gives (λ x. (x.0, x.1.now)) result (class_in ts.now) }
{
    let (_, rest) = take(Mark::Dot, ts)?;
    take_key(Keyword::Class, rest)
}

/// A term at `at`, behind its `class`.
#[tactic(auto, unfolding(jn_grammar::specs::ReadTypes::own_in))]
fn own(alloc: Global, at: Place, path: Ref, ts: &[Lexeme]) -> Result<(Term, &[Lexeme]), Stop>
    ensures { Gives (λ x. (x.0, x.1.now)) result (own_in at path ts.now) }
{
    let (names, rest) = tail(alloc, ts)?;
    Ok((term_of(Head::Own(path), names, at), rest))
}

fn term_of(head: Head, names: TermNames, at: Place) -> Term
    ensures { result ≡ grammar.term head names.exact names.loose at }
{
    Term {
        head,
        exact: names.exact,
        names: names.loose,
        at,
    }
}

/// A term at `at` with these names in front, from its `[` on.
#[tactic(auto, unfolding(jn_grammar::specs::ReadTypes::prefix_in))]
fn prefix(
    alloc: Global,
    left: u32,
    at: Place,
    front: Items<Name>,
    ts: &[Lexeme],
) -> Result<(Term, &[Lexeme]), Stop>
    ensures { Gives (λ x. (x.0, x.1.now)) result (prefix_in left at front ts.now) }
{
    if left == 0 {
        return Err(passed(Limit::Nesting, ts));
    }
    let (path, rest) = reference(behind(ts))?;
    let (_, rest) = dot_class(rest)?;
    let (_, rest) = take(Mark::CloseBracket, rest)?;
    let (names, rest) = tail(alloc, rest)?;
    Ok((term_of(Head::Prefix(front, path), names, at), rest))
}

/// A term at `at`, behind these names.
#[tactic(auto, unfolding(jn_grammar::specs::ReadTypes::after_names_in))]
pub fn after_names(
    alloc: Global,
    left: u32,
    at: Place,
    front: Items<Name>,
    ts: &[Lexeme],
) -> Result<(Term, &[Lexeme]), Stop>
    ensures { Gives (λ x. (x.0, x.1.now)) result (after_names_in left at front ts.now) }
{
    if starts(Mark::OpenBracket, ts) {
        return prefix(alloc, left, at, front, ts);
    }
    let (names, rest) = bang(alloc, front, ts)?;
    Ok((term_of(Head::Plain, names, at), rest))
}

/// A term at `at`, behind a name and a dot.
#[tactic(auto, unfolding(jn_grammar::specs::ReadTypes::name_or_class_in))]
fn name_or_class(
    alloc: Global,
    left: u32,
    at: Place,
    first: Name,
    ts: &[Lexeme],
) -> Result<(Term, &[Lexeme]), Stop>
    ensures { Gives (λ x. (x.0, x.1.now)) result (name_or_class_in left at first ts.now) }
{
    if starts_key(Keyword::Class, ts) {
        return own(alloc, at, Ref::Var(first), behind(ts));
    }
    let (second, rest) = name(ts)?;
    let (others, rest) = dots(alloc, rest)?;
    let others = with_first(alloc, second.name, others)?;
    after_names(alloc, left, at, with_first(alloc, first, others)?, rest)
}

/// A term at `at`, behind its first name.
#[tactic(auto, unfolding(jn_grammar::specs::ReadTypes::after_name_in))]
fn after_name(
    alloc: Global,
    left: u32,
    at: Place,
    first: Name,
    ts: &[Lexeme],
) -> Result<(Term, &[Lexeme]), Stop>
    ensures { Gives (λ x. (x.0, x.1.now)) result (after_name_in left at first ts.now) }
{
    if starts(Mark::Dot, ts) {
        return name_or_class(alloc, left, at, first, behind(ts));
    }
    let names = with_first(alloc, first, Items::new(alloc))?;
    after_names(alloc, left, at, names, ts)
}

#[tactic(auto, unfolding(jn_grammar::specs::ReadTypes::term_in, jn_grammar::specs::ReadTypes::term_by))]
pub fn term(alloc: Global, left: u32, ts: &[Lexeme]) -> Result<(Term, &[Lexeme]), Stop>
    ensures { Gives (λ x. (x.0, x.1.now)) result (term_in left ts.now) }
{
    match ts {
        [] => Err(syntax(ts)),
        [t, rest @ ..] => match t.word {
            Word::Keyword(Keyword::This) => {
                let (_, rest) = dot_class(rest)?;
                own(alloc, t.at, Ref::This, rest)
            }
            Word::Name(x) => after_name(alloc, left, t.at, x, rest),
            _ => Err(syntax(ts)),
        },
    }
}

/// A mask, from its backslash on.
#[tactic(auto, unfolding(jn_grammar::specs::ReadTypes::mask_in))]
fn mask(ts: &[Lexeme]) -> Result<(Named, &[Lexeme]), Stop>
    ensures { (k : ℕ) → Gives (λ x. (x.0, x.1.now)) result (mask_in k ts.now) }
{
    name(behind(ts))
}

pub fn masks(alloc: Global, ts: &[Lexeme]) -> Result<(Items<Named>, &[Lexeme]), Stop>
    ensures { Gives (λ x. (x.0, x.1.now)) result (masks_in ts.now) }
{
    let mut found = Items::new(alloc);
    let mut rest = ts;
    'row: while starts(Mark::Backslash, rest) {
        let (item, after) = mask(rest)?;
        found.push(item)?;
        rest = after;
    }
    Ok((found, rest))
}

/// A term with masks.
#[tactic(auto, unfolding(jn_grammar::specs::ReadTypes::view_in))]
pub fn view(alloc: Global, left: u32, ts: &[Lexeme]) -> Result<(ViewTerm, &[Lexeme]), Stop>
    ensures { Gives (λ x. (x.0, x.1.now)) result (view_in left ts.now) }
{
    let (term, rest) = term(alloc, left, ts)?;
    let (masks, rest) = masks(alloc, rest)?;
    Ok((ViewTerm { term, masks }, rest))
}

fn starts_term(ts: &[Lexeme]) -> bool
    ensures { result ≡ begins_term ts.now }
{
    match ts {
        [] => false,
        [t, ..] => matches!(t.word, Word::Keyword(Keyword::This) | Word::Name(_)),
    }
}

/// The `k`-th term of a type.
#[tactic(auto, unfolding(jn_grammar::specs::ReadTypes::atom_in))]
fn atom(alloc: Global, left: u32, k: usize, ts: &[Lexeme]) -> Result<(Term, &[Lexeme]), Stop>
    ensures { Gives (λ x. (x.0, x.1.now)) result (atom_in true left k ts.now) }
{
    if !starts_term(ts) {
        return Err(syntax(ts));
    }
    if k > 8 {
        return Err(passed(Limit::Atoms, ts));
    }
    term(alloc, left, ts)
}

/// The `k`-th term of a type, from the ampersand before it on.
#[tactic(auto, unfolding(jn_grammar::specs::ReadTypes::next_atom_in))]
fn next_atom(alloc: Global, left: u32, k: usize, ts: &[Lexeme]) -> Result<(Term, &[Lexeme]), Stop>
    ensures { Gives (λ x. (x.0, x.1.now)) result (next_atom_in true left k ts.now) }
{
    atom(alloc, left, k, behind(ts))
}

/// The terms of a type behind the first.
pub fn next_atoms(alloc: Global, left: u32, ts: &[Lexeme]) -> Result<(Items<Term>, &[Lexeme]), Stop>
    ensures { Gives (λ x. (x.0, x.1.now)) result (row (begins (words.Mark Ampersand)) (next_atom_in true left) 2 ts.now) }
{
    let mut found = Items::new(alloc);
    let mut k = 2;
    let mut rest = ts;
    'row: while starts(Mark::Ampersand, rest) {
        let (item, after) = next_atom(alloc, left, k, rest)?;
        found.push(item)?;
        k += 1;
        rest = after;
    }
    Ok((found, rest))
}

#[tactic(auto, unfolding(jn_grammar::specs::ReadTypes::atoms_in))]
fn atoms(alloc: Global, left: u32, ts: &[Lexeme]) -> Result<(Items<Term>, &[Lexeme]), Stop>
    ensures { Gives (λ x. (x.0, x.1.now)) result (atoms_in true left ts.now) }
{
    let (first, rest) = atom(alloc, left, 1, ts)?;
    let (others, rest) = next_atoms(alloc, left, rest)?;
    Ok((joined(alloc, first, others)?, rest))
}

#[tactic(auto, unfolding(jn_grammar::specs::ReadTypes::class_type_in))]
fn class_type(alloc: Global, left: u32, ts: &[Lexeme]) -> Result<(TypeTerm, &[Lexeme]), Stop>
    ensures { Gives (λ x. (x.0, x.1.now)) result (class_type_in true left ts.now) }
{
    let (atoms, rest) = atoms(alloc, left, ts)?;
    let (masks, rest) = masks(alloc, rest)?;
    Ok((TypeTerm::Class(atoms, masks), rest))
}

#[tactic(auto, unfolding(jn_grammar::specs::ReadTypes::type_in))]
pub fn type_term(alloc: Global, left: u32, ts: &[Lexeme]) -> Result<(TypeTerm, &[Lexeme]), Stop>
    ensures { Gives (λ x. (x.0, x.1.now)) result (type_in true left ts.now) }
{
    if starts_key(Keyword::Int, ts) {
        return Ok((TypeTerm::Int, behind(ts)));
    }
    if starts_key(Keyword::Boolean, ts) {
        return Ok((TypeTerm::Bool, behind(ts)));
    }
    class_type(alloc, left, ts)
}
