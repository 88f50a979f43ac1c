//! Declarations and programs. `left` more marks and prefix operators may be open; a declaration has its depth, from 1 at
//! the top.

ghost use Rattle.std.specs.Prelude.{◌≡◌, ℕ, suc, true, IfOk};
ghost use Rattle.jn_base.specs.declared.word.Mark.TheVariants.{Ampersand, Comma};
ghost use Rattle.jn_base.specs.declared.word.Word.TheVariants as words;
ghost use Rattle.jn_base.specs.Parts.{Declares, Parameter};
ghost use Rattle.jn_grammar.specs.Answers.{row};
ghost use Rattle.jn_grammar.specs.Begins.{begins};
ghost use Rattle.jn_grammar.specs.ReadStmts.{new_name_in};
ghost use Rattle.jn_grammar.specs.ReadDecls.{final_in, param_in, next_param_in, params_in, params_of, rel_in, next_rel_in, sharing_in, next_name_in, listed_in, list_in, method_in, void_in, typed_end_in, typed_in, body_in, inner_in, top_decl_in, member_in, members_in, members_of, top_in, in_file, tops_in};
ghost use Rattle.jn_grammar.specs.ReadWhole.{program_in};
ghost use Rattle.jn_parser.specs.Giving.{Gives};

use crate::cursor::{behind, name, passed, starts, starts_key, syntax, take};
use crate::fault::Stop;
use crate::rows::{alone, joined};
use crate::stmt::{block, is_in_body, starts_name};
use crate::types::{type_term, view};
use jn_base::refusal::Limit;
use jn_base::tree::{Constraint, Decl, Field, Kind, Member, Method, Named, Param, TypeTerm};
use jn_base::word::{Keyword, Lexeme, Mark, Word};
use sqlite_items::Items;
use std::alloc::Global;

/// Whether `final` stands here, and the words behind it.
fn fixed(ts: &[Lexeme]) -> (bool, &[Lexeme])
    ensures { (result.0, result.1.now) ≡ final_in ts.now }
{
    if starts_key(Keyword::Final, ts) {
        (true, behind(ts))
    } else {
        (false, ts)
    }
}

/// The name of the `k`-th parameter.
#[tactic(auto, unfolding(jn_grammar::specs::ReadStmts::new_name_in))]
fn param_name(k: usize, ts: &[Lexeme]) -> Result<(Named, &[Lexeme]), Stop>
    ensures { Gives (λ x. (x.0, x.1.now)) result (new_name_in true (Parameter k) ts.now) }
{
    if !starts_name(ts) {
        return Err(syntax(ts));
    }
    if k > 15 {
        return Err(passed(Limit::Parameters, ts));
    }
    name(ts)
}

/// The name of a declaration at this depth, and the depth of its members.
#[tactic(auto, unfolding(jn_grammar::specs::ReadStmts::new_name_in))]
fn decl_name(depth: u32, ts: &[Lexeme]) -> Result<(Named, u32, &[Lexeme]), Stop>
    ensures name { Gives (λ x. (x.0, x.2.now)) result (new_name_in true (Declares depth) ts.now) }
    ensures deeper { IfOk result (λ x. x.1 ≡ suc depth) }
{
    if !starts_name(ts) {
        return Err(syntax(ts));
    }
    if depth > 8 {
        return Err(passed(Limit::Declarations, ts));
    }
    let (x, rest) = name(ts)?;
    Ok((x, depth + 1, rest))
}

/// The `k`-th parameter of its method.
#[tactic(auto, unfolding(jn_grammar::specs::ReadDecls::param_in))]
fn param(alloc: Global, left: u32, k: usize, ts: &[Lexeme]) -> Result<(Param, &[Lexeme]), Stop>
    ensures { Gives (λ x. (x.0, x.1.now)) result (param_in true left k ts.now) }
{
    let (fixed, rest) = fixed(ts);
    let (ty, rest) = type_term(alloc, left, rest)?;
    let (name, rest) = param_name(k, rest)?;
    Ok((Param { fixed, ty, name }, rest))
}

/// A further parameter, from the comma before it on.
#[tactic(auto, unfolding(jn_grammar::specs::ReadDecls::next_param_in))]
fn next_param(alloc: Global, left: u32, k: usize, ts: &[Lexeme]) -> Result<(Param, &[Lexeme]), Stop>
    ensures { Gives (λ x. (x.0, x.1.now)) result (next_param_in true left k ts.now) }
{
    param(alloc, left, k, behind(ts))
}

/// The parameters behind the first.
fn next_params(alloc: Global, left: u32, ts: &[Lexeme]) -> Result<(Items<Param>, &[Lexeme]), Stop>
    ensures { Gives (λ x. (x.0, x.1.now)) result (row (begins (words.Mark Comma)) (next_param_in true left) 2 ts.now) }
{
    let mut found = Items::new(alloc);
    let mut k = 2;
    let mut rest = ts;
    'row: while starts(Mark::Comma, rest) {
        let (item, after) = next_param(alloc, left, k, rest)?;
        found.push(item)?;
        k += 1;
        rest = after;
    }
    Ok((found, rest))
}

/// Parameters up to a `)`.
#[tactic(auto, unfolding(jn_grammar::specs::ReadDecls::params_in))]
fn params(alloc: Global, left: u32, ts: &[Lexeme]) -> Result<(Items<Param>, &[Lexeme]), Stop>
    ensures { Gives (λ x. (x.0, x.1.now)) result (params_in true left ts.now) }
{
    if starts(Mark::CloseParen, ts) {
        return Ok((Items::new(alloc), ts));
    }
    let (first, rest) = param(alloc, left, 1, ts)?;
    let (others, rest) = next_params(alloc, left, rest)?;
    Ok((joined(alloc, first, others)?, rest))
}

/// The parameters behind a `(`, from that mark on, with its `)`.
#[tactic(auto, unfolding(jn_grammar::specs::ReadDecls::params_of))]
fn params_inside(alloc: Global, left: u32, ts: &[Lexeme]) -> Result<(Items<Param>, &[Lexeme]), Stop>
    ensures { Gives (λ x. (x.0, x.1.now)) result (params_of true left ts.now) }
{
    if left == 0 {
        return Err(passed(Limit::Nesting, ts));
    }
    let (params, rest) = params(alloc, left - 1, behind(ts))?;
    let (_, rest) = take(Mark::CloseParen, rest)?;
    Ok((params, rest))
}

/// A sharing constraint: two views with an arrow between them.
#[tactic(auto, unfolding(jn_grammar::specs::ReadDecls::rel_in))]
fn rel(alloc: Global, left: u32, ts: &[Lexeme]) -> Result<(Constraint, &[Lexeme]), Stop>
    ensures { Gives (λ x. (x.0, x.1.now)) result (rel_in left ts.now) }
{
    let (from, rest) = view(alloc, left, ts)?;
    let (_, rest) = take(Mark::Arrow, rest)?;
    let (to, rest) = view(alloc, left, rest)?;
    Ok((Constraint { from, to }, rest))
}

/// A further constraint, from the comma before it on.
#[tactic(auto, unfolding(jn_grammar::specs::ReadDecls::next_rel_in))]
fn next_rel(alloc: Global, left: u32, ts: &[Lexeme]) -> Result<(Constraint, &[Lexeme]), Stop>
    ensures { (k : ℕ) → Gives (λ x. (x.0, x.1.now)) result (next_rel_in left k ts.now) }
{
    rel(alloc, left, behind(ts))
}

/// The constraints behind the first.
fn next_rels(
    alloc: Global,
    left: u32,
    ts: &[Lexeme],
) -> Result<(Items<Constraint>, &[Lexeme]), Stop>
    ensures { Gives (λ x. (x.0, x.1.now)) result (row (begins (words.Mark Comma)) (next_rel_in left) 1 ts.now) }
{
    let mut found = Items::new(alloc);
    let mut rest = ts;
    'row: while starts(Mark::Comma, rest) {
        let (item, after) = next_rel(alloc, left, rest)?;
        found.push(item)?;
        rest = after;
    }
    Ok((found, rest))
}

/// The constraints of a method, of which there may be none.
#[tactic(auto, unfolding(jn_grammar::specs::ReadDecls::sharing_in))]
fn sharing(alloc: Global, left: u32, ts: &[Lexeme]) -> Result<(Items<Constraint>, &[Lexeme]), Stop>
    ensures { Gives (λ x. (x.0, x.1.now)) result (sharing_in left ts.now) }
{
    if !starts_key(Keyword::Sharing, ts) {
        return Ok((Items::new(alloc), ts));
    }
    let (first, rest) = rel(alloc, left, behind(ts))?;
    let mut rels = alone(alloc, first)?;
    let (others, rest) = next_rels(alloc, left, rest)?;
    rels.append(others)?;
    Ok((rels, rest))
}

/// A further name of a list, from the ampersand before it on.
#[tactic(auto, unfolding(jn_grammar::specs::ReadDecls::next_name_in))]
fn next_name(ts: &[Lexeme]) -> Result<(Named, &[Lexeme]), Stop>
    ensures { (k : ℕ) → Gives (λ x. (x.0, x.1.now)) result (next_name_in k ts.now) }
{
    name(behind(ts))
}

/// The names of a list behind the first.
fn next_names(alloc: Global, ts: &[Lexeme]) -> Result<(Items<Named>, &[Lexeme]), Stop>
    ensures { Gives (λ x. (x.0, x.1.now)) result (row (begins (words.Mark Ampersand)) next_name_in 1 ts.now) }
{
    let mut found = Items::new(alloc);
    let mut rest = ts;
    'row: while starts(Mark::Ampersand, rest) {
        let (item, after) = next_name(rest)?;
        found.push(item)?;
        rest = after;
    }
    Ok((found, rest))
}

/// The names behind a keyword, which may not be there.
#[tactic(auto, unfolding(jn_grammar::specs::ReadDecls::list_in, jn_grammar::specs::ReadDecls::listed_in))]
fn listed(alloc: Global, key: Keyword, ts: &[Lexeme]) -> Result<(Items<Named>, &[Lexeme]), Stop>
    ensures { Gives (λ x. (x.0, x.1.now)) result (list_in key ts.now) }
{
    if !starts_key(key, ts) {
        return Ok((Items::new(alloc), ts));
    }
    let (first, rest) = name(behind(ts))?;
    let (others, rest) = next_names(alloc, rest)?;
    Ok((joined(alloc, first, others)?, rest))
}

/// A method of this result and name, from its `(` on.
#[tactic(auto, unfolding(jn_grammar::specs::ReadDecls::method_in))]
fn method(
    alloc: Global,
    left: u32,
    result_type: Option<TypeTerm>,
    name: Named,
    ts: &[Lexeme],
) -> Result<(Member, &[Lexeme]), Stop>
    ensures { Gives (λ x. (x.0, x.1.now)) result (method_in true left result_type name ts.now) }
{
    let (params, rest) = params_inside(alloc, left, ts)?;
    let (sharing, rest) = sharing(alloc, left, rest)?;
    let (body, _, rest) = block(alloc, left, 0, rest)?;
    Ok((
        Member::Body(Method {
            result: result_type,
            name,
            params,
            sharing,
            body,
        }),
        rest,
    ))
}

/// A method, behind its `void`.
#[tactic(auto, unfolding(jn_grammar::specs::ReadDecls::void_in))]
fn void_method(alloc: Global, left: u32, ts: &[Lexeme]) -> Result<(Member, &[Lexeme]), Stop>
    ensures { Gives (λ x. (x.0, x.1.now)) result (void_in true left ts.now) }
{
    let (name, rest) = name(ts)?;
    if !starts(Mark::OpenParen, rest) {
        return Err(syntax(rest));
    }
    method(alloc, left, None, name, rest)
}

/// A field or a method, behind its type and name.
#[tactic(auto, unfolding(jn_grammar::specs::ReadDecls::typed_end_in))]
fn typed_end(
    alloc: Global,
    left: u32,
    ty: TypeTerm,
    name: Named,
    ts: &[Lexeme],
) -> Result<(Member, &[Lexeme]), Stop>
    ensures { Gives (λ x. (x.0, x.1.now)) result (typed_end_in true left ty name ts.now) }
{
    if starts(Mark::Semicolon, ts) {
        return Ok((Member::Slot(Field { ty, name }), behind(ts)));
    }
    if !starts(Mark::OpenParen, ts) {
        return Err(syntax(ts));
    }
    method(alloc, left, Some(ty), name, ts)
}

/// A field, or a method with a result.
#[tactic(auto, unfolding(jn_grammar::specs::ReadDecls::typed_in))]
fn typed(alloc: Global, left: u32, ts: &[Lexeme]) -> Result<(Member, &[Lexeme]), Stop>
    ensures { Gives (λ x. (x.0, x.1.now)) result (typed_in true left ts.now) }
{
    let (ty, rest) = type_term(alloc, left, ts)?;
    let (name, rest) = name(rest)?;
    typed_end(alloc, left, ty, name, rest)
}

/// Members at this depth, of a declaration of the kind, in braces.
#[cycle(member)]
#[tactic(auto, unfolding(jn_grammar::specs::ReadDecls::body_in))]
fn body(
    alloc: Global,
    left: u32,
    kind: Kind,
    depth: u32,
    ts: &[Lexeme],
) -> Result<(Items<Member>, &[Lexeme]), Stop>
    ensures { Gives (λ x. (x.0, x.1.now)) result (body_in true left (members_of true left) kind depth ts.now) }
{
    if !starts(Mark::OpenBrace, ts) {
        return Err(syntax(ts));
    }
    let (members, rest) = members_inside(alloc, left, kind, depth, ts)?;
    let (_, rest) = take(Mark::CloseBrace, rest)?;
    Ok((members, rest))
}

/// A declaration of the kind at this depth, behind its keyword.
#[cycle(member)]
#[tactic(auto, unfolding(jn_grammar::specs::ReadDecls::inner_in))]
fn inner(
    alloc: Global,
    left: u32,
    kind: Kind,
    depth: u32,
    ts: &[Lexeme],
) -> Result<(Decl, &[Lexeme]), Stop>
    ensures { Gives (λ x. (x.0, x.1.now)) result (inner_in true left (members_of true left) kind depth ts.now) }
{
    let (name, deeper, rest) = decl_name(depth, ts)?;
    let (extends, rest) = listed(alloc, Keyword::Extends, rest)?;
    let (shares, rest) = listed(alloc, Keyword::Shares, rest)?;
    let (members, rest) = body(alloc, left, kind, deeper, rest)?;
    Ok((
        Decl {
            kind,
            name,
            extends,
            shares,
            adapts: Items::new(alloc),
            members,
        },
        rest,
    ))
}

/// A member at this depth of a declaration of the kind: in a package only declarations stand.
#[cycle(member)]
#[tactic(auto, unfolding(jn_grammar::specs::ReadDecls::member_in, jn_grammar::specs::ReadDecls::member_by, jn_grammar::specs::ReadDecls::inner_member_in))]
fn member(
    alloc: Global,
    left: u32,
    kind: Kind,
    depth: u32,
    ts: &[Lexeme],
) -> Result<(Member, &[Lexeme]), Stop>
    ensures { (i : ℕ) → Gives (λ x. (x.0, x.1.now)) result (member_in true left (members_of true left) kind depth i ts.now) }
{
    match ts {
        [] => Err(syntax(ts)),
        [t, rest @ ..] => match (t.word, kind) {
            (Word::Keyword(Keyword::Class), _) => {
                let (decl, rest) = inner(alloc, left, Kind::Class, depth, rest)?;
                Ok((Member::Inner(decl), rest))
            }
            (Word::Keyword(Keyword::Package), _) => {
                let (decl, rest) = inner(alloc, left, Kind::Package, depth, rest)?;
                Ok((Member::Inner(decl), rest))
            }
            (Word::Keyword(Keyword::Void), Kind::Class) => void_method(alloc, left, rest),
            (_, Kind::Class) => typed(alloc, left, ts),
            (_, Kind::Package) => Err(syntax(ts)),
        },
    }
}

/// Members up to a `}`.
#[cycle(member)]
fn members(
    alloc: Global,
    left: u32,
    kind: Kind,
    depth: u32,
    ts: &[Lexeme],
) -> Result<(Items<Member>, &[Lexeme]), Stop>
    ensures { Gives (λ x. (x.0, x.1.now)) result (members_in true left (members_of true left) kind depth ts.now) }
{
    let mut found = Items::new(alloc);
    let mut rest = ts;
    'row: while is_in_body(rest) {
        let (item, after) = member(alloc, left, kind, depth, rest)?;
        found.push(item)?;
        rest = after;
    }
    Ok((found, rest))
}

/// The members behind a `{`, from that mark on, without its `}`.
#[cycle(member)]
#[tactic(auto, unfolding(jn_grammar::specs::ReadDecls::members_of))]
fn members_inside(
    alloc: Global,
    left: u32,
    kind: Kind,
    depth: u32,
    ts: &[Lexeme],
) -> Result<(Items<Member>, &[Lexeme]), Stop>
    ensures { Gives (λ x. (x.0, x.1.now)) result (members_of true left kind depth ts.now) }
{
    if left == 0 {
        return Err(passed(Limit::Nesting, ts));
    }
    members(alloc, left - 1, kind, depth, behind(ts))
}

/// A top-level declaration of the kind, behind its keyword.
#[tactic(auto, unfolding(jn_grammar::specs::ReadDecls::top_decl_in))]
fn top_decl(alloc: Global, left: u32, kind: Kind, ts: &[Lexeme]) -> Result<(Decl, &[Lexeme]), Stop>
    ensures { Gives (λ x. (x.0, x.1.now)) result (top_decl_in true left (members_of true left) kind ts.now) }
{
    let (name, deeper, rest) = decl_name(1, ts)?;
    let (extends, rest) = listed(alloc, Keyword::Extends, rest)?;
    let (adapts, rest) = listed(alloc, Keyword::Adapts, rest)?;
    let (members, rest) = body(alloc, left, kind, deeper, rest)?;
    Ok((
        Decl {
            kind,
            name,
            extends,
            shares: Items::new(alloc),
            adapts,
            members,
        },
        rest,
    ))
}

#[tactic(auto, unfolding(jn_grammar::specs::ReadDecls::top_in, jn_grammar::specs::ReadDecls::top_by))]
fn top(alloc: Global, left: u32, ts: &[Lexeme]) -> Result<(Decl, &[Lexeme]), Stop>
    ensures { (i : ℕ) → Gives (λ x. (x.0, x.1.now)) result (top_in true left i ts.now) }
{
    match ts {
        [] => Err(syntax(ts)),
        [t, rest @ ..] => match t.word {
            Word::Keyword(Keyword::Class) => top_decl(alloc, left, Kind::Class, rest),
            Word::Keyword(Keyword::Package) => top_decl(alloc, left, Kind::Package, rest),
            _ => Err(syntax(ts)),
        },
    }
}

fn is_at_end(ts: &[Lexeme]) -> bool
    ensures { result ≡ begins words.End ts.now }
{
    match ts {
        [] => false,
        [t, ..] => matches!(t.word, Word::End),
    }
}

/// Whether a declaration may begin here: up to the end of the file.
fn is_in_file(ts: &[Lexeme]) -> bool
    ensures { result ≡ in_file ts.now }
{
    match ts {
        [] => false,
        [_, ..] => !is_at_end(ts),
    }
}

/// Declarations up to the end of the file.
#[tactic(auto, unfolding(jn_grammar::specs::ReadDecls::tops_in))]
fn tops(alloc: Global, left: u32, ts: &[Lexeme]) -> Result<(Items<Decl>, &[Lexeme]), Stop>
    ensures { Gives (λ x. (x.0, x.1.now)) result (tops_in true left ts.now) }
{
    let mut found = Items::new(alloc);
    let mut rest = ts;
    'row: while is_in_file(rest) {
        let (item, after) = top(alloc, left, rest)?;
        found.push(item)?;
        rest = after;
    }
    Ok((found, rest))
}

/// The declarations of a program: the words up to the end of the file, and nothing behind it.
#[tactic(auto, unfolding(jn_grammar::specs::ReadWhole::whole_in))]
pub fn program(alloc: Global, ts: &[Lexeme]) -> Result<(Items<Decl>, &[Lexeme]), Stop>
    ensures { Gives (λ x. (x.0, x.1.now)) result (program_in ts.now) }
{
    let (decls, rest) = tops(alloc, 200, ts)?;
    if !is_at_end(rest) {
        return Err(syntax(rest));
    }
    let after = behind(rest);
    if !after.is_empty() {
        return Err(syntax(after));
    }
    Ok((decls, after))
}
