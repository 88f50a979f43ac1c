//! The names that stand twice where they may stand once: a second declaration, field or method of one
//! name in a body, a second name in one list, a second parameter, a local where its name is in scope.

ghost use Rattle.std.specs.Prelude.{◌≡◌, ◌++◌, ◌||◌, List, [], ◌∷◌, map, reverse, nat_eq, option_map, IfOk, OnOk};
ghost use Rattle.jn_base.specs.declared.tree.Name.{Name};
ghost use Rattle.jn_base.specs.Duplicates.{Given, same_given, only_if, has_name, seconds, param_name, param_scope, in_block, in_stmt, in_method, refusal, duplicate, in_members, in_member, in_decl, in_decls, in_lists, duplicates};
ghost use Rattle.jn_header.specs.First.{first, IfPassed, SameNames, has_number, in_seen};

use indexmap::IndexSet;
use jn_base::path::Path;
use jn_base::refusal::{Refusal, Rule};
use jn_base::tree::{Decl, Member, Method, Name, Named, Param, Program, Stmt};
use sqlite_items::Items;
use std::alloc::{AllocError, Global};

/// The first name of a program that stands twice where it may stand once, as its refusal.
pub fn first_duplicate(alloc: Global, p: &Program) -> Result<Option<Refusal>, AllocError>
    ensures { IfOk result (λ found. found ≡ first (duplicates p.now)) }
{
    let program = Path {
        names: Items::new(alloc),
    };
    let mut seen = IndexSet::new(alloc);
    for d in p.decls.as_slice() {
        if has_number(&seen, d.name.name) {
            return Ok(Some(refusal(None, d.name)));
        }
        match in_decl(alloc, &program, d)? {
            Some(found) => return Ok(Some(found)),
            None => {}
        }
        add_number(&mut seen, d.name.name)?;
    }
    Ok(None)
}

/// The refusal at a second name.
fn refusal(class: Option<Path>, second: Named) -> Refusal
    ensures { result ≡ refusal class second }
{
    Refusal {
        rule: Rule::E05,
        at: second.at,
        class,
        member: Some(second.name),
        limit: None,
    }
}

/// The refusal at a second name of the class at this path.
fn duplicate(alloc: Global, path: &Path, second: Named) -> Result<Refusal, AllocError>
    ensures { IfOk result (λ r. r ≡ duplicate (reverse path.now.names) second) }
{
    let names = Items::from_slice(alloc, path.names.as_slice())?;
    Ok(refusal(Some(Path { names }), second))
}

/// The same, where there is a second name.
fn shown(alloc: Global, path: &Path, second: Option<Named>) -> Result<Option<Refusal>, AllocError>
    ensures { IfOk result (λ found. found ≡ option_map (duplicate (reverse path.now.names)) second) }
{
    match second {
        Some(second) => Ok(Some(duplicate(alloc, path, second)?)),
        None => Ok(None),
    }
}

fn has_name(names: &[Name], name: Name) -> bool
    ensures { result ≡ has_name names.now name }
{
    for n in names {
        if n.0 == name.0 {
            return true;
        }
    }
    false
}

/// Whether the number of the name is in the set, where it is found without a walk.
fn has_number(names: &IndexSet<u32>, name: Name) -> bool
    ensures { result ≡ has_number names.now.keys name }
{
    names.contains(&name.0)
}

fn add_number(names: &mut IndexSet<u32>, name: Name) -> Result<(), AllocError>
    ensures { OnOk result ((n : Name)
        → has_number names.new.keys n ≡ (nat_eq n.0 name.0 || has_number names.old.keys n)) }
{
    let (_, _) = names.insert_full(name.0)?;
    Ok(())
}

/// The names that the members of a body gave, by their numbers, each in the name space of its sort.
#[derive(Drop)]
struct Seen {
    decls: IndexSet<u32>,
    fields: IndexSet<u32>,
    methods: IndexSet<u32>,
}

fn name_of(m: &Member) -> Named
    ensures { result ≡ (in_member m.now).given.name }
{
    match m {
        Member::Inner(d) => d.name,
        Member::Slot(f) => f.name,
        Member::Body(method) => method.name,
    }
}

fn is_second(seen: &Seen, m: &Member) -> bool
    ensures { result ≡ in_seen seen.now (in_member m.now).given }
{
    match m {
        Member::Inner(d) => has_number(&seen.decls, d.name.name),
        Member::Slot(f) => has_number(&seen.fields, f.name.name),
        Member::Body(method) => has_number(&seen.methods, method.name.name),
    }
}

fn see(seen: &mut Seen, m: &Member) -> Result<(), AllocError>
    ensures { OnOk result ((g : Given) → in_seen seen.new g ≡ (same_given g (in_member m.now).given || in_seen seen.old g)) }
{
    match m {
        Member::Inner(d) => add_number(&mut seen.decls, d.name.name)?,
        Member::Slot(f) => add_number(&mut seen.fields, f.name.name)?,
        Member::Body(method) => add_number(&mut seen.methods, method.name.name)?,
    }
    Ok(())
}

/// In the body of the class at this path.
#[cycle(decl)]
fn in_members(alloc: Global, path: &Path, members: &[Member]) -> Result<Option<Refusal>, AllocError>
    ensures { IfOk result (λ found. found ≡ first (in_members (reverse path.now.names) [] (map in_member members.now))) }
{
    let mut seen = Seen {
        decls: IndexSet::new(alloc),
        fields: IndexSet::new(alloc),
        methods: IndexSet::new(alloc),
    };
    for m in members {
        if is_second(&seen, m) {
            return Ok(Some(duplicate(alloc, path, name_of(m))?));
        }
        match in_member(alloc, path, m)? {
            Some(found) => return Ok(Some(found)),
            None => {}
        }
        see(&mut seen, m)?;
    }
    Ok(None)
}

/// Inside a member of the class at this path.
#[cycle(decl)]
#[tactic(auto, using(crate::proofs::TwiceEquations::at_inner, crate::proofs::TwiceEquations::at_slot, crate::proofs::TwiceEquations::at_body, crate::proofs::TwiceSteps::first_map))]
fn in_member(alloc: Global, path: &Path, m: &Member) -> Result<Option<Refusal>, AllocError>
    ensures { IfOk result (λ found. found ≡ first ((in_member m.now).inside (reverse path.now.names))) }
{
    match m {
        Member::Inner(d) => in_decl(alloc, path, d),
        Member::Slot(_) => Ok(None),
        Member::Body(method) => shown(alloc, path, in_method(alloc, method)?),
    }
}

/// Inside a declaration of the namespace at this path.
#[cycle(decl)]
#[tactic(auto, using(crate::proofs::TwiceEquations::at_decl, crate::proofs::TwiceSteps::first_here, crate::proofs::TwiceSteps::first_behind))]
fn in_decl(alloc: Global, above: &Path, d: &Decl) -> Result<Option<Refusal>, AllocError>
    ensures { IfOk result (λ found. found ≡ first ((in_decl d.now).inside (reverse above.now.names))) }
{
    let path = above.down(alloc, d.name.name)?;
    match in_lists(alloc, &path, d)? {
        Some(found) => Ok(Some(found)),
        None => in_members(alloc, &path, d.members.as_slice()),
    }
}

/// In the three lists of a declaration.
#[tactic(auto, using(crate::proofs::TwiceSteps::first_map, crate::proofs::TwiceSteps::first_here, crate::proofs::TwiceSteps::first_behind))]
fn in_lists(alloc: Global, path: &Path, d: &Decl) -> Result<Option<Refusal>, AllocError>
    ensures { IfOk result (λ found. found ≡ first (in_lists (reverse path.now.names) d.now.extends d.now.shares d.now.adapts)) }
{
    let second = match in_list(alloc, d.extends.as_slice())? {
        Some(second) => Some(second),
        None => match in_list(alloc, d.shares.as_slice())? {
            Some(second) => Some(second),
            None => in_list(alloc, d.adapts.as_slice())?,
        },
    };
    shown(alloc, path, second)
}

/// The first name of a list that stands before in it.
fn in_list(alloc: Global, list: &[Named]) -> Result<Option<Named>, AllocError>
    ensures { IfOk result (λ found. found ≡ first (seconds [] list.now)) }
{
    let mut seen = Vec::new(alloc);
    for named in list {
        if has_name(seen.as_slice(), named.name) {
            return Ok(Some(*named));
        }
        seen.push(named.name)?;
    }
    Ok(None)
}

/// In a method: its parameters, then its locals.
fn in_method(alloc: Global, m: &Method) -> Result<Option<Named>, AllocError>
    ensures { IfOk result (λ found. found ≡ first (in_method m.now)) }
{
    let mut scope = Vec::new(alloc);
    match in_params(&mut scope, m.params.as_slice())? {
        Some(second) => Ok(Some(second)),
        None => in_block(&mut scope, m.body.as_slice()),
    }
}

/// The first parameter whose name is in scope. Where there is none, their names are added to the scope.
fn in_params(scope: &mut Vec<Name>, params: &[Param]) -> Result<Option<Named>, AllocError>
    ensures found { IfOk result (λ found. (S : List Name) → SameNames scope.old.items S
        → found ≡ first (seconds S (map param_name params.now))) }
    ensures bound { IfPassed result (scope.new.items ≡ scope.old.items ++ param_scope params.now) }
{
    for param in params {
        if has_name(scope.as_slice(), param.name.name) {
            return Ok(Some(param.name));
        }
        scope.push(param.name.name)?;
    }
    Ok(None)
}

/// The first local of a block whose name is in scope. Where there is none, the scope is as before.
#[cycle(stmt)]
fn in_block(scope: &mut Vec<Name>, stmts: &[Stmt]) -> Result<Option<Named>, AllocError>
    ensures found { IfOk result (λ found. (S : List Name) → SameNames scope.old.items S
        → found ≡ first (in_block (map in_stmt stmts.now) S)) }
    ensures kept { IfPassed result (scope.new.items ≡ scope.old.items) }
{
    let outer = scope.len();
    for stmt in stmts {
        match in_stmt(scope, stmt)? {
            Some(second) => return Ok(Some(second)),
            None => {}
        }
    }
    scope.truncate(outer);
    Ok(None)
}

/// The first local in a statement whose name is in scope. Where there is none, what the statement
/// declares is added to the scope.
#[cycle(stmt)]
#[tactic(auto, using(crate::proofs::TwiceEquations::at_block, crate::proofs::TwiceEquations::at_local, crate::proofs::TwiceEquations::at_if, crate::proofs::TwiceEquations::at_while, crate::proofs::TwiceEquations::at_assign, crate::proofs::TwiceEquations::at_set, crate::proofs::TwiceEquations::at_do, crate::proofs::TwiceEquations::at_return, crate::proofs::TwiceEquations::at_print, crate::proofs::TwiceEquations::at_text))]
fn in_stmt(scope: &mut Vec<Name>, stmt: &Stmt) -> Result<Option<Named>, AllocError>
    ensures found { IfOk result (λ found. (S : List Name) → SameNames scope.old.items S
        → found ≡ first ((in_stmt stmt.now).found S)) }
    ensures bound { IfPassed result (scope.new.items ≡ scope.old.items ++ (in_stmt stmt.now).binds) }
{
    match stmt {
        Stmt::Block(body) => in_block(scope, body.as_slice()),
        Stmt::While(_, body, _) => in_block(scope, body.as_slice()),
        Stmt::If(_, body, other, _) => match in_block(scope, body.as_slice())? {
            Some(second) => Ok(Some(second)),
            None => in_block(scope, other.as_slice()),
        },
        Stmt::Local(_, _, local, _) => in_local(scope, *local),
        Stmt::Assign(_, _)
        | Stmt::Set(_, _, _)
        | Stmt::Do(_)
        | Stmt::Return(_, _)
        | Stmt::Print(_, _)
        | Stmt::PrintText(_, _) => Ok(None),
    }
}

/// A local.
fn in_local(scope: &mut Vec<Name>, local: Named) -> Result<Option<Named>, AllocError>
    ensures found { IfOk result (λ found. (S : List Name) → SameNames scope.old.items S
        → found ≡ first (only_if (has_name S local.name) (local ∷ []))) }
    ensures bound { IfPassed result (scope.new.items ≡ scope.old.items ++ local.name ∷ []) }
{
    if has_name(scope.as_slice(), local.name) {
        return Ok(Some(local));
    }
    scope.push(local.name)?;
    Ok(None)
}
