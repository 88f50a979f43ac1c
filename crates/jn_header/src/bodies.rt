ghost use Rattle.std.specs.Prelude.{◌≡◌, ◌∷◌, [], nat_eq, Contains, IfOk};
ghost use Rattle.indexmap.specs.IndexMap.{get};
ghost use Rattle.jn_base.specs.declared.tree.Method.{Method as AMethod};
ghost use Rattle.jn_base.specs.declared.tree.Program.{Program as AProgram};
ghost use Rattle.jn_base.specs.Paths.{Path as APath, methods};
ghost use Rattle.jn_base.specs.Members.{MethodAt};
ghost use Rattle.jn_reach.specs.Each.{Each};
ghost use Rattle.jn_table.specs.Rows.{IsNumber};
ghost use Rattle.jn_table.specs.Tables.{IsTableOf, IsFilledAt};
ghost use Rattle.jn_intern.specs.Pools.{InPool, Keeps};
ghost use Rattle.jn_heads.specs.Params.{header_in};
ghost use Rattle.jn_heads.specs.Sides.{IsPledge};
ghost use Rattle.jn_header.specs.Bodies.{IsJudged, OrMemory, head_header, HeadAt, AreHeads, AreHeadRows, ArePlaced, AreBodies};
ghost use Rattle.jn_header.specs.BodySteps.{AddsHeads};

use crate::places::places_of;
use indexmap::IndexMap;
use jn_base::names::Vars;
use jn_base::tree::{Constraint, Member, Method, Name, Named, Program};
use jn_base::types::Ty;
use jn_heads::{CheckFault, Header, Pledge, header_of, pledge_of};
use jn_homes::decl_near;
use jn_intern::{Pool, copied_type};
use jn_names::{Bound, Members};
use jn_table::{ClassId, Table};
use std::alloc::{AllocError, Global};

/// What the header of a declared body says: its name with the place, its parameters and its result, and what its
/// constraints stand for, in their order.
#[derive(Drop)]
pub struct BodyHead {
    pub name: Named,
    pub vars: Vars,
    pub result: Ty,
    pub pledges: Vec<Pledge>,
}

/// The heads of the methods that the declaration of a class has, and by the number of a name the place of its head.
#[derive(Drop)]
pub struct HeadRow {
    pub heads: Vec<BodyHead>,
    pub places: IndexMap<u32, usize>,
}

/// The methods of a program: which declarations are least, and the heads of the declared bodies of each class.
#[derive(Drop)]
pub struct Bodies {
    pub members: Members,
    pub rows: Vec<HeadRow>,
}

/// What the constraints of a method in the declaration of a class stand for, in their order.
fn pledges_of(
    alloc: Global,
    p: &Program,
    t: &mut Table,
    masks: &[Name],
    class: &Bound,
    method: Name,
    constraints: &[Constraint],
) -> Result<Vec<Pledge>, CheckFault>
    requires judged { IsJudged p.now t.old masks.now }
    requires declared { (m : AMethod) × (m.name.name ≡ method) × (m.sharing ≡ constraints.now)
        × MethodAt p.now class.now method m }
    ensures told { OrMemory (λ all. Each (IsPledge p.now class.now method) constraints.now all.items) result }
    ensures kept { t.new ≡ t.old }
{
    let mut all = Vec::new(alloc);
    for constraint in constraints {
        match pledge_of(alloc, p, t, masks, class, method, constraint) {
            Ok(pledge) => all.push(pledge)?,
            Err(fault) => return Err(fault),
        }
    }
    Ok(all)
}

/// The head, of the parts of a header.
fn head_with(
    alloc: Global,
    pool: &Pool,
    name: Named,
    header: Header,
    pledges: Vec<Pledge>,
) -> Result<BodyHead, AllocError>
    requires { InPool pool.now header.result }
    ensures name { IfOk result (λ x. x.name ≡ name) }
    ensures header { IfOk result (λ x. head_header x ≡ header_in pool.now header) }
    ensures pledges { IfOk result (λ x. x.pledges ≡ pledges) }
{
    let result = copied_type(alloc, pool.show(header.result))?;
    Ok(BodyHead {
        name,
        vars: header.at.vars,
        result,
        pledges,
    })
}

/// The head of a method in the declaration of a class.
fn body_head(
    alloc: Global,
    p: &Program,
    t: &mut Table,
    masks: &[Name],
    pool: &mut Pool,
    class: &Bound,
    m: &Method,
) -> Result<BodyHead, CheckFault>
    requires judged { IsJudged p.now t.old masks.now }
    requires declared { MethodAt p.now class.now m.now.name.name m.now }
    ensures told { OrMemory (HeadAt p.now class.now m.now) result }
    ensures keeps { Keeps pool.old pool.new }
    ensures kept { t.new ≡ t.old }
{
    match header_of(alloc, p, t, masks, pool, class, m) {
        Err(fault) => Err(fault),
        Ok(header) => {
            match pledges_of(alloc, p, t, masks, class, m.name.name, m.sharing.as_slice()) {
                Err(fault) => Err(fault),
                Ok(pledges) => Ok(head_with(alloc, pool, m.name, header, pledges)?),
            }
        }
    }
}

/// Adds the head of a member of the declaration of a class, where it is a method.
fn add_head(
    alloc: Global,
    p: &Program,
    t: &mut Table,
    masks: &[Name],
    pool: &mut Pool,
    class: &Bound,
    m: &Member,
    out: &mut Vec<BodyHead>,
) -> Result<(), CheckFault>
    requires judged { IsJudged p.now t.old masks.now }
    requires declared { (x : AMethod) → Contains (methods (m.now ∷ [])) x → MethodAt p.now class.now x.name.name x }
    ensures told { OrMemory (λ u. AddsHeads p.now class.now (methods (m.now ∷ [])) out.old.items out.new.items) result }
    ensures keeps { Keeps pool.old pool.new }
    ensures kept { t.new ≡ t.old }
{
    match m {
        Member::Inner(_) => Ok(()),
        Member::Slot(_) => Ok(()),
        Member::Body(m) => match body_head(alloc, p, t, masks, pool, class, m) {
            Err(fault) => Err(fault),
            Ok(head) => Ok(out.push(head)?),
        },
    }
}

/// The heads of the methods among the members of the declaration of a class, in their order.
fn heads_of(
    alloc: Global,
    p: &Program,
    t: &mut Table,
    masks: &[Name],
    pool: &mut Pool,
    class: &Bound,
    members: &[Member],
) -> Result<Vec<BodyHead>, CheckFault>
    requires judged { IsJudged p.now t.old masks.now }
    requires declared { (x : AMethod) → Contains (methods members.now) x → MethodAt p.now class.now x.name.name x }
    ensures told { OrMemory (λ all. Each (HeadAt p.now class.now) (methods members.now) all.items) result }
    ensures keeps { Keeps pool.old pool.new }
    ensures kept { t.new ≡ t.old }
{
    let mut all = Vec::new(alloc);
    for m in members {
        match add_head(alloc, p, t, masks, pool, class, m, &mut all) {
            Ok(()) => {}
            Err(fault) => return Err(fault),
        }
    }
    Ok(all)
}

/// The path of a number.
pub fn class_of(alloc: Global, t: &Table, id: ClassId) -> Result<Bound, AllocError>
    requires { IsFilledAt t.now id }
    ensures { IfOk result (λ class. (p : AProgram) (R : APath) → IsTableOf p t.now
        → IsNumber t.now.known.items id R → class ≡ R) }
{
    Bound::of(alloc, t.row(id).path.names.as_slice())
}

/// The heads of the methods that the declaration of a class has; a class that isn't declared has none.
fn heads_at(
    alloc: Global,
    p: &Program,
    t: &mut Table,
    masks: &[Name],
    pool: &mut Pool,
    id: ClassId,
) -> Result<Vec<BodyHead>, CheckFault>
    requires judged { IsJudged p.now t.old masks.now }
    requires filled { IsFilledAt t.old id }
    ensures told { OrMemory (λ all. (R : APath) → IsNumber t.old.known.items id R → AreHeads p.now R all.items) result }
    ensures keeps { Keeps pool.old pool.new }
    ensures kept { t.new ≡ t.old }
{
    let class = class_of(alloc, t, id)?;
    let path = &t.row(id).path;
    match decl_near(p, path, t.way(path)) {
        None => Ok(Vec::new(alloc)),
        Some(decl) => heads_of(alloc, p, t, masks, pool, &class, decl.members.as_slice()),
    }
}

/// The row of some heads.
fn row_of(alloc: Global, heads: Vec<BodyHead>) -> Result<HeadRow, AllocError>
    ensures heads { IfOk result (λ row. row.heads.items ≡ heads.items) }
    ensures placed { IfOk result (λ row. ArePlaced row.heads.items (get nat_eq row.places)) }
{
    let places = places_of(alloc, &heads)?;
    Ok(HeadRow { heads, places })
}

/// The row of a class.
fn head_row(
    alloc: Global,
    p: &Program,
    t: &mut Table,
    masks: &[Name],
    pool: &mut Pool,
    id: ClassId,
) -> Result<HeadRow, CheckFault>
    requires judged { IsJudged p.now t.old masks.now }
    requires filled { IsFilledAt t.old id }
    ensures told { OrMemory (λ row. (R : APath) → IsNumber t.old.known.items id R → AreHeads p.now R row.heads.items) result }
    ensures placed { OrMemory (λ row. ArePlaced row.heads.items (get nat_eq row.places)) result }
    ensures keeps { Keeps pool.old pool.new }
    ensures kept { t.new ≡ t.old }
{
    match heads_at(alloc, p, t, masks, pool, id) {
        Err(fault) => Err(fault),
        Ok(heads) => Ok(row_of(alloc, heads)?),
    }
}

/// The rows of all numbers of a table.
fn head_rows(
    alloc: Global,
    p: &Program,
    t: &mut Table,
    masks: &[Name],
    pool: &mut Pool,
) -> Result<Vec<HeadRow>, CheckFault>
    requires { IsJudged p.now t.old masks.now }
    ensures told { OrMemory (λ rows. AreHeadRows p.now t.old.known.items rows.items) result }
    ensures keeps { Keeps pool.old pool.new }
    ensures kept { t.new ≡ t.old }
{
    let mut rows = Vec::new(alloc);
    for k in 0..t.known().len() {
        match head_row(alloc, p, t, masks, pool, ClassId(k as u16)) {
            Ok(row) => rows.push(row)?,
            Err(fault) => return Err(fault),
        }
    }
    Ok(rows)
}

/// The methods of a program whose class table and headers pass: which declarations are least, and the head of each
/// declared body.
pub fn bodies_of(
    alloc: Global,
    p: &Program,
    t: &mut Table,
    masks: &[Name],
    pool: &mut Pool,
) -> Result<Bodies, CheckFault>
    requires { IsJudged p.now t.old masks.now }
    ensures told { OrMemory (AreBodies p.now t.old) result }
    ensures keeps { Keeps pool.old pool.new }
    ensures kept { t.new ≡ t.old }
{
    let members = Members::build(alloc, p, t)?;
    match head_rows(alloc, p, t, masks, pool) {
        Err(fault) => Err(fault),
        Ok(rows) => Ok(Bodies { members, rows }),
    }
}
