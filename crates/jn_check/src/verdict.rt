//! The verdict of a program.

ghost use Rattle.std.specs.Prelude.{◌≡◌, [], IfOk, Result};
ghost use Rattle.jn_reach.specs.Each.{Each};
ghost use Rattle.jn_base.specs.declared.refusal.Refusal.{Refusal as ARefusal};
ghost use Rattle.jn_base.specs.Duplicates.{duplicates};
ghost use Rattle.jn_base.specs.WithinLimits.{IsWithinLimits};
ghost use Rattle.jn_agree.specs.Rows.{bodies_of};
ghost use Rattle.jn_rules.specs.Plans.{Nothing};
ghost use Rattle.jn_rules.specs.Resolved.{IsResolved};
ghost use Rattle.jn_rules.specs.Verdict.{BodiesPass, HeadersPass, TreeVerdict, no_main};
ghost use Rattle.jn_heads.specs.Told.{Told};
ghost use Rattle.jn_header.specs.Judged.{AreParts};
ghost use Rattle.jn_expr.specs.Envs.{ArePartsOf, parts};
ghost use Rattle.jn_check.specs.Worlds.{IsWorld, WorldTold, HasParts, nothing};

use crate::main_class::has_main;
use crate::walk::check_bodies;
use crate::world::World;
use jn_base::names::{Resolved, Vars};
use jn_base::path::Path;
use jn_base::refusal::{Refusal, Rule};
use jn_base::tree::{Name, Place, Program};
use jn_expr::Env;
use jn_header::{CheckFault, Headers, check_headers, check_names};
use jn_intern::Pool;
use jn_subtype::Judge;
use jn_table::Table;
use sqlite_items::Items;
use std::alloc::{AllocError, Global};

/// The refusal of a program without a `main` to begin with.
fn no_main() -> Refusal
    ensures { result ≡ no_main }
{
    Refusal {
        rule: Rule::E26,
        at: Place { line: 1, column: 1 },
        class: None,
        member: None,
        limit: None,
    }
}

/// No marks.
fn no_marks(alloc: Global) -> Resolved {
    Resolved {
        class: Path {
            names: Items::new(alloc),
        },
        method: Name(0),
        terms: Items::new(alloc),
        vars: Items::new(alloc),
        members: Items::new(alloc),
        kinds: Items::new(alloc),
    }
}

/// What the check of bodies works with, before the first of them.
fn env_with(alloc: Global, table: Table, pool: Pool, headers: Headers) -> Result<Env, AllocError>
    ensures { IfOk result (λ env. HasParts table headers (parts env)) }
{
    let judge = Judge::new(alloc)?;
    Ok(Env {
        table,
        members: headers.members,
        groups: headers.groups,
        slots: headers.slots,
        pool,
        judge,
        masks: headers.masks,
        vars: Vars {
            list: Items::new(alloc),
        },
        class: Path {
            names: Items::new(alloc),
        },
        method: Name(0),
        marks: no_marks(alloc),
    })
}

/// What is kept behind the check of bodies.
fn world_with(env: Env, bodies: Vec<Resolved>) -> World
    ensures table { result.table ≡ env.table }
    ensures members { result.members ≡ env.members }
    ensures groups { result.groups ≡ env.groups }
    ensures slots { result.slots ≡ env.slots }
    ensures bodies { result.bodies ≡ bodies }
{
    World {
        table: env.table,
        members: env.members,
        groups: env.groups,
        slots: env.slots,
        bodies,
    }
}

/// `Main`, where all bodies pass.
fn behind_bodies(
    alloc: Global,
    p: &Program,
    env: Env,
    bodies: Vec<Resolved>,
) -> Result<World, CheckFault>
    requires passes { BodiesPass p.now }
    requires parts { ArePartsOf p.now (parts env) }
    requires bodies { Each (IsResolved p.now) (bodies_of p.now) bodies.items }
    ensures { WorldTold p.now result }
{
    if !has_main(alloc, p, &env.table, &env.members)? {
        return Err(CheckFault::Refused(no_main()));
    }
    Ok(world_with(env, bodies))
}

/// The bodies and `Main`, where what stands outside bodies passes.
fn behind_headers(
    alloc: Global,
    p: &Program,
    table: Table,
    pool: Pool,
    headers: Headers,
) -> Result<World, CheckFault>
    requires limits { IsWithinLimits p.now }
    requires once { duplicates p.now ≡ [] }
    requires passes { HeadersPass p.now }
    requires parts { AreParts p.now table headers }
    ensures { WorldTold p.now result }
{
    let mut env = env_with(alloc, table, pool, headers)?;
    let mut bodies = Vec::new(alloc);
    match check_bodies(alloc, p, &mut env, &mut bodies) {
        Err(fault) => Err(fault),
        Ok(()) => behind_bodies(alloc, p, env, bodies),
    }
}

/// The class table, the headers and all behind them, where no name stands twice.
fn behind_names(alloc: Global, p: &Program) -> Result<World, CheckFault>
    requires limits { IsWithinLimits p.now }
    requires once { duplicates p.now ≡ [] }
    ensures { WorldTold p.now result }
{
    let mut table = Table::new(alloc, p)?;
    let mut pool = Pool::new(alloc)?;
    match check_headers(alloc, p, &mut table, &mut pool) {
        Err(fault) => Err(fault),
        Ok(headers) => behind_headers(alloc, p, table, pool, headers),
    }
}

/// Whether a program passes, and what it is known by then; or the first refusal: a name that stands twice; what it says
/// outside its bodies; its bodies, in source order; no `Main` to begin with.
///
/// The program is within the limits: some source spells it but for its places.
pub fn check(alloc: Global, p: &Program) -> Result<World, CheckFault>
    requires { IsWithinLimits p.now }
    // The verdict of the tree is answered, and no other answer is given.
    ensures told { Told (TreeVerdict p.now) nothing result }
    ensures only { (o : Result Nothing ARefusal) → TreeVerdict p.now o → Told (λ a. a ≡ o) nothing result }
    // The parts are the definitions' values.
    ensures parts { IfOk result (λ w. IsWorld p.now w) }
{
    match check_names(alloc, p) {
        Err(fault) => Err(fault),
        Ok(()) => behind_names(alloc, p),
    }
}
