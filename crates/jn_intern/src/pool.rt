ghost use Rattle.std.specs.Prelude.{◌≡◌, ◌+◌, ◌↔◌, [], length, IsTrue, IfOk, OnErr};
ghost use Rattle.jn_intern.specs.Pools.{InPool, shown, Keeps};

use crate::compare::is_type;
use crate::terms::copied_type;
use jn_base::types::Ty;
use sqlite_items::Items;
use std::alloc::{AllocError, Global};
use std::marker::Model;

/// The number of a type in a pool.
#[derive(Clone, Copy, Debug, PartialEq, Eq)]
pub struct TyId(pub usize);

/// Types by their numbers from 0, which contracts see as the list of their terms.
#[derive(Drop)]
pub struct Pool {
    alloc: Global,
    terms: Items<Ty>,
}

impl Model for Pool {
    ghost use Rattle.std.specs.Prelude.{List};
    ghost use Rattle.jn_base.specs.declared.types.Ty.{Ty as ATy};

    ghost Value = { List ATy };

    ghost view = { λ pool. pool.terms };
}

impl Pool {
    /// A pool without terms. It keeps the allocator.
    pub fn new(alloc: Global) -> Result<Pool, AllocError>
        ensures { IfOk result (λ pool. pool ≡ []) }
    {
        Ok(Pool {
            alloc,
            terms: Items::new(alloc),
        })
    }

    /// Adds the term and gives its number. Each older number shows the same; after a refusal the pool is as it was.
    pub fn intern(&mut self, t: &Ty) -> Result<TyId, AllocError>
        ensures shows { IfOk result (λ id. InPool self.new id × (shown self.new id ≡ t.now)) }
        ensures keeps { Keeps self.old self.new }
        ensures appends { IfOk result (λ id. (id.0 ≡ length self.old) × (length self.new ≡ length self.old + 1)) }
        ensures refused { OnErr result (self.new ≡ self.old) }
    {
        let number = self.terms.len();
        let term = copied_type(self.alloc, t)?;
        self.terms.push(term)?;
        Ok(TyId(number))
    }

    /// Whether two numbers have equal terms.
    pub fn same(&self, a: TyId, b: TyId) -> bool
        requires a { InPool self.now a }
        requires b { InPool self.now b }
        ensures { IsTrue result ↔ (shown self.now a ≡ shown self.now b) }
    {
        is_type(self.show(a), self.show(b))
    }

    /// The term of a number.
    pub fn show(&self, a: TyId) -> &Ty
        requires { InPool self.now a }
        ensures { result.now ≡ shown self.now a }
    {
        &self.terms.as_slice()[a.0]
    }

    /// How many numbers there are.
    pub fn len(&self) -> usize
        ensures { result ≡ length self.now }
    {
        self.terms.len()
    }
}
