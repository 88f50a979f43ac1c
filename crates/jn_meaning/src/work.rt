ghost use Rattle.std.specs.Prelude.{◌≡◌, [], OnOk, MatchOption};
ghost use Rattle.jn_meaning.specs.Work.{does, todo_in};

use crate::act::Act;
use jn_base::tree::{Expr, Link, Stmt, Suffix};
use std::alloc::{AllocError, Global};

/// What is still to be done: a part of a body that is not taken apart yet, or an act.
#[derive(Clone, Copy)]
pub enum Item<'a> {
    /// Statements, and the number of the next local before them.
    Stmts(usize, &'a [Stmt]),
    /// Operands.
    Exprs(&'a [Expr]),
    /// An expression, whose value is kept or not.
    Expr(bool, &'a Expr),
    /// What stands behind an expression, of which the last value is kept or not.
    Parts(bool, &'a [Suffix]),
    /// The further operands of a chain.
    Links(&'a [Link]),
    Act(Act<'a>),
}

/// An item, and how many variables are in scope where it stands.
#[derive(Clone, Copy)]
pub struct Entry<'a> {
    pub scope: usize,
    pub item: Item<'a>,
}

/// An act, and how many variables are in scope where it stands.
#[derive(Clone, Copy)]
pub struct Due<'a> {
    pub scope: usize,
    pub act: Act<'a>,
}

/// What a body has still to do: the item that comes next is the last.
#[derive(Drop)]
pub struct Work<'a> {
    pub items: Vec<Entry<'a>>,
}

impl<'a> Work<'a> {
    /// Nothing.
    pub fn new(alloc: Global) -> Work<'a>
        ensures { todo_in result ≡ [] }
    {
        Work {
            items: Vec::new(alloc),
        }
    }

    /// Puts an item before what is to be done.
    pub fn put(&mut self, scope: usize, item: Item<'a>) -> Result<(), AllocError>
        ensures { OnOk result (todo_in self.new ≡ does item.entry scope (todo_in self.old)) }
    {
        self.items.push(Entry { scope, item })?;
        Ok(())
    }

    /// Takes the first item away.
    pub fn pop(&mut self) -> Option<Entry<'a>>
        ensures { MatchOption result ((todo_in self.old ≡ []) × (todo_in self.new ≡ [])) (λ x. todo_in self.old ≡ does x.item x.scope (todo_in self.new)) }
    {
        self.items.pop()
    }
}
