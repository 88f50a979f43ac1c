ghost use Rattle.std.specs.Prelude.{◌≡◌, ◌++◌, ◌∷◌, [], ◌<◌, length, take, slice_get, slice_set, OnOk};
ghost use Rattle.jn_meaning.specs.Newest.{IsNewest, view_in, view_among};

use crate::value::Value;
use jn_base::names::{Var, Vars};
use jn_base::tree::Name;
use jn_table::ClassId;
use sqlite_items::Items;
use std::alloc::{AllocError, Global};

/// The variables in scope, in the order of their declarations, each with its value.
#[derive(Drop)]
pub struct Locals {
    pub vars: Vars,
    pub values: Vec<Value>,
    ghost paired: { length vars.list ≡ length values.items },
}

/// The newest variable of the name.
fn newest(vars: &[Var], x: Name) -> Option<usize>
    ensures { IsNewest vars.now x result }
{
    let mut left = vars.len();
    while left > 0 {
        left -= 1;
        if vars[left].name.0 == x.0 {
            return Some(left);
        }
    }
    None
}

/// The class of a reference.
pub fn view_in(v: Value) -> Option<ClassId>
    ensures { result ≡ view_in v }
{
    match v {
        Value::Reference(_, id) => Some(id),
        Value::Number(_) => None,
        Value::Truth(_) => None,
        Value::Null => None,
    }
}

impl Locals {
    /// No variable.
    pub fn new(alloc: Global) -> Locals
        ensures vars { result.vars.list ≡ [] }
        ensures values { result.values.items ≡ [] }
    {
        Locals {
            vars: Vars {
                list: Items::new(alloc),
            },
            values: Vec::new(alloc),
        }
    }

    /// How many there are.
    pub fn len(&self) -> usize
        ensures vars { result ≡ length self.now.vars.list }
    {
        self.vars.list.len()
    }

    /// One more variable, with its value.
    pub fn push(&mut self, var: Var, value: Value) -> Result<(), AllocError>
        ensures vars { OnOk result (self.new.vars.list ≡ self.old.vars.list ++ var ∷ []) }
        ensures values { OnOk result (self.new.values.items ≡ self.old.values.items ++ value ∷ []) }
    {
        self.values.push(value)?;
        match self.vars.list.push(var) {
            Ok(()) => Ok(()),
            Err(fault) => {
                self.values.pop();
                Err(fault)
            }
        }
    }

    /// Without those behind the first `n`.
    pub fn truncate(&mut self, n: usize)
        ensures vars { self.new.vars.list ≡ take n self.old.vars.list }
        ensures values { self.new.values.items ≡ take n self.old.values.items }
    {
        while self.values.len() > n {
            self.values.pop();
            self.vars.list.pop();
        }
    }

    /// The place of the newest variable of the name.
    pub fn newest(&self, x: Name) -> Option<usize>
        ensures { IsNewest self.now.vars.list x result }
    {
        newest(self.vars.list.as_slice(), x)
    }

    /// The value of the variable at that place.
    pub fn value(&self, i: usize) -> Option<Value>
        ensures { result ≡ slice_get self.now.values.items i }
    {
        self.values.get(i).copied()
    }

    /// The variable at that place gets the value.
    pub fn set(&mut self, i: usize, value: Value)
        requires { i < length self.old.values.items }
        ensures vars { self.new.vars ≡ self.old.vars }
        ensures values { self.new.values.items ≡ slice_set self.old.values.items i value }
    {
        self.values[i] = value;
    }

    /// The view of the variable of that path.
    pub fn view(&self, path: u32) -> Option<ClassId>
        ensures { result ≡ view_among self.now.vars.list self.now.values.items path }
    {
        for i in 0..self.values.len() {
            if self.vars.list.as_slice()[i].path == path {
                return view_in(self.values[i]);
            }
        }
        None
    }
}
