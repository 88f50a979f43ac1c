ghost use Rattle.std.specs.Prelude.{◌≡◌, ◌<◌, [], ◌∷◌, ◌++◌, reverse, length, OnOk, IfOk, MatchOption};

use crate::value::Value;
use std::alloc::{AllocError, Global};
use std::marker::Model;

/// Operands, of which contracts see the latest first.
#[derive(Drop)]
pub struct Pile {
    items: Vec<Value>,
}

impl Model for Pile {
    ghost use Rattle.std.specs.Prelude.{List, reverse};
    ghost use Rattle.jn_meaning.specs.declared.value.Value.{Value as AValue};

    ghost Value = { List AValue };

    ghost view = { λ p. reverse p.items.items };
}

impl Pile {
    pub fn new(alloc: Global) -> Pile
        ensures { result ≡ [] }
    {
        Pile {
            items: Vec::new(alloc),
        }
    }

    pub fn push(&mut self, v: Value) -> Result<(), AllocError>
        ensures { OnOk result (self.new ≡ v ∷ self.old) }
    {
        self.items.push(v)?;
        Ok(())
    }

    pub fn pop(&mut self) -> Option<Value>
        ensures { MatchOption result (self.old ≡ []) (λ v. self.old ≡ v ∷ self.new) }
    {
        self.items.pop()
    }

    /// Takes the `n` latest operands away, and gives them in the order in which they were had; none where there are fewer.
    pub fn take_args(&mut self, n: usize) -> Result<Option<Vec<Value>>, AllocError>
        ensures { IfOk result (λ o. MatchOption o (length self.old < n)
            (λ args. (length args.items ≡ n) × (self.old ≡ reverse args.items ++ self.new))) }
    {
        if self.items.len() < n {
            return Ok(None);
        }
        let at = self.items.len() - n;
        let args = self.items.split_off(at)?;
        Ok(Some(args))
    }
}
