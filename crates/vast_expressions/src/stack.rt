//! A stack.

ghost use Rattle.std.specs.Prelude.{◌≡◌, [], ◌∷◌, ◌++◌, reverse, OnOk, OnErr, MatchOption};

use std::alloc::{AllocError, Global};
use std::marker::Model;

/// A stack. In contracts it is the list of its items, the last one pushed first.
#[derive(Drop)]
pub(crate) struct Stack<T> {
    items: Vec<T>,
}

impl<T> Model for Stack<T> {
    ghost use Rattle.std.specs.Prelude.{List, reverse};

    ghost Value = { List T };

    ghost view = { λ it. reverse it.items.items };
}

impl<T> Stack<T> {
    /// Nothing.
    pub(crate) fn new(alloc: Global) -> Stack<T>
        ensures { result ≡ [] }
    {
        Stack {
            items: Vec::new(alloc),
        }
    }

    /// The item on top, which leaves.
    #[tactic(auto, using(crate::proofs::Stacked::pops))]
    pub(crate) fn pop(&mut self) -> Option<T>
        ensures { MatchOption result
            ((self.old ≡ []) × (self.new ≡ [])) (λ x. self.old ≡ (x ∷ self.new)) }
    {
        self.items.pop()
    }
}

impl<T: Drop> Stack<T> {
    /// One more on top.
    ///
    /// # Errors
    /// Out of memory: the stack is as it was.
    #[tactic(auto, using(crate::proofs::Stacked::pushes))]
    pub(crate) fn push(&mut self, item: T) -> Result<(), AllocError>
        ensures ok { OnOk result (self.new ≡ (item ∷ self.old)) }
        ensures err { OnErr result (self.new ≡ self.old) }
    {
        self.items.push(item)?;
        Ok(())
    }
}

impl<T: Copy> Stack<T> {
    /// These on top, the last one on top of all.
    ///
    /// # Errors
    /// Out of memory: the stack is as it was.
    #[tactic(auto, using(crate::proofs::Stacked::pushes_all))]
    pub(crate) fn push_all(&mut self, items: &[T]) -> Result<(), AllocError>
        ensures ok { OnOk result (self.new ≡ reverse items.now ++ self.old) }
        ensures err { OnErr result (self.new ≡ self.old) }
    {
        self.items.extend_from_slice(items)?;
        Ok(())
    }
}
