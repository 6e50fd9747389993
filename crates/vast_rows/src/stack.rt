//! A stack.

ghost use Rattle.std.specs.Prelude.{◌≡◌, [], ◌∷◌, ◌++◌, reverse, OnOk, OnErr, MatchOption};
ghost use Rattle.vast_rows.specs.Internal.Stack.{below};

use std::alloc::{AllocError, Global};
use std::marker::Model;

/// A stack. In contracts it is the list of its items, the last one pushed first.
#[derive(Drop)]
pub struct Stack<T> {
    items: Vec<T>,
}

impl<T> Model for Stack<T> {
    ghost use Rattle.std.specs.Prelude.{List, reverse};

    ghost Value = { List T };

    ghost view = { λ it. reverse it.items.items };
}

impl<T> Stack<T> {
    /// Nothing.
    pub fn new(alloc: Global) -> Stack<T>
        ensures { result ≡ [] }
    {
        Stack {
            items: Vec::new(alloc),
        }
    }

    /// The item on top, which leaves.
    #[tactic(auto, using(crate::proofs::Stacked::pops))]
    pub fn pop(&mut self) -> Option<T>
        ensures { MatchOption result
            ((self.old ≡ []) × (self.new ≡ [])) (λ x. self.old ≡ (x ∷ self.new)) }
    {
        self.items.pop()
    }

    /// The item on top.
    #[tactic(auto, using(crate::proofs::Stacked::tops))]
    pub(crate) fn top(&self) -> Option<&T>
        ensures { MatchOption result
            (self.now ≡ []) (λ x. self.now ≡ (x.now ∷ below self.now)) }
    {
        self.items.last()
    }

    /// The items, the top one last.
    pub(crate) fn items(&self) -> &[T]
        ensures { reverse result.now ≡ self.now }
    {
        &self.items
    }
}

impl<T: Drop> Stack<T> {
    /// One more on top.
    ///
    /// # Errors
    /// Out of memory: the stack is as it was.
    #[tactic(auto, using(crate::proofs::Stacked::pushes))]
    pub fn push(&mut self, item: T) -> Result<(), AllocError>
        ensures ok { OnOk result (self.new ≡ (item ∷ self.old)) }
        ensures err { OnErr result (self.new ≡ self.old) }
    {
        self.items.push(item)?;
        Ok(())
    }
}

impl<T: Copy + Drop> Stack<T> {
    /// These items on top, the first one topmost.
    pub(crate) fn push_all(&mut self, items: &[T]) -> Result<(), AllocError>
        ensures { OnOk result (self.new ≡ items.now ++ self.old) }
    {
        let mut at = items.len();
        while at > 0 {
            at -= 1;
            self.push(items[at])?;
        }
        Ok(())
    }
}
