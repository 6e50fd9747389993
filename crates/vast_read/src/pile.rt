//! A stack that gives back what it no longer takes.

ghost use Rattle.std.specs.Prelude.{◌≡◌, [], ◌∷◌, OnOk, MatchOption};

use std::alloc::{AllocError, Global};
use std::marker::Model;
use std::mem::replace;
use vast_rows::Stack;

/// The items of a block.
const BLOCK_ITEMS: usize = 4096;

/// A stack in blocks, each of which is given back once its items left: what was heard of a file makes room for what is
/// built of it, and at most a block is copied where more is heard. In contracts it is the list of its items, the last one
/// pushed first.
#[derive(Drop)]
pub(crate) struct Pile<T> {
    alloc: Global,
    /// The block on top.
    top: Stack<T>,
    /// How many items it has.
    count: usize,
    /// Those below it, the last one first.
    below: Stack<Stack<T>>,
}

impl<T> Model for Pile<T> {
    ghost use Rattle.std.specs.Prelude.{List, ◌++◌};
    ghost use Rattle.std.specs.List.{flat_map};

    ghost Value = { List T };

    ghost view = { λ it. it.top ++ flat_map (λ (block : List T). block) it.below };
}

impl<T> Pile<T> {
    /// Nothing.
    pub(crate) fn new(alloc: Global) -> Pile<T>
        ensures { result ≡ [] }
    {
        Pile {
            alloc,
            top: Stack::new(alloc),
            count: 0,
            below: Stack::new(alloc),
        }
    }
}

impl<T: Drop> Pile<T> {
    /// The item on top, which leaves.
    pub(crate) fn pop(&mut self) -> Option<T>
        ensures { MatchOption result
            ((self.old ≡ []) × (self.new ≡ [])) (λ x. self.old ≡ (x ∷ self.new)) }
    {
        'blocks: loop {
            if let Some(item) = self.top.pop() {
                self.count = self.count.saturating_sub(1);
                return Some(item);
            }
            match self.below.pop() {
                Some(block) => self.top = block,
                None => return None,
            }
            self.count = BLOCK_ITEMS;
        }
    }

    /// One more on top.
    ///
    /// # Errors
    /// Out of memory: some of it may have left.
    pub(crate) fn push(&mut self, item: T) -> Result<(), AllocError>
        ensures { OnOk result (self.new ≡ (item ∷ self.old)) }
    {
        if self.count >= BLOCK_ITEMS {
            self.begin_block()?;
        }
        self.count = self.count.saturating_add(1);
        self.top.push(item)
    }

    /// A new block stands on top.
    fn begin_block(&mut self) -> Result<(), AllocError>
        ensures { OnOk result (self.new ≡ self.old) }
    {
        let block = replace(&mut self.top, Stack::new(self.alloc));
        self.count = 0;
        self.below.push(block)
    }
}
