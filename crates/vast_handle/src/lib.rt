//! A box as its pointer, which a C library hands out.
#![tactic(auto)]

ghost use Rattle.std.specs.Prelude.{◌≡◌};
ghost use Rattle.std_alloc.specs.Box.Ownership.{box_owns};

use std::alloc::Allocator;
use std::marker::Model;

/// What a box owns: the value at the pointer, and the right to free its block.
pub struct OwnedPointer<T, A: Allocator> {
    pub at: *mut T,
    pub alloc: A,
    pub ghost value: { T },
}

impl<T, A: Allocator> Model for OwnedPointer<T, A> {
    ghost also_owns = { λ p. box_owns (A.dealloc_token p.alloc) T.row p.at p.value };
}

impl<T: Drop, A: Allocator> OwnedPointer<T, A> {
    /// The box as its pointer.
    pub fn from_box(value: Box<T, A>) -> OwnedPointer<T, A>
        ensures { result.value ≡ value.value }
    {
        let (at, alloc) = Box::into_raw_with_allocator(value);
        OwnedPointer { at, alloc }
    }

    /// The box again.
    pub fn into_box(self) -> Box<T, A>
        ensures { result.value ≡ self.value }
    {
        let OwnedPointer { at, alloc } = self;
        unsafe { Box::from_raw(alloc, at) }
    }
}

#[cfg(test)]
mod tests {
    use super::OwnedPointer;

    #[test]
    fn a_box_comes_back(rt: HostRuntime) {
        let Ok(value) = Box::new(rt.alloc(), 7u64) else {
            assert!(rt; false);
            return;
        };
        let value = OwnedPointer::from_box(value).into_box();
        assert_eq!(rt; *value, 7);
    }
}
