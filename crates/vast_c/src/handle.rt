// The pointer to a session that C keeps.
ghost use Rattle.std.specs.Prelude.{◌≡◌, Option, MatchOption};
ghost use Rattle.std.specs.Coded.{coded_option};
ghost use Rattle.vast_c.specs.contracts.kept.Kept.{the_row as kept_row};
ghost use Rattle.vast_c.specs.declared.kept.Kept.{Kept as KeptSeen};

use crate::kept::Kept;
use std::alloc::Global;
use std::marker::Model;
use std::mem::replace;
use std::ptr::null_mut;
use vast_handle::OwnedPointer;

/// Null, or the one owner of a session. To C it is a pointer.
#[repr(C)]
pub struct Handle {
    at: *mut u8,
    alloc: Global,
    pub ghost kept: { Option KeptSeen } by { coded_option kept_row.coded },
}

impl Model for Handle {
    ghost use Rattle.vast_handle.specs.Internal.Kept.{owns_box};
    ghost use Rattle.vast_c.specs.contracts.kept.Kept.{the_row as kept_row};

    ghost also_owns = { λ h. owns_box kept_row h.alloc h.at h.kept };
}

// C may use it on any thread, in one call at a time.
unsafe impl Send for Handle {}

impl Handle {
    /// Takes the session out, and leaves null.
    pub(crate) fn take(&mut self, alloc: Global) -> Option<Box<Kept>>
        ensures had { MatchOption result (self.old.kept ≡ None) (λ b. self.old.kept ≡ Some b.value) }
        ensures closed { self.new.kept ≡ None }
    {
        replace(self, Handle::closed(alloc)).into_box()
    }

    /// Puts the session in, and drops one that was there.
    pub(crate) fn put(&mut self, kept: Box<Kept>)
        ensures { self.new.kept ≡ Some kept.value }
    {
        let handle = crosses(Handle::open(OwnedPointer::from_box(kept)));
        drop(replace(self, handle).into_box());
    }

    fn into_box(self) -> Option<Box<Kept>>
        ensures { MatchOption result (self.kept ≡ None) (λ b. self.kept ≡ Some b.value) }
    {
        let Some(kept) = self.into_pointer() else {
            return None;
        };
        Some(kept.into_box())
    }

    // The three functions below move what is owned, and call nothing. Each is proved by a walk.
    fn closed(alloc: Global) -> Handle
        ensures { result.kept ≡ None }
    {
        Handle {
            at: null_mut(),
            alloc,
        }
    }

    fn open(kept: OwnedPointer<Kept, Global>) -> Handle
        ensures { result.kept ≡ Some kept.value }
    {
        let OwnedPointer { at, alloc } = kept;
        Handle {
            at: at.cast::<u8>(),
            alloc,
        }
    }

    fn into_pointer(self) -> Option<OwnedPointer<Kept, Global>>
        ensures { MatchOption result (self.kept ≡ None) (λ p. self.kept ≡ Some p.value) }
    {
        let Handle { at, alloc } = self;
        if at.is_null() {
            None
        } else {
            Some(OwnedPointer {
                at: at.cast::<Kept>(),
                alloc,
            })
        }
    }
}

// What is handed to C may go to another thread: a call of this asks for the proof of `Send`.
fn crosses<T: Send>(value: T) -> T
    ensures { result ≡ value }
{
    value
}
