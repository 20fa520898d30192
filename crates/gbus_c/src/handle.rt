//! The handle of a session, as C holds it.

ghost use Rattle.std.specs.Prelude.{◌≡◌, Option, None, Some, MatchOption};
ghost use Rattle.gb_session.specs.declared.session.Session.{Session as Seen};
ghost use Rattle.gbus_c.specs.Handles.{handle_owns, held_coded};

mod parts;

use gb_session::Session;
use parts::Parts;
use std::alloc::Global;
use std::marker::Model;
use std::mem;
use std::ptr::null_mut;

/// A session that C holds, or none: the pointer is null then.
#[repr(C)]
pub struct Handle {
    at: *mut u8,
    alloc: Global,
    pub ghost session: { Option Seen } by { held_coded },
}

impl Model for Handle {
    ghost also_owns = { λ h. handle_owns h.alloc h.at h.session };
}

impl Handle {
    /// Takes the session out, and leaves none.
    pub(crate) fn take(&mut self, alloc: Global) -> Option<Box<Session>>
        ensures taken { MatchOption result (self.old.session ≡ None)
            (λ b. self.old.session ≡ Some b.value) }
        ensures none { self.new.session ≡ None }
    {
        let handle = mem::replace(self, Handle::empty(alloc));
        let parts = handle.into_parts()?;
        Some(parts.into_box())
    }

    /// Puts a session in.
    pub(crate) fn put(&mut self, session: Box<Session>)
        ensures { self.new.session ≡ Some session.value }
    {
        *self = Handle::of_parts(Parts::of(session));
    }

    /// No session.
    fn empty(alloc: Global) -> Handle
        ensures { result.session ≡ None }
    {
        Handle {
            at: null_mut(),
            alloc,
        }
    }

    fn of_parts(parts: Parts<Session, Global>) -> Handle
        ensures { result.session ≡ Some parts.value }
    {
        let Parts { at, alloc } = parts;
        Handle {
            at: at as *mut u8,
            alloc,
        }
    }

    fn into_parts(self) -> Option<Parts<Session, Global>>
        ensures { MatchOption result (self.session ≡ None) (λ p. self.session ≡ Some p.value) }
    {
        let Handle { at, alloc } = self;
        if at.is_null() {
            None
        } else {
            Some(Parts {
                at: at as *mut Session,
                alloc,
            })
        }
    }
}

impl Drop for Handle {
    fn drop(self) {
        if let Some(parts) = self.into_parts() {
            drop(parts.into_box());
        }
    }
}

unsafe impl Send for Handle {}
