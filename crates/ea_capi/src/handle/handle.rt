//! What C holds.
ghost use Rattle.std.specs.Prelude.{◌≡◌, Option, Some, None, MatchOption};
ghost use Rattle.ea_capi.specs.declared.handle.content.Content.{Content};

use crate::handle::content::Content;
use crate::handle::raw_box::Loose;
use std::alloc::Global;
use std::marker::Model;
use std::mem;
use std::ptr::null_mut;

#[repr(C)]
pub struct Handle {
    at: *mut u8,
    alloc: Global,
    pub ghost value: { Option Content },
}

impl Model for Handle {
    ghost use Rattle.ea_capi.specs.Held.{held};
    ghost use Rattle.ea_capi.specs.contracts.handle.content.Content.{the_row as content_row};

    ghost also_owns = { λ h. held content_row h.alloc h.at h.value };
}

impl Handle {
    fn empty(alloc: Global) -> Handle
        ensures { result.value ≡ None }
    {
        Handle {
            at: null_mut(),
            alloc,
        }
    }

    fn full(loose: Loose<Content, Global>) -> Handle
        ensures { result.value ≡ Some loose.value }
    {
        let Loose { at, alloc } = loose;
        Handle {
            at: at as *mut u8,
            alloc,
        }
    }

    fn open(self) -> Option<Loose<Content, Global>>
        ensures { MatchOption result (self.value ≡ None) (λ l. self.value ≡ Some l.value) }
    {
        let Handle { at, alloc } = self;
        if at.is_null() {
            None
        } else {
            Some(Loose {
                at: at as *mut Content,
                alloc,
            })
        }
    }

    pub fn take(&mut self, alloc: Global) -> Option<Box<Content, Global>>
        ensures old { MatchOption result (self.old.value ≡ None)
            (λ b. self.old.value ≡ Some b.value) }
        ensures new { self.new.value ≡ None }
    {
        match mem::replace(self, Handle::empty(alloc)).open() {
            None => None,
            Some(loose) => Some(loose.into_box()),
        }
    }

    pub fn put(&mut self, content: Box<Content, Global>)
        ensures { self.new.value ≡ Some content.value }
    {
        let before = mem::replace(self, Handle::full(Loose::of(content)));
        if let Some(loose) = before.open() {
            drop(loose.into_box());
        }
    }

    /// Takes the content of the handle and its box; the handle is empty then.
    pub fn empty_out(&mut self, alloc: Global) -> Option<(Box<Content, Global>, Content)>
        ensures old { MatchOption result (self.old.value ≡ None)
            (λ it. self.old.value ≡ Some it.1) }
        ensures new { self.new.value ≡ None }
    {
        let Some(mut room) = self.take(alloc) else {
            return None;
        };
        let content = Box::replace(&mut room, Content::Away);
        Some((room, content))
    }

    /// Puts a content into a box, and the box into the handle.
    pub fn fill(&mut self, room: Box<Content, Global>, content: Content)
        ensures { self.new.value ≡ Some content }
    {
        let mut room = room;
        let _ = Box::replace(&mut room, content);
        self.put(room);
    }
}
