//! Pages side by side, which are cleared when one is first written to.

ghost use Rattle.std.specs.Prelude.{◌≡◌, ◌+◌, ◌<◌, ◌≤◌, length, [], OnOk};
ghost use Rattle.std.specs.Borrow.{Lends, sem, Array, u8 as byte};
ghost use Rattle.page_pool.specs.Pages.{blank_page, overwritten, page_in, reached, with_page};

use crate::page::{Page, blank_bytes};
use std::alloc::{AllocError, Global};
use std::marker::Model;

/// The pages up to the last that was written to; those behind it read as zeros. The machine gives the
/// memory of a page when it is first touched.
///
/// A contract sees the pages up to the last that was written to, and how many there is room for.
#[derive(Drop)]
pub(crate) struct Pages {
    pages: Vec<Page>,
}

impl Model for Pages {
    ghost use Rattle.std.specs.Prelude.{vec_capacity};
    ghost use Rattle.page_pool.specs.Pages.{Written};

    ghost Value = { Written };

    ghost view = { λ p. record { pages = p.pages.items; room = vec_capacity p.pages } };
}

impl Pages {
    ghost use Rattle.page_pool.specs.contracts.pages.Pages.{the_row};

    /// No pages, and no room for any.
    pub fn new(alloc: Global) -> Pages
        ensures { result ≡ record { pages = []; room = 0 } }
    {
        Pages {
            pages: Vec::new(alloc),
        }
    }

    /// Sees to it that there is room for so many.
    pub fn reserve(&mut self, count: usize) -> Result<(), AllocError>
        ensures ok { OnOk result (count ≤ self.new.room) }
        ensures more { self.old.room ≤ self.new.room }
        ensures same { self.new.pages ≡ self.old.pages }
    {
        self.pages.reserve(count.saturating_sub(self.pages.len()))
    }

    /// The bytes of the page at a place.
    #[inline(always)]
    pub fn bytes(&self, at: usize) -> &[u8]
        ensures value { result.now ≡ page_in self.now.pages at }
        ensures len { length result.now ≡ 4096 }
    {
        match self.pages.get(at) {
            Some(page) => page.bytes(),
            None => blank_bytes(),
        }
    }

    /// A page with the bytes of that at a place.
    pub fn copied(&self, at: usize) -> Page
        ensures { result ≡ page_in self.now.pages at }
    {
        match self.pages.get(at) {
            Some(page) => page.copied(),
            None => Page::blank(),
        }
    }

    // Adds blank pages up to a place.
    #[inline(never)]
    fn reach(&mut self, at: usize)
        requires { at < self.old.room }
        ensures { self.new ≡ record self.old { pages = reached self.old.pages at } }
    {
        for _ in self.pages.len()..at + 1 {
            self.pages.push_reserved(Page::blank());
        }
    }

    /// Puts a page at a place.
    pub fn set(&mut self, at: usize, page: Page)
        requires { at < self.old.room }
        ensures { self.new ≡ record self.old { pages = with_page self.old.pages at page } }
    {
        self.reach(at);
        self.pages[at] = page;
    }

    /// Clears the page at a place.
    pub fn clear(&mut self, at: usize)
        requires { at < self.old.room }
        ensures { self.new ≡ record self.old { pages = with_page self.old.pages at blank_page } }
    {
        self.set(at, Page::blank());
    }

    /// Writes bytes over those of the page at a place, from `from` on.
    #[inline(always)]
    pub fn write(&mut self, at: usize, from: usize, bytes: &[u8])
        requires place { at < self.old.room }
        requires fits { from + length bytes.now ≤ 4096 }
        ensures { self.new ≡ record self.old { pages = with_page self.old.pages at (overwritten (page_in self.old.pages at) from bytes.now) } }
    {
        if self.pages.len() <= at {
            self.reach(at);
        }
        self.pages[at].write(from, bytes);
    }

    /// The bytes of the page at a place, for writing.
    pub fn bytes_mut(&mut self, at: usize) -> &mut [u8]
        requires { at < self.old.room }
        ensures* writes_back { sem 𝓛 (Lends the_row (Array byte 0) self.entry result (λ page. record self.old { pages = with_page self.old.pages at page })) }
        ensures value { result.now ≡ page_in self.old.pages at }
        ensures len { length result.now ≡ 4096 }
    {
        self.reach(at);
        let page = &mut self.pages[at];
        page.bytes_mut()
    }
}
