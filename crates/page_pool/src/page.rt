//! A page: 4,096 bytes.

ghost use Rattle.std.specs.Prelude.{◌≡◌, ◌+◌, ◌≤◌, length};
ghost use Rattle.std.specs.Borrow.{Lends, sem, Array, u8 as byte};
ghost use Rattle.page_pool.specs.Pages.{blank_page, overwritten};

use std::marker::Model;

/// How many bytes a page has.
pub const PAGE_BYTES: usize = 4096;

/// A contract sees a page as its bytes.
#[derive(Drop)]
pub(crate) struct Page {
    bytes: [u8; PAGE_BYTES],
}

impl Model for Page {
    ghost use Rattle.std.specs.Prelude.{ℕ, List};

    ghost Value = { List ℕ };

    ghost view = { λ p. p.bytes };
}

/// The bytes of a page of zeros.
#[tactic(auto, unfolding(crate::specs::Pages::blank_page))]
pub(crate) fn blank_bytes() -> &'static [u8]
    ensures value { result.now ≡ blank_page }
    ensures len { length result.now ≡ 4096 }
{
    const BLANK: &[u8] = &[0; PAGE_BYTES];
    BLANK
}

impl Page {
    ghost use Rattle.page_pool.specs.contracts.page.Page.{the_row};

    /// A page of zeros.
    #[tactic(auto, unfolding(crate::specs::Pages::blank_page))]
    pub fn blank() -> Page
        ensures { result ≡ blank_page }
    {
        Page {
            bytes: [0; PAGE_BYTES],
        }
    }

    /// A page with the same bytes.
    pub fn copied(&self) -> Page
        ensures { result ≡ self.now }
    {
        Page { bytes: self.bytes }
    }

    pub fn bytes(&self) -> &[u8]
        ensures value { result.now ≡ self.now }
        ensures len { length result.now ≡ 4096 }
    {
        &self.bytes
    }

    pub fn bytes_mut(&mut self) -> &mut [u8]
        ensures* writes_back { sem 𝓛 (Lends the_row (Array byte 0) self.entry result (λ bytes. bytes)) }
        ensures value { result.now ≡ self.old }
        ensures len { length result.now ≡ 4096 }
    {
        self.bytes.as_mut_slice()
    }

    /// Writes bytes over those from `at` on.
    #[inline(always)]
    pub fn write(&mut self, at: usize, bytes: &[u8])
        requires { at + length bytes.now ≤ 4096 }
        ensures { self.new ≡ overwritten self.old at bytes.now }
    {
        self.bytes[at..at + bytes.len()].copy_from_slice(bytes);
    }
}
