//! Where the parts of a rewritten program stand in the address space.

ghost use Rattle.std.specs.Prelude.{◌≡◌, IsTrue, ◌↔◌};
ghost use Rattle.spec_base.specs.Layout.{range_end, image_limit, is_lawful};

/// Which program range a file is made for.
#[derive(Clone, Copy, Debug, PartialEq, Eq)]
pub enum Version {
    /// 256 MiB.
    One,
    /// 1 GiB.
    Two,
}

/// The first address of the program range.
pub const RANGE_START: u64 = 0x1000;

/// The longest text, in bytes.
pub const MAX_TEXT_BYTES: u64 = 1_048_576;

/// The most regions that a shadow may copy.
pub const MAX_REGIONS: u32 = 65_536;

/// The shadow text: a block of 16 words for each word of the text, and one guard block.
pub const SHADOW_START: u64 = 0x4000_0000;

/// The helpers that blocks jump to.
pub const HELPERS_START: u64 = 0x4110_0000;

/// How many words the helpers have.
pub const HELPER_WORDS: usize = 282;

/// The stub that performs calls.
pub const STUB_START: u64 = 0x4180_0000;

/// How many words the stub has.
pub const STUB_WORDS: usize = 71;

/// The link: the hint log and the restart box.
pub const LINK_START: u64 = 0x4200_0000;

/// How many bytes the link has.
pub const LINK_BYTES: u64 = 0x2000;

/// The region table: an entry of 4 bytes for each region of the program range.
pub const TABLE_START: u64 = 0x4300_0000;

/// The region list: the count in use, and 4 bytes for each slot.
pub const LIST_START: u64 = 0x4400_0000;

/// The copies: a slot of 256 bytes for each region in use.
pub const COPIES_START: u64 = 0x4500_0000;

/// How many bytes a region, and so a copy, has.
pub const COPY_BYTES: u64 = 256;

/// The private page of the stub, and that of the shadow: the top of the address space.
pub const PRIVATE_START: u64 = 0xFFFF_FFFF_FFFF_F800;

/// How many bytes a private page has.
pub const PRIVATE_BYTES: u64 = 2048;

/// The text of a program, the limit on its shadow's regions, and the version of its range.
#[derive(Clone, Copy, Debug, PartialEq, Eq)]
pub struct Layout {
    /// The first address of the text.
    pub text_start: u64,
    /// The first address after the text.
    pub text_end: u64,
    /// How many regions of 256 bytes the shadow may copy.
    pub regions: u32,
    /// Which program range it is made for.
    pub version: Version,
}

impl Version {
    /// The first address after the program range.
    pub fn range_end(self) -> u64
        ensures { result ≡ range_end self }
    {
        match self {
            Version::One => 0x1000_0000,
            Version::Two => 0x4000_0000,
        }
    }

    /// Segments end at or below this address, and a break is at most it.
    pub fn image_limit(self) -> u64
        ensures { result ≡ image_limit self }
    {
        self.range_end() - 0x10_0000
    }
}

impl Layout {
    /// Whether a program can have this layout: a text of 4-byte words inside the range of
    /// segments, neither empty nor over 1 MiB, and 1 to 65,536 regions.
    pub fn is_lawful(&self) -> bool
        ensures { result ≡ is_lawful self.now }
    {
        self.text_start % 4 == 0
            && self.text_end % 4 == 0
            && RANGE_START <= self.text_start
            && self.text_start < self.text_end
            && self.text_end <= self.version.image_limit()
            && self.text_end - self.text_start <= MAX_TEXT_BYTES
            && 1 <= self.regions
            && self.regions <= MAX_REGIONS
    }
}
