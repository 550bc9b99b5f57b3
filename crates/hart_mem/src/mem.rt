//! The memory of a hart.

ghost use Rattle.rv_decode.specs.Instruction.{instr_of};
ghost use Rattle.std.specs.Prelude.{option_map, max, ℕ, ◌≡◌, ◌+◌, ◌-◌, ◌*◌, ◌/◌, ◌%◌, ◌^◌, ◌<◌, ◌≤◌, ◌&&◌, not, ◌==◌, IsTrue, IsOk, true, false, length, vec_len, Err, IfOk, OnOk, OnErr};
ghost use Rattle.spec_base.specs.Word.{byte_of};
ghost use Rattle.spec_base.specs.Layout.{range_end, is_lawful, helper_words, stub_words};
ghost use Rattle.rv_model.specs.Memory.{all_from, loaded, written};
ghost use Rattle.rv_model.specs.Rights.{is_data, in_range, rights_of};
ghost use Rattle.rv_model.specs.Space.{program_byte, sees, stored_in, word_at};
ghost use Rattle.program_model.specs.Loading.{data_of};
ghost use Rattle.hart_mem.specs.Access.{IsWidth, width_bytes};
ghost use Rattle.hart_mem.specs.Operation.{instr_of_operation};
ghost use Rattle.hart_mem.specs.Places.{place_of};
ghost use Rattle.hart_mem.specs.Paged.{TakesPages, end_page};
ghost use Rattle.hart_mem.specs.Held.{IsOffText, UsesSpare, data_byte, empty_space, lacks_frame, load_answer, shadow_words, most_frames, pages_stored, pages_wanted, space_of, spare_of, store_answer, text_words};

use crate::access::{Access, StoreFault, Width};
use crate::code::Code;
use crate::operation::Operation;
use crate::page_map::PageMap;
use crate::rights::{find_to_load, find_to_store, is_all_data, is_data, is_in_text, page_count};
use rv_decode::{Instr, decode};
use rv_model::Bytes;
use spec_base::{
    HELPER_WORDS, HELPERS_START, Layout, NoMemory, SHADOW_START, STUB_START, STUB_WORDS, Version,
    View,
};
use std::alloc::Global;
use std::marker::Model;

/// The memory of a hart: a program range in pages that are taken as they are first stored, the
/// words of the text, the code that a rewriter emits, and what its shadow and its stub keep.
///
/// A contract sees it by `space_of` as the memory of all parts, and by `spare_of` the number of
/// its spare pages.
#[derive(Drop)]
pub struct Mem {
    alloc: Global,
    layout: Layout,
    // The first address after the program range, which each load and each store looks at.
    end: u64,
    text: Code,
    shadow: Code,
    helpers: Code,
    stub: Code,
    pages: PageMap,
}

impl Model for Mem {
    ghost use Rattle.hart_mem.specs.Held.{Held};

    ghost Value = { Held };

    ghost use Rattle.std.specs.Prelude.{◌≡◌};
    ghost use Rattle.spec_base.specs.Layout.{range_end};
    ghost use Rattle.hart_mem.specs.Held.{IsWhole};

    ghost view = { λ m. record {
      layout = m.layout;
      text = m.text;
      shadow = m.shadow;
      helpers = m.helpers;
      stub = m.stub;
      pages = m.pages;
    } };

    ghost invariant = { λ m. IsWhole (record {
      layout = m.layout;
      text = m.text;
      shadow = m.shadow;
      helpers = m.helpers;
      stub = m.stub;
      pages = m.pages;
    }) × (m.end ≡ range_end m.layout.version) };
}

/// The most frames that the pages of a version's memory and 17 spare ones can take.
fn most_frames(version: Version) -> usize
    ensures { result ≡ most_frames version }
{
    match version {
        Version::One => 71_680,
        Version::Two => 274_432,
    }
}

impl Mem {
    /// A memory with a text, whose other bytes are zero. The pages of the program range aren't
    /// taken yet; those of all else are. Until `set_code` each word of the emitted code is 0.
    pub fn new(alloc: Global, layout: Layout, text: Vec<u32>) -> Result<Mem, NoMemory>
        requires lawful { IsTrue (is_lawful layout) }
        requires words { vec_len text ≡ text_words layout }
        ensures space { IfOk result (λ mem. space_of mem ≡ empty_space layout text.items) }
        ensures spare { IfOk result (λ mem. spare_of mem ≡ 0) }
    {
        let count = page_count(&layout);
        let mut pages = PageMap::new(alloc, count, most_frames(layout.version))?;
        let end = layout.version.range_end();
        let first = (end / 4096) as usize;
        pages.obtain_all(first, count)?;
        let text = Code::new(alloc, text)?;
        Ok(Mem {
            alloc,
            layout,
            end,
            text,
            shadow: Code::none(alloc),
            helpers: Code::none(alloc),
            stub: Code::none(alloc),
            pages,
        })
    }

    /// The layout with which the memory was made.
    #[tactic(auto, unfolding(crate::specs::Held::space_of, crate::specs::Held::spare_of))]
    pub fn layout(&self) -> Layout
        ensures value { result ≡ (space_of self.now).layout }
        ensures lawful { IsTrue (is_lawful (space_of self.now).layout) }
    {
        self.layout
    }

    /// How many frames are spare.
    #[tactic(auto, unfolding(crate::specs::Held::space_of, crate::specs::Held::spare_of))]
    pub fn spare(&self) -> usize
        ensures { result ≡ spare_of self.now }
    {
        self.pages.spare()
    }

    /// Sees to it that at least `n` frames are spare. Where memory is wanting, nothing changes.
    #[tactic(auto, unfolding(crate::specs::Held::space_of, crate::specs::Held::spare_of))]
    pub fn reserve(&mut self, n: usize) -> Result<(), NoMemory>
        requires { n ≤ 17 }
        ensures ok { OnOk result (spare_of self.new ≡ max (spare_of self.old) n) }
        ensures err { OnErr result (self.new ≡ self.old) }
        ensures table { self.new.pages.table ≡ self.old.pages.table }
        ensures space { space_of self.new ≡ space_of self.old }
    {
        self.pages.reserve(n)
    }

    /// Gives the emitted code: 16 words of shadow text for each word of the text and 16 for the
    /// guard block, the helpers, and the stub.
    #[tactic(auto, unfolding(crate::specs::Held::space_of, crate::specs::Held::spare_of))]
    pub fn set_code(
        &mut self,
        shadow: Vec<u32>,
        helpers: Vec<u32>,
        stub: Vec<u32>,
    ) -> Result<(), NoMemory>
        requires shadow { vec_len shadow ≡ shadow_words (space_of self.old).layout }
        requires helpers { vec_len helpers ≡ helper_words }
        requires stub { vec_len stub ≡ stub_words }
        ensures ok { OnOk result (space_of self.new ≡ record (space_of self.old) { shadow = shadow.items; helpers = helpers.items; stub = stub.items }) }
        ensures err { OnErr result (self.new ≡ self.old) }
        ensures spare { spare_of self.new ≡ spare_of self.old }
    {
        let shadow = Code::new(self.alloc, shadow)?;
        let helpers = Code::new(self.alloc, helpers)?;
        let stub = Code::new(self.alloc, stub)?;
        self.shadow = shadow;
        self.helpers = helpers;
        self.stub = stub;
        Ok(())
    }

    /// The word at pc of the view's code. None exactly where pc is outside it or no multiple of 4.
    #[tactic(auto, unfolding(crate::specs::Held::space_of, crate::specs::Held::spare_of))]
    pub fn fetch(&self, view: View, pc: u64) -> Option<u32>
        ensures { result ≡ word_at view (space_of self.now) pc }
    {
        match view {
            View::Plain | View::Program => self.text.word_at(self.layout.text_start, pc),
            View::Stub => self.stub.word_or_zero_at(STUB_WORDS, STUB_START, pc),
            View::Shadow => {
                if HELPERS_START <= pc {
                    self.helpers
                        .word_or_zero_at(HELPER_WORDS, HELPERS_START, pc)
                } else {
                    let count = 16 * (self.text.words().len() + 1);
                    self.shadow.word_or_zero_at(count, SHADOW_START, pc)
                }
            }
        }
    }

    /// The instruction of the word at pc of the view's code. None exactly where pc is outside it or
    /// no multiple of 4.
    pub fn instr_at(&self, view: View, pc: u64) -> Option<Instr>
        ensures { result ≡ option_map instr_of (word_at view (space_of self.now) pc) }
    {
        match self.fetch(view, pc) {
            Some(word) => Some(decode(word)),
            None => None,
        }
    }

    /// The operation of the word at pc of the view's code. None exactly where pc is outside it or
    /// no multiple of 4.
    #[tactic(auto, unfolding(crate::specs::Held::space_of, crate::specs::Held::spare_of))]
    #[inline(always)]
    pub fn operation_at(&self, view: View, pc: u64) -> Option<Operation>
        ensures { option_map instr_of_operation result ≡ option_map instr_of (word_at view (space_of self.now) pc) }
    {
        match view {
            View::Plain | View::Program => self.text.operation_at(self.layout.text_start, pc),
            View::Stub => self.stub.operation_or_zero_at(STUB_WORDS, STUB_START, pc),
            View::Shadow => {
                if HELPERS_START <= pc {
                    self.helpers
                        .operation_or_zero_at(HELPER_WORDS, HELPERS_START, pc)
                } else {
                    let count = 16 * (self.text.words().len() + 1);
                    self.shadow.operation_or_zero_at(count, SHADOW_START, pc)
                }
            }
        }
    }

    /// The number at an address, each byte of which is below 256. `Unaligned` exactly where the
    /// address is no multiple of the width, else `Out` exactly where a byte isn't one that the view
    /// loads.
    #[inline(always)]
    pub fn load(&self, view: View, address: u64, width: Width) -> Result<u64, Access>
        ensures value { result ≡ load_answer view (space_of self.now) address (width_bytes width) }
        ensures bound { IfOk result (λ number. number < 2 ^ (8 * width_bytes width)) }
        ensures bytes { IfOk result (λ number. (i : ℕ) → i < width_bytes width → sees view (space_of self.now) (address + i) < 256) }
    {
        let size = width.bytes() as u64;
        if address % size != 0 {
            return Err(Access::Unaligned);
        }
        match find_to_load(view, &self.layout, self.end, address, size) {
            Some(place) => Ok(self.number(view, address, place, size)),
            None => Err(Access::Out),
        }
    }

    // The number of bytes that the view loads, and their place.
    #[inline(always)]
    fn number(&self, view: View, address: u64, place: u64, size: u64) -> u64
        requires size { IsWidth size }
        requires aligned { address % size ≡ 0 }
        requires place { place ≡ place_of view self.now.layout address }
        requires allowed { IsTrue (all_from (rights_of view self.now.layout).load address size) }
        ensures value { result ≡ loaded (sees view (space_of self.now)) address size }
        ensures bound { result < 2 ^ (8 * size) }
        ensures bytes { (i : ℕ) → i < size → sees view (space_of self.now) (address + i) < 256 }
    {
        match view {
            View::Shadow => self.shadow_number(address, place, size),
            View::Plain | View::Program | View::Stub => {
                self.page_number(view, address, place, size)
            }
        }
    }

    // As `number`, for the shadow, which loads the text too.
    #[inline(always)]
    fn shadow_number(&self, address: u64, place: u64, size: u64) -> u64
        requires size { IsWidth size }
        requires aligned { address % size ≡ 0 }
        requires place { place ≡ place_of View.Shadow self.now.layout address }
        requires allowed { IsTrue (all_from (rights_of View.Shadow self.now.layout).load address size) }
        ensures value { result ≡ loaded (sees View.Shadow (space_of self.now)) address size }
        ensures bound { result < 2 ^ (8 * size) }
        ensures bytes { (i : ℕ) → i < size → sees View.Shadow (space_of self.now) (address + i) < 256 }
    {
        if self.layout.text_end <= address {
            return self.page_number(View::Shadow, address, place, size);
        }
        if address + (size - 1) < self.layout.text_start {
            return self.page_number(View::Shadow, address, place, size);
        }
        self.text_number(address, size)
    }

    // As `number`, for bytes of which none is of the text.
    #[inline(always)]
    fn page_number(&self, view: View, address: u64, place: u64, size: u64) -> u64
        requires size { IsWidth size }
        requires aligned { address % size ≡ 0 }
        requires place { place ≡ place_of view self.now.layout address }
        requires allowed { IsTrue (all_from (rights_of view self.now.layout).load address size) }
        requires off { view ≡ View.Shadow → IsOffText self.now.layout address size }
        ensures value { result ≡ loaded (sees view (space_of self.now)) address size }
        ensures bound { result < 2 ^ (8 * size) }
        ensures bytes { (i : ℕ) → i < size → sees view (space_of self.now) (address + i) < 256 }
    {
        self.pages.load(place as usize, size as usize)
    }

    // The number of bytes of the program range, of which some are of the text.
    #[inline(never)]
    fn text_number(&self, address: u64, size: u64) -> u64
        requires size { size ≤ 8 }
        requires inside { (i : ℕ) → i < size → IsTrue (in_range self.now.layout (address + i)) }
        requires fits { address + size ≤ 2 ^ 64 }
        ensures value { result ≡ loaded (sees View.Shadow (space_of self.now)) address size }
        ensures bound { result < 2 ^ (8 * size) }
        ensures bytes { (i : ℕ) → i < size → sees View.Shadow (space_of self.now) (address + i) < 256 }
    {
        let mut value: u64 = 0;
        for i in (0..size).rev() {
            value = value * 256 + self.range_byte(address + i) as u64;
        }
        value
    }

    // A byte of the program range, its text included.
    fn range_byte(&self, address: u64) -> u8
        requires { IsTrue (in_range self.now.layout address) }
        ensures { result ≡ sees View.Shadow (space_of self.now) address }
    {
        if is_in_text(&self.layout, address) {
            let offset = address - self.layout.text_start;
            byte_of(self.text.word((offset / 4) as usize), offset % 4)
        } else {
            self.pages.load(address as usize, 1) as u8
        }
    }

    /// Stores the lowest bytes of a value. `Unaligned` and `Out` as for a load, then `NoMemory`
    /// exactly where the page of the program range has no frame and none is spare. A store that
    /// is refused changes nothing. One to the program range gives its page a spare frame, where the
    /// page has none; one of the stub or of the shadow takes no frame, and is never `NoMemory`.
    #[tactic(auto, unfolding(crate::specs::Held::space_of))]
    #[inline(always)]
    pub fn store(
        &mut self,
        view: View,
        address: u64,
        width: Width,
        value: u64,
    ) -> Result<(), StoreFault>
        ensures answer { result ≡ store_answer view (space_of self.old) (lacks_frame view self.old address) address (width_bytes width) }
        ensures ok { OnOk result (space_of self.new ≡ stored_in view (space_of self.old) address (width_bytes width) value) }
        ensures err { OnErr result (self.new ≡ self.old) }
        ensures short { result ≡ Err StoreFault.NoMemory → spare_of self.old ≡ 0 }
        ensures pages { OnOk result (TakesPages self.old.pages self.new.pages (address / 4096) (address / 4096 + pages_stored view)) }
        ensures uses { UsesSpare self.old self.new }
        ensures kept { pages_stored view ≡ 0 → spare_of self.new ≡ spare_of self.old }
    {
        let size = width.bytes() as u64;
        if address % size != 0 {
            return Err(StoreFault::Unaligned);
        }
        let Some(place) = find_to_store(view, &self.layout, self.end, address, size) else {
            return Err(StoreFault::Out);
        };
        if !self.put(view, address, place, size, value) {
            return Err(StoreFault::NoMemory);
        }
        Ok(())
    }

    // Stores the lowest bytes of a value that the view may store. False, and nothing changes,
    // where their page has no frame and none is spare.
    #[inline(always)]
    fn put(&mut self, view: View, address: u64, place: u64, size: u64, value: u64) -> bool
        requires size { IsWidth size }
        requires aligned { address % size ≡ 0 }
        requires place { place ≡ place_of view self.old.layout address }
        requires allowed { IsTrue (all_from (rights_of view self.old.layout).store address size) }
        ensures answer { result ≡ not (lacks_frame view self.old address) }
        ensures ok { result ≡ true → space_of self.new ≡ stored_in view (space_of self.old) address size value }
        ensures err { result ≡ false → self.new ≡ self.old }
        ensures short { result ≡ false → spare_of self.old ≡ 0 }
        ensures pages { result ≡ true → TakesPages self.old.pages self.new.pages (address / 4096) (address / 4096 + pages_stored view) }
        ensures uses { result ≡ true → UsesSpare self.old self.new }
        ensures kept { pages_stored view ≡ 0 → spare_of self.new ≡ spare_of self.old }
    {
        if !self.pages.hold(place as usize / 4096) {
            return false;
        }
        let bytes = value.to_le_bytes();
        self.pages
            .write_first(place as usize, &bytes, size as usize);
        true
    }

    /// Writes bytes that are data, and gives their pages frames. `NoMemory` comes only where memory
    /// is wanting and fewer frames are spare than pages want one, which are at most 17 for 65,536
    /// bytes; nothing changes then.
    pub fn fill(&mut self, address: u64, bytes: &[u8]) -> Result<(), NoMemory>
        requires { IsTrue (all_from (is_data (space_of self.old).layout) address (length bytes.now)) }
        ensures ok { OnOk result (space_of self.new ≡ record (space_of self.old) { program = written (space_of self.old).program address bytes.now }) }
        ensures err { OnErr result (self.new ≡ self.old) }
        ensures none { length bytes.now ≡ 0 → self.new ≡ self.old }
        ensures pages { 0 < length bytes.now → OnOk result (TakesPages self.old.pages self.new.pages (address / 4096) (end_page address (length bytes.now))) }
        ensures uses { pages_wanted self.old address (length bytes.now) ≤ spare_of self.old → UsesSpare self.old self.new }
        ensures short { OnErr result (spare_of self.old < pages_wanted self.old address (length bytes.now)) }
        ensures enough { 17 ≤ spare_of self.old → length bytes.now ≤ 65536 → IsOk result }
    {
        if bytes.is_empty() {
            return Ok(());
        }
        self.pages.fill(address as usize, bytes)
    }

    /// Loads a part of a program: writes bytes of the program range where they are data. Those of
    /// the text are left off, since its words stand apart. Where memory is wanting, nothing changes.
    pub fn load_part(&mut self, address: u64, bytes: &[u8]) -> Result<(), NoMemory>
        requires above { 0x1000 ≤ address }
        requires below { address + length bytes.now ≤ range_end (space_of self.old).layout.version }
        ensures ok { OnOk result (space_of self.new ≡ record (space_of self.old) { program = data_of (space_of self.old).layout (written (space_of self.old).program address bytes.now) }) }
        ensures err { OnErr result (self.new ≡ self.old) }
        ensures none { length bytes.now ≡ 0 → self.new ≡ self.old }
        ensures pages { 0 < length bytes.now → OnOk result (TakesPages self.old.pages self.new.pages (address / 4096) (end_page address (length bytes.now))) }
        ensures short { OnErr result (spare_of self.old < pages_wanted self.old address (length bytes.now)) }
    {
        if bytes.is_empty() {
            return Ok(());
        }
        self.pages.fill(address as usize, bytes)
    }
}

// Byte i of a word, its lowest being byte 0.
fn byte_of(word: u32, i: u64) -> u8
    requires { i < 4 }
    ensures { result ≡ byte_of word i }
{
    (word >> (8 * i) & 0xFF) as u8
}

impl Bytes for Mem {
    ghost byte_at = { λ mem a. data_byte (space_of mem) a };

    fn byte(&self, address: u64) -> Option<u8> {
        if !is_data(&self.layout, address) {
            return None;
        }
        Some(self.pages.load(address as usize, 1) as u8)
    }

    fn is_all_data(&self, address: u64, count: u64) -> bool {
        is_all_data(&self.layout, address, count)
    }

    fn copy_to(&self, address: u64, into: &mut [u8]) {
        if !into.is_empty() {
            self.pages.copy_to(address as usize, into);
        }
    }
}
