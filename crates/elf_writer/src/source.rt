//! The code of a rewritten program.

ghost use Rattle.std.specs.Prelude.{◌≡◌, ◌+◌, ◌*◌, ◌<◌, ◌≤◌, length, slice_index, take, drop};
ghost use Rattle.elf_writer.specs.RewrittenFile.{Code};
ghost use Rattle.elf_writer.specs.Writing.{listed};

use elf_image::Image;
use spec_base::Layout;

/// Four lists of words: the patched text of a program, the blocks of its shadow text, the helpers
/// and the stub. Each call needs an index inside its list.
pub trait CodeSource {
    /// The four lists.
    ghost code: { Self → Code };

    /// A word of the patched text.
    fn text(&self, index: u64) -> u32
        requires { index < length (code self.now).text }
        ensures { result ≡ slice_index (code self.now).text index };

    /// A block of 16 words of the shadow text; blocks are counted from 0.
    fn shadow(&self, block: u64) -> [u32; 16]
        requires { 16 * block + 16 ≤ length (code self.now).shadow }
        ensures { result ≡ take 16 (drop (16 * block) (code self.now).shadow) };

    /// A word of the helpers.
    fn helper(&self, index: u64) -> u32
        requires { index < length (code self.now).helpers }
        ensures { result ≡ slice_index (code self.now).helpers index };

    /// A word of the stub.
    fn stub(&self, index: u64) -> u32
        requires { index < length (code self.now).stub }
        ensures { result ≡ slice_index (code self.now).stub index };
}

/// The parts of a rewritten program: the image that it is made from, its layout, and its code as
/// lists of words, the text patched.
#[derive(Drop)]
pub struct Parts {
    /// The original's image.
    pub image: Image,
    /// The layout of the rewritten program.
    pub layout: Layout,
    /// The patched text.
    pub text: Vec<u32>,
    /// The blocks of the shadow text, one after another.
    pub shadow: Vec<u32>,
    /// The helpers.
    pub helpers: Vec<u32>,
    /// The stub.
    pub stub: Vec<u32>,
}

impl CodeSource for Parts {
    ghost code = { listed };

    fn text(&self, index: u64) -> u32 {
        self.text[index as usize]
    }

    fn shadow(&self, block: u64) -> [u32; 16] {
        let start = 16 * block as usize;
        let mut words = [0; 16];
        words.copy_from_slice(&self.shadow[start..start + 16]);
        words
    }

    fn helper(&self, index: u64) -> u32 {
        self.helpers[index as usize]
    }

    fn stub(&self, index: u64) -> u32 {
        self.stub[index as usize]
    }
}
