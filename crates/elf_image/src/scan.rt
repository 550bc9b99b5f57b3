//! One pass over the program header table.

ghost use Rattle.std.specs.Prelude.{◌≡◌, ◌+◌, ◌*◌, ◌<◌, ◌≤◌, length, ◌^◌};
ghost use Rattle.elf_image.specs.Scan.{IsScan, scan_answer, seen};

use crate::header::PROGRAM_HEADER_BYTES;
use crate::refusal::Refusal;
use crate::segments::{ProgramHeader, Segment};

/// What the entries seen so far show.
#[derive(Clone, Copy, Debug)]
pub(crate) struct Scan {
    /// One of them shows that the file is linked dynamically.
    pub(crate) dynamic: bool,
    /// One of them is the record of a rewritten file.
    pub(crate) rewritten: bool,
    /// One of them is no segment, and passed over.
    pub(crate) skipped: bool,
    /// A segment is misplaced or starts before the end of one that precedes it.
    pub(crate) misplaced: bool,
    /// The greatest end of a segment.
    pub(crate) reached: u128,
    /// How many segments are executable and have a file part.
    pub(crate) code_segments: u32,
    /// The first of these.
    pub(crate) code: Option<Segment>,
}

impl Scan {
    /// The scan after one more entry.
    fn with(self, entry: &ProgramHeader, limit: u64, file_length: usize) -> Scan
        requires { self.code_segments + 1 < 2 ^ 32 }
        ensures { result ≡ seen limit file_length self entry.now }
    {
        let segment = entry.segment();
        let loaded = entry.is_loaded();
        let code = loaded && segment.is_code();
        Scan {
            dynamic: self.dynamic || entry.is_dynamic(),
            rewritten: self.rewritten || entry.is_record(),
            skipped: self.skipped || !loaded,
            misplaced: self.misplaced
                || (loaded
                    && (segment.is_misplaced(limit, file_length)
                        || u128::from(segment.address) < self.reached)),
            reached: if loaded {
                self.reached.max(segment.end())
            } else {
                self.reached
            },
            code_segments: if code {
                self.code_segments + 1
            } else {
                self.code_segments
            },
            code: if code {
                self.code.or(Some(segment))
            } else {
                self.code
            },
        }
    }

    /// The executable segment, or the first reason to refuse that the scan of the whole table
    /// shows.
    pub(crate) fn code(&self) -> Result<Segment, Refusal>
        ensures { result ≡ scan_answer self.now }
    {
        if self.dynamic {
            return Err(Refusal::Dynamic);
        }
        if self.rewritten {
            return Err(Refusal::Already);
        }
        if self.misplaced {
            return Err(Refusal::Segment);
        }
        match self.code {
            Some(code) if self.code_segments == 1 => Ok(code),
            _ => Err(Refusal::NoText),
        }
    }

    /// The scan of so many entries from an offset on.
    pub(crate) fn of(bytes: &[u8], start: usize, count: u16, limit: u64) -> Scan
        requires { start + 56 * count ≤ length bytes.now }
        ensures { IsScan limit bytes.now start count result }
    {
        let mut scan = Scan {
            dynamic: false,
            rewritten: false,
            skipped: false,
            misplaced: false,
            reached: 0,
            code_segments: 0,
            code: None,
        };
        for i in 0..usize::from(count) {
            let entry = ProgramHeader::read(bytes, start + PROGRAM_HEADER_BYTES * i);
            scan = scan.with(&entry, limit, bytes.len());
        }
        scan
    }
}
