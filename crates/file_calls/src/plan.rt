//! What a call does before the store and the sinks are asked.

ghost use Rattle.std.specs.Prelude.{◌≡◌, ℕ, ◌<◌, ◌≤◌, ◌^◌, pos, ◌+ℤ◌, IfOk, IfSome, IsTrue, slice_index};
ghost use Rattle.program_model.specs.Descriptors.{slot};
ghost use Rattle.program_model.specs.Calls as calls;
ghost use Rattle.rv_model.specs.Memory.{all_from};
ghost use Rattle.rv_model.specs.Arithmetic.{signed};
ghost use Rattle.rv_model.specs.Data.{data_in, memory_in};
ghost use Rattle.file_calls.specs.Plans.{plan_shown, opening_shown, reading_shown, offset_at, left, changed, made, KeepsBreak, PlanKeepsBreak, ReadBounds, PlanBounds, IsOnData};

use crate::call::Call;
use crate::change::Change;
use crate::descriptor::{Descriptor, OpenFile};
use crate::errno::{EBADF, EFAULT, EINVAL, EMFILE, ENOSYS, ESPIPE};
use crate::files::Files;
use crate::memory::name_at;
use rv_model::Bytes;
use spec_base::{Name, ReadSpot};

/// The most bytes that one call reads or writes.
const MOST_BYTES: u64 = 65_536;

/// The first number that is no offset.
const OFFSETS_END: u64 = 1 << 56;

/// What a call does before the store and the sinks are asked. Its change isn't made yet.
#[derive(Clone, Copy, Debug)]
pub enum PlannedCall {
    /// The answer is known, and so is what becomes of the descriptors and the break.
    Set(Change, i64),
    /// As in `CallPlan`.
    Open(Name),
    /// As in `CallPlan`.
    Read(ReadSpot, u64),
    /// As in `CallPlan`.
    Write(bool, u64, usize),
    /// As in `CallPlan`.
    Exit(u8),
}

/// What a call does before the store and the sinks are asked.
#[derive(Clone, Copy, Debug)]
pub enum CallPlan {
    /// The answer is known, and so are the descriptors and the break after it.
    Set(Files, i64),
    /// A file of this name is looked for.
    Open(Name),
    /// This part of a file is read to an address. It may have no bytes.
    Read(ReadSpot, u64),
    /// Bytes are put, to standard output where the first part is true, else to standard error: those
    /// from an address on, as many as the count says, which isn't 0.
    Write(bool, u64, usize),
    /// The program ends with this code.
    Exit(u8),
}

impl Files {
    // The name that an open looks for, or the answer that refuses it.
    fn opening<B: Bytes>(&self, name: u64, flags: u64, mem: &B) -> Result<Name, i64>
        ensures { opening_shown self.now result ≡ calls.open_plan (data_in (B.byte_at mem.now)) (memory_in (B.byte_at mem.now)) self.now name flags }
    {
        if flags % 4 != 0 {
            return Err(EINVAL);
        }
        let name = name_at(mem, name)?;
        if self.lowest_free().is_none() {
            return Err(EMFILE);
        }
        Ok(name)
    }

    // The plan of an open.
    fn open_plan<B: Bytes>(&self, name: u64, flags: u64, mem: &B) -> PlannedCall
        ensures plan { (d : ℕ) → plan_shown d (made self.now result) ≡ calls.open_plan (data_in (B.byte_at mem.now)) (memory_in (B.byte_at mem.now)) self.now name flags }
        ensures bounds { (d : ℕ) → PlanBounds self.now d (made self.now result) }
        ensures data { IsOnData (data_in (B.byte_at mem.now)) (made self.now result) }
        ensures kept { PlanKeepsBreak self.now result }
    {
        match self.opening(name, flags, mem) {
            Ok(name) => PlannedCall::Open(name),
            Err(answer) => refused(answer),
        }
    }

    // Closes a descriptor.
    fn closed(&self, descriptor: u64) -> (Change, i64)
        ensures plan { calls.Set (changed self.now result.0) result.1 ≡ calls.close_plan self.now descriptor (slot self.now descriptor) }
        ensures kept { KeepsBreak self.now result.0 }
    {
        match self.slot(descriptor) {
            Descriptor::Free => (Change::Nothing, EBADF),
            _ => (Change::Slot(descriptor, Descriptor::Free), 0),
        }
    }

    // Moves a descriptor of a file.
    fn moved(&self, descriptor: u64, distance: u64, whence: u64) -> (Change, i64)
        ensures plan { calls.Set (changed self.now result.0) result.1 ≡ calls.seek_plan self.now descriptor (slot self.now descriptor) distance whence }
        ensures kept { KeepsBreak self.now result.0 }
    {
        match self.slot(descriptor) {
            Descriptor::Free => (Change::Nothing, EBADF),
            Descriptor::File(file) => self.moved_file(descriptor, &file, distance, whence),
            _ => (Change::Nothing, ESPIPE),
        }
    }

    // Moves a descriptor of this file.
    fn moved_file(
        &self,
        descriptor: u64,
        file: &OpenFile,
        distance: u64,
        whence: u64,
    ) -> (Change, i64)
        ensures plan { calls.Set (changed self.now result.0) result.1 ≡ calls.seek_from self.now descriptor file.now.name file.now.size distance (calls.seek_base file.now.offset file.now.size whence) }
        ensures kept { KeepsBreak self.now result.0 }
    {
        let Some(base) = seek_base(file, whence) else {
            return (Change::Nothing, EINVAL);
        };
        match offset_from(base, distance) {
            Some(offset) => {
                let moved = OpenFile::new(file.name(), file.size(), offset);
                (
                    Change::Slot(descriptor, Descriptor::File(moved)),
                    offset as i64,
                )
            }
            None => (Change::Nothing, EINVAL),
        }
    }

    // What a read of a descriptor reads, or the answer that refuses it.
    fn reading<B: Bytes>(
        &self,
        descriptor: u64,
        address: u64,
        asked: u64,
        mem: &B,
    ) -> Result<ReadSpot, i64>
        ensures plan { reading_shown self.now descriptor address result ≡ calls.read_plan (data_in (B.byte_at mem.now)) self.now descriptor (slot self.now descriptor) address asked }
        ensures bounds { IfOk result (λ spot. ReadBounds self.now descriptor spot) }
        ensures data { IfOk result (λ spot. IsTrue (all_from (data_in (B.byte_at mem.now)) address spot.count)) }
    {
        let Descriptor::File(file) = self.slot(descriptor) else {
            return Err(EBADF);
        };
        let left = file.size().saturating_sub(file.offset());
        let count = asked.min(MOST_BYTES.min(left));
        if !mem.is_all_data(address, count) {
            return Err(EFAULT);
        }
        Ok(ReadSpot {
            name: file.name(),
            offset: file.offset(),
            count,
        })
    }

    // The plan of a write to a descriptor.
    fn writing<B: Bytes>(&self, descriptor: u64, address: u64, asked: u64, mem: &B) -> PlannedCall
        ensures plan { plan_shown descriptor (made self.now result) ≡ calls.write_plan (data_in (B.byte_at mem.now)) self.now (slot self.now descriptor) address asked }
        ensures bounds { PlanBounds self.now descriptor (made self.now result) }
        ensures data { IsOnData (data_in (B.byte_at mem.now)) (made self.now result) }
        ensures kept { PlanKeepsBreak self.now result }
    {
        match self.slot(descriptor) {
            Descriptor::Out => self.putting(true, address, asked.min(MOST_BYTES), mem),
            Descriptor::Err => self.putting(false, address, asked.min(MOST_BYTES), mem),
            _ => refused(EBADF),
        }
    }

    // The plan of a write of `count` bytes to standard output or to standard error.
    fn putting<B: Bytes>(&self, to_out: bool, address: u64, count: u64, mem: &B) -> PlannedCall
        requires { count ≤ 65536 }
        ensures plan { (d : ℕ) → plan_shown d (made self.now result) ≡ calls.put_plan (data_in (B.byte_at mem.now)) self.now to_out address count }
        ensures bounds { (d : ℕ) → PlanBounds self.now d (made self.now result) }
        ensures data { IsOnData (data_in (B.byte_at mem.now)) (made self.now result) }
        ensures kept { PlanKeepsBreak self.now result }
    {
        if !mem.is_all_data(address, count) {
            refused(EFAULT)
        } else if count == 0 {
            refused(0)
        } else {
            PlannedCall::Write(to_out, address, count as usize)
        }
    }

    /// What this call does before the store and the sinks are asked, by its number and its three
    /// arguments, and what memory has. The caller makes the change that a plan names.
    pub fn planned<B: Bytes>(&self, number: u64, a: [u64; 3], mem: &B) -> PlannedCall
        ensures plan { plan_shown (slice_index a 0) (made self.now result) ≡ calls.call_plan (data_in (B.byte_at mem.now)) (memory_in (B.byte_at mem.now)) self.now number (slice_index a 0) (slice_index a 1) (slice_index a 2) }
        ensures bounds { PlanBounds self.now (slice_index a 0) (made self.now result) }
        ensures data { IsOnData (data_in (B.byte_at mem.now)) (made self.now result) }
        ensures kept { PlanKeepsBreak self.now result }
    {
        match Call::with_number(number) {
            Call::Open => self.open_plan(a[0], a[1], mem),
            Call::OpenAt => self.open_plan(a[1], a[2], mem),
            Call::Close => settled(self.closed(a[0])),
            Call::Seek => settled(self.moved(a[0], a[1], a[2])),
            Call::Read => match self.reading(a[0], a[1], a[2], mem) {
                Ok(spot) => PlannedCall::Read(spot, a[1]),
                Err(answer) => refused(answer),
            },
            Call::Write => self.writing(a[0], a[1], a[2], mem),
            Call::Exit => PlannedCall::Exit((a[0] % 256) as u8),
            Call::Break => settled(self.moved_break(a[0])),
            Call::Unknown => refused(ENOSYS),
        }
    }

    /// As `planned`, with the descriptors and the break as they are after the change.
    pub fn plan<B: Bytes>(&self, number: u64, a: [u64; 3], mem: &B) -> CallPlan
        ensures plan { plan_shown (slice_index a 0) result ≡ calls.call_plan (data_in (B.byte_at mem.now)) (memory_in (B.byte_at mem.now)) self.now number (slice_index a 0) (slice_index a 1) (slice_index a 2) }
        ensures bounds { PlanBounds self.now (slice_index a 0) result }
        ensures data { IsOnData (data_in (B.byte_at mem.now)) result }
    {
        match self.planned(number, a, mem) {
            PlannedCall::Set(change, answer) => {
                let mut files = *self;
                files.make(change);
                CallPlan::Set(files, answer)
            }
            PlannedCall::Open(name) => CallPlan::Open(name),
            PlannedCall::Read(spot, address) => CallPlan::Read(spot, address),
            PlannedCall::Write(to_out, address, count) => CallPlan::Write(to_out, address, count),
            PlannedCall::Exit(code) => CallPlan::Exit(code),
        }
    }

    /// The key of this call, which a hint for it has too: 64 times the offset and the descriptor, and
    /// 1, for a read of a file that isn't refused, and 0 for every other call.
    pub fn key<B: Bytes>(&self, number: u64, a: [u64; 3], mem: &B) -> u64
        ensures { result ≡ calls.key_of (calls.call_plan (data_in (B.byte_at mem.now)) (memory_in (B.byte_at mem.now)) self.now number (slice_index a 0) (slice_index a 1) (slice_index a 2)) }
    {
        match self.planned(number, a, mem) {
            PlannedCall::Read(spot, _) => 64 * spot.offset + a[0] + 1,
            _ => 0,
        }
    }

    /// After a look has found a file of this size: the lowest free descriptor comes to stand for it,
    /// and is the answer. Where none is free, the call is refused. The caller makes the change.
    pub fn found(&self, name: Name, size: u64) -> (Change, i64)
        requires { size < 2 ^ 56 }
        ensures plan { calls.opened self.now name (Some size) ≡ (changed self.now result.0, result.1) }
        ensures kept { KeepsBreak self.now result.0 }
    {
        match self.lowest_free() {
            Some(number) => {
                let file = OpenFile::new(name, size, 0);
                (
                    Change::Slot(number as u64, Descriptor::File(file)),
                    number as i64,
                )
            }
            None => (Change::Nothing, EMFILE),
        }
    }

    /// As `found`, with the descriptors as they are after the change.
    pub fn opened(&self, name: Name, size: u64) -> (Files, i64)
        requires { size < 2 ^ 56 }
        ensures { result ≡ calls.opened self.now name (Some size) }
    {
        let (change, answer) = self.found(name, size);
        let mut files = *self;
        files.make(change);
        (files, answer)
    }

    /// After a read has filled this many bytes: the offset of the descriptor's file grows by them.
    /// They are no more than the file has left from its offset on.
    pub fn read_on(&mut self, descriptor: u64, count: u64)
        requires { count ≤ left (slot self.old descriptor) }
        ensures { self.new ≡ calls.after_read self.old descriptor count }
    {
        let slot = match self.slot(descriptor) {
            Descriptor::File(file) => {
                Descriptor::File(OpenFile::new(file.name(), file.size(), file.offset() + count))
            }
            other => other,
        };
        self.make(Change::Slot(descriptor, slot));
    }

    /// As `read_on`, of other descriptors than these.
    pub fn after_read(&self, descriptor: u64, count: u64) -> Files
        requires { count ≤ left (slot self.now descriptor) }
        ensures { result ≡ calls.after_read self.now descriptor count }
    {
        let mut files = *self;
        files.read_on(descriptor, count);
        files
    }
}

// A call that changes nothing.
fn refused(answer: i64) -> PlannedCall
    ensures { result ≡ PlannedCall.Set Change.Nothing answer }
{
    PlannedCall::Set(Change::Nothing, answer)
}

// A call whose answer is known.
fn settled(after: (Change, i64)) -> PlannedCall
    ensures { result ≡ PlannedCall.Set after.0 after.1 }
{
    PlannedCall::Set(after.0, after.1)
}

// Where the distance of a seek counts from.
fn seek_base(file: &OpenFile, whence: u64) -> Option<u64>
    ensures base { result ≡ calls.seek_base file.now.offset file.now.size whence }
    ensures small { IfSome result (λ base. base < 2 ^ 56) }
{
    match whence {
        0 => Some(0),
        1 => Some(file.offset()),
        2 => Some(file.size()),
        _ => None,
    }
}

// The offset at this signed distance from another, if it is one.
fn offset_from(base: u64, distance: u64) -> Option<u64>
    requires { base < 2 ^ 56 }
    ensures offset { result ≡ offset_at (pos base +ℤ signed distance) }
    ensures small { IfSome result (λ offset. offset < 2 ^ 56) }
{
    base.checked_add_signed(distance.cast_signed())
        .filter(|offset| *offset < OFFSETS_END)
}
