//! The places that emitted code names. They are numbers of the emitted code, so that a contract
//! sees them only in the code that is made of them.

/// Where x31 is spilled, as an offset from x0. So are the next ones: places of 8 bytes in the
/// private page of the hart that runs the code.
pub const X31: i64 = -8;

/// Where x30 is spilled.
pub const X30: i64 = -16;

/// Where x29 is spilled.
pub const X29: i64 = -24;

/// Where x28 is spilled.
pub const X28: i64 = -32;

/// The address of an access, or of a jump's target.
pub const ADR: i64 = -40;

/// Where a helper returns to.
pub const RET: i64 = -48;

/// The address of a table entry.
pub const ENT: i64 = -56;

/// The key of a call.
pub const VAL: i64 = -64;

/// The helper that finds the place of a load of 1 byte, as an offset from the first helper. So
/// are the next ones.
pub const LOAD1: u64 = 0x000;

/// The same for 2 bytes.
pub const LOAD2: u64 = 0x040;

/// The same for 4 bytes.
pub const LOAD4: u64 = 0x080;

/// The same for 8 bytes.
pub const LOAD8: u64 = 0x0C0;

/// The helper that finds the place of a store of 1 byte.
pub const STORE1: u64 = 0x100;

/// The same for 2 bytes.
pub const STORE2: u64 = 0x140;

/// The same for 4 bytes.
pub const STORE4: u64 = 0x180;

/// The same for 8 bytes.
pub const STORE8: u64 = 0x1C0;

/// Jumps to the block of the address in ADR.
pub const JUMP: u64 = 0x200;

/// Ends a load helper.
pub const LTAIL: u64 = 0x240;

/// Ends a store helper, with a new copy where the region has none.
pub const STAIL: u64 = 0x27C;

/// Appends a keyed read to the hint log.
pub const APPEND: u64 = 0x334;

/// Takes up the state in the restart box.
pub const RESTART: u64 = 0x394;

/// Parks: the instruction would trap.
pub const FAULT: u64 = 0x45C;

/// Parks: all regions are in use.
pub const FULL: u64 = 0x460;

/// Parks: the hint log is full.
pub const LOGFULL: u64 = 0x464;

/// The restart box, in the link: an address.
pub const BOX_START: u64 = 0x4200_1000;
