//! The answers that refuse a call, by the names of errno.h: Linux's numbers of RISC-V, negated.

/// No such file.
pub const ENOENT: i64 = -2;

/// No such descriptor.
pub const EBADF: i64 = -9;

/// An address that isn't data.
pub const EFAULT: i64 = -14;

/// An argument that the call doesn't know.
pub const EINVAL: i64 = -22;

/// No free descriptor.
pub const EMFILE: i64 = -24;

/// A descriptor that can't be moved.
pub const ESPIPE: i64 = -29;

/// A name that is too long.
pub const ENAMETOOLONG: i64 = -36;

/// No such call.
pub const ENOSYS: i64 = -38;
