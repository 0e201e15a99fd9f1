//! The answers of calls that stand for errors: Linux's numbers of errors, negated modulo 2^64.

/// ESRCH, 3: there is no such thread.
pub const NO_SUCH_THREAD: u64 = u64::MAX - 2;

/// EBADF, 9: there is no such descriptor.
pub const BAD_DESCRIPTOR: u64 = u64::MAX - 8;

/// EAGAIN, 11: not now.
pub const TRY_AGAIN: u64 = u64::MAX - 10;

/// EFAULT, 14: a byte may not be accessed.
pub const BAD_ADDRESS: u64 = u64::MAX - 13;

/// EINVAL, 22: an argument isn't one that the call takes.
pub const INVALID: u64 = u64::MAX - 21;

/// ENOSPC, 28: there is no room left.
pub const NO_SPACE: u64 = u64::MAX - 27;

/// ENOSYS, 38: there is no such call.
pub const NO_SUCH_CALL: u64 = u64::MAX - 37;
