//! The limits that the kernel has for this process.

use libc::types::rlimit;

/// The soft limit of a resource, by its number in the C library. None where it is not known, or there is none.
fn limit_of(resource: i32) -> Option<u64> {
    let mut limit = rlimit {
        rlim_cur: 0,
        rlim_max: 0,
    };
    if libc::getrlimit(resource, &mut limit) != 0 || limit.rlim_cur == u64::MAX {
        return None;
    }
    Some(limit.rlim_cur)
}

/// How many descriptors this process may have: its soft limit. None where it is not known, or there is none.
pub fn descriptor_limit() -> Option<u64> {
    limit_of(libc::RLIMIT_NOFILE)
}

/// How large the stack of the main thread of this process may be, in bytes: its soft limit. None where it is not known, or
/// there is none.
pub fn stack_limit() -> Option<u64> {
    limit_of(libc::RLIMIT_STACK)
}
