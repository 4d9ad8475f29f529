// The limit of a file's size that the system sets a process (POSIX, getrlimit).

use std::io::{self, ErrorKind};

// Its number on Linux.
const FILE_SIZE: i32 = 1;

/// Whether a file may become so long. A write past the limit would end the process, so it is not begun.
pub fn may_reach(length: u64) -> bool {
    let mut limit = libc::types::rlimit {
        rlim_cur: 0,
        rlim_max: 0,
    };
    libc::getrlimit(FILE_SIZE, &mut limit) != 0 || length <= limit.rlim_cur
}

/// What is said of such a write.
pub fn past_limit() -> io::Error {
    io::Error::new(
        ErrorKind::FileTooLarge,
        "past the limit of a file's size (ulimit -f)",
    )
}
