// The system's errors that are told apart, and their numbers, as Linux has them: std's ErrorKind has no case for EPERM alone, EIO and EBADF.
use std::io;

const EPERM: i32 = 1;

const ENOENT: i32 = 2;

const EIO: i32 = 5;

const EBADF: i32 = 9;

const EAGAIN: i32 = 11;

const EACCES: i32 = 13;

const EEXIST: i32 = 17;

const ENOTDIR: i32 = 20;

const EISDIR: i32 = 21;

const EFBIG: i32 = 27;

const ENOSPC: i32 = 28;

const EROFS: i32 = 30;

const EPIPE: i32 = 32;

const ENAMETOOLONG: i32 = 36;

const ELOOP: i32 = 40;

// Why the system failed at a call.
#[derive(Clone, Copy, PartialEq, Eq)]
pub enum Failure {
    NotOwner,
    NoAccess,
    NotFound,
    Exists,
    IsFolder,
    NotFolder,
    NameTooLong,
    TooManyLinks,
    DiskFull,
    DiskFails,
    ReadOnly,
    TooLarge,
    Closed,
    NotReady,
    NobodyReads,
    Other,
}

impl From<io::Error> for Failure {
    fn from(error: io::Error) -> Failure {
        match error.raw_os_error() {
            Some(EPERM) => Failure::NotOwner,
            Some(EACCES) => Failure::NoAccess,
            Some(ENOENT) => Failure::NotFound,
            Some(EEXIST) => Failure::Exists,
            Some(EISDIR) => Failure::IsFolder,
            Some(ENOTDIR) => Failure::NotFolder,
            Some(ENAMETOOLONG) => Failure::NameTooLong,
            Some(ELOOP) => Failure::TooManyLinks,
            Some(ENOSPC) => Failure::DiskFull,
            Some(EIO) => Failure::DiskFails,
            Some(EROFS) => Failure::ReadOnly,
            Some(EFBIG) => Failure::TooLarge,
            Some(EBADF) => Failure::Closed,
            Some(EAGAIN) => Failure::NotReady,
            Some(EPIPE) => Failure::NobodyReads,
            _ => Failure::Other,
        }
    }
}

impl Failure {
    // The failure in words, as the end of a sentence.
    pub fn reason(self) -> &'static [u8] {
        match self {
            Failure::NotOwner | Failure::NoAccess => b"you may not: ask who owns it\n",
            Failure::NotFound => b"there is no such file or folder\n",
            Failure::IsFolder => b"it is a folder, not a file\n",
            Failure::NotFolder => b"a part of its name is a file, not a folder\n",
            Failure::NameTooLong => b"its name is too long\n",
            Failure::TooManyLinks => b"its name leads through too many links\n",
            Failure::DiskFull => b"the disk is full\n",
            Failure::DiskFails => b"the disk fails: have it looked at\n",
            Failure::ReadOnly => b"the disk can only be read\n",
            Failure::TooLarge => b"no file may be so large here\n",
            Failure::Closed => b"it is closed\n",
            Failure::NotReady => b"it is not ready, and is set not to wait\n",
            Failure::Exists | Failure::NobodyReads | Failure::Other => b"the system refuses it\n",
        }
    }
}
