//! The system's reasons.
use std::io::ErrorKind;

/// The system's reason why a file can't be opened, read or written.
pub fn reason_of(kind: ErrorKind) -> &'static str {
    match kind {
        ErrorKind::NotFound => "there is no such file",
        ErrorKind::PermissionDenied => "there is no permission",
        ErrorKind::IsADirectory => "it is a directory",
        ErrorKind::NotADirectory => "a part of its path is no directory",
        ErrorKind::StorageFull => "no space is left on the device",
        ErrorKind::QuotaExceeded => "the quota of the disk is used up",
        ErrorKind::FileTooLarge => "the file would be too large",
        ErrorKind::ReadOnlyFilesystem => "the file system can't be written",
        ErrorKind::InvalidFilename => "the name is too long",
        ErrorKind::InvalidInput => "the name can't be a file's",
        ErrorKind::TooManyLinks | ErrorKind::FilesystemLoop => "its links lead in a circle",
        ErrorKind::BrokenPipe => "nobody reads it any more",
        _ => "the system refuses it",
    }
}
