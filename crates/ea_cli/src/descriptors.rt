//! Descriptors 0, 1 and 2 of a process that begins without some of them.
use std::fs::File;
use std::os::fd::AsRawFd;

/// The last of the three standard descriptors.
const LAST: i32 = 2;

/// The null device in the place of standard descriptors that were closed, as long as this is kept: else the next file that is opened would
/// take that place, and be read or written as the stream.
#[derive(Drop)]
pub struct Held {
    _input: Option<File>,
    _output: Option<File>,
    _errors: Option<File>,
}

/// Opens the null device once; none if its descriptor comes after the standard ones.
fn null_device(rt: &HostRuntime) -> Option<File> {
    let file = File::options()
        .read(true)
        .write(true)
        .open(rt, "/dev/null")
        .ok()?;
    if file.as_raw_fd() <= LAST {
        Some(file)
    } else {
        None
    }
}

/// Opens the null device for each standard descriptor that is closed.
pub fn hold_descriptors(rt: &HostRuntime) -> Held {
    let input = null_device(rt);
    let output = null_device(rt);
    let errors = null_device(rt);
    Held {
        _input: input,
        _output: output,
        _errors: errors,
    }
}
