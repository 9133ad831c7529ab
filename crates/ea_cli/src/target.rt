//! What the name of an output means: a stream of the process, a device, or a file that a part file becomes when the report is whole.
use std::fs::{self, File, Metadata, TryLockError};
use std::io::{ErrorKind, Read, Stderr, Stdout};
use std::os::unix::fs::{MetadataExt, fchown};

/// How many symbolic links are followed, as many as Linux follows.
const MOST_LINKS: u32 = 40;

/// How many names are tried for a part file, so how many runs may write the same file at once.
const MOST_PARTS: u32 = 1000;

/// How many bytes of a file's name a part file's name begins with. Names have at most 255 bytes.
const MOST_OF_NAME: usize = 240;

/// The error number of Linux for what not even the owner of a file may do.
const NOT_PERMITTED: i32 = 1;

/// The bit of a folder's mode by which only a file's owner may replace it there.
const STICKY: u32 = 0o1000;

/// What the bytes of a report go to.
#[derive(Drop)]
pub(crate) enum Goal {
    /// Standard output.
    Output(Stdout),
    /// Standard error.
    Errors(Stderr),
    /// A device, a pipe or a descriptor: it is written as it is.
    Stream(File),
    /// A file that can't be replaced: it is emptied when the first bytes come.
    InPlace {
        file: File,
        begun: bool,
    },
    /// A part file, which becomes the named file when the report is whole.
    Part {
        file: File,
        part: String,
        name: String,
    },
}

/// What a name leads to once its links are followed.
#[derive(Drop)]
enum Place {
    /// A descriptor of a process: its path and its number.
    Descriptor(String, Option<u32>),
    /// What is there.
    There(String, Metadata),
    /// A name that is free.
    Free(String),
}

/// A text that is owned.
fn owned(rt: &HostRuntime, text: &str) -> Result<String, ErrorKind> {
    match String::from_str(rt.alloc(), text) {
        Ok(copy) => Ok(copy),
        Err(_) => Err(ErrorKind::OutOfMemory),
    }
}

/// The path of a name in a folder.
fn joined(rt: &HostRuntime, folder: &str, name: &str) -> Result<String, ErrorKind> {
    match format!(in rt.alloc(); "{folder}/{name}") {
        Ok(path) => Ok(path),
        Err(_) => Err(ErrorKind::OutOfMemory),
    }
}

/// The folder of a path, and the name in it.
fn folder_and_name(path: &str) -> (&str, &str) {
    match path.rsplit_once('/') {
        Some(("", name)) => ("/", name),
        Some((folder, name)) => (folder, name),
        None => (".", path),
    }
}

/// The process whose descriptors lie in a folder; none if it is another folder.
fn process_of(folder: &str) -> Option<&str> {
    let rest = folder.strip_prefix("/proc/")?;
    let (process, below) = rest.split_once('/')?;
    let is_descriptors = below == "fd" || below.starts_with("task/") && below.ends_with("/fd");
    if is_descriptors { Some(process) } else { None }
}

/// The number of a descriptor of this process; none if it is another's.
fn number_of(rt: &HostRuntime, process: &str, name: &str) -> Option<u32> {
    match fs::read_link(rt, "/proc/self") {
        Ok(mine) if mine.as_str() == process => name.parse::<u32>().ok(),
        _ => None,
    }
}

/// Follows one link: what the path leads to, or the path that the link names.
fn follow(rt: &HostRuntime, path: &str) -> Result<Result<Place, String>, ErrorKind> {
    let (parent, name) = folder_and_name(path);
    if name.is_empty() || name == "." || name == ".." {
        return Err(ErrorKind::IsADirectory);
    }
    let folder = match fs::canonicalize(rt, parent) {
        Ok(folder) => owned(rt, folder.as_str())?,
        Err(error) => return Err(error.kind()),
    };
    let whole = if folder.as_str() == "/" {
        joined(rt, "", name)?
    } else {
        joined(rt, &folder, name)?
    };
    if let Some(process) = process_of(&folder) {
        let number = number_of(rt, process, name);
        return Ok(Ok(Place::Descriptor(whole, number)));
    }
    match fs::symlink_metadata(rt, whole.as_str()) {
        Ok(found) if found.is_symlink() => match fs::read_link(rt, whole.as_str()) {
            Ok(link) if link.as_str().starts_with('/') => Ok(Err(owned(rt, link.as_str())?)),
            Ok(link) => Ok(Err(joined(rt, &folder, link.as_str())?)),
            Err(error) => Err(error.kind()),
        },
        Ok(found) => Ok(Ok(Place::There(whole, found))),
        Err(error) if error.kind() == ErrorKind::NotFound => Ok(Ok(Place::Free(whole))),
        Err(error) => Err(error.kind()),
    }
}

/// What a name leads to. A link that leads nowhere names the file that is to be made.
fn place_of(rt: &HostRuntime, name: &str) -> Result<Place, ErrorKind> {
    if name.is_empty() {
        return Err(ErrorKind::NotFound);
    }
    let mut path = owned(rt, name)?;
    for _ in 0..MOST_LINKS {
        match follow(rt, &path)? {
            Ok(place) => return Ok(place),
            Err(link) => path = link,
        }
    }
    Err(ErrorKind::FilesystemLoop)
}

/// What takes a report that goes to a name.
pub(crate) fn goal_of(rt: &HostRuntime, name: &str) -> Result<Goal, ErrorKind> {
    match place_of(rt, name)? {
        Place::Descriptor(_, Some(1)) => Ok(Goal::Output(rt.stdout())),
        Place::Descriptor(_, Some(2)) => Ok(Goal::Errors(rt.stderr())),
        Place::Descriptor(path, _) => stream_of(rt, &path),
        Place::There(_, found) if found.is_dir() => Err(ErrorKind::IsADirectory),
        Place::There(path, found) if !found.is_file() => stream_of(rt, &path),
        Place::There(path, found) => file_of(rt, path, &found),
        Place::Free(path) => part_of(rt, path, None),
    }
}

/// A device, a pipe or a descriptor. What a descriptor's file has already stays, and the report comes after it.
fn stream_of(rt: &HostRuntime, path: &str) -> Result<Goal, ErrorKind> {
    match File::options().append(true).open(rt, path) {
        Ok(file) => Ok(Goal::Stream(file)),
        Err(error) => Err(error.kind()),
    }
}

/// An existing file: replaced when the report is whole, or written in place if nothing may be put beside it.
fn file_of(rt: &HostRuntime, path: String, old: &Metadata) -> Result<Goal, ErrorKind> {
    let kept = owned(rt, &path)?;
    match part_of(rt, path, Some(old)) {
        Ok(goal) => Ok(goal),
        Err(reason) => match File::options().write(true).open(rt, kept.as_str()) {
            Ok(file) => Ok(Goal::InPlace { file, begun: false }),
            Err(_) => Err(reason),
        },
    }
}

/// The front of a file's name that leaves room for what a part file's name ends with.
fn front_of_name(name: &str) -> &str {
    let mut end = name.len().min(MOST_OF_NAME);
    for _ in 0..4 {
        if let Some(front) = name.get(..end) {
            return front;
        }
        end = end.saturating_sub(1);
    }
    "report"
}

/// A part file for a file; it takes on the permissions of the file that it is to replace.
fn part_of(rt: &HostRuntime, name: String, old: Option<&Metadata>) -> Result<Goal, ErrorKind> {
    let (folder, last) = folder_and_name(&name);
    let front = front_of_name(last);
    for number in 0..MOST_PARTS {
        let Ok(part) = format!(in rt.alloc(); "{folder}/{front}.part{number}") else {
            return Err(ErrorKind::OutOfMemory);
        };
        let Some(file) = taken(rt, &part)? else {
            continue;
        };
        if let Some(old) = old {
            let may_write = File::options().write(true).open(rt, name.as_str()).is_ok();
            if !may_write && !can_replace(rt, &name, old, &file) {
                let _ = fs::remove_file(rt, part.as_str());
                return Err(ErrorKind::PermissionDenied);
            }
            take_after(&file, old);
        }
        return Ok(Goal::Part { file, part, name });
    }
    Err(ErrorKind::AlreadyExists)
}

/// Gives a part file the owner and the permissions of the file that it is to replace, as far as the system lets one.
fn take_after(file: &File, old: &Metadata) {
    let Ok(mine) = file.metadata() else {
        return;
    };
    if mine.uid() != old.uid() || mine.gid() != old.gid() {
        let _ = fchown(file, Some(old.uid()), Some(old.gid()));
    }
    let _ = file.set_permissions(old.permissions());
}

/// A part file of this name that no other run holds: a new one, or one that a run left that was ended from outside.
fn taken(rt: &HostRuntime, part: &str) -> Result<Option<File>, ErrorKind> {
    match File::create_new(rt, part) {
        Ok(file) => match file.try_lock() {
            Err(TryLockError::WouldBlock) => Ok(None),
            _ => Ok(Some(file)),
        },
        Err(error) if error.kind() == ErrorKind::AlreadyExists => Ok(left_over(rt, part)),
        Err(error) => Err(error.kind()),
    }
}

/// A part file that a run left: it is emptied, unless another run holds it or it is no such file.
fn left_over(rt: &HostRuntime, part: &str) -> Option<File> {
    let file = File::options().write(true).open(rt, part).ok()?;
    if file.try_lock().is_err() {
        return None;
    }
    let held = file.metadata().ok()?;
    let named = fs::symlink_metadata(rt, part).ok()?;
    // Another run may have put the file in its place before it was locked here.
    let is_same = named.is_file() && named.ino() == held.ino() && named.dev() == held.dev();
    if !is_same || held.nlink() != 1 || file.set_len(0).is_err() {
        return None;
    }
    Some(file)
}

/// Whether a file may be replaced in its folder, as far as that can be seen: it is no mount, no immutable file, and no other
/// user's file in a sticky folder.
fn can_replace(rt: &HostRuntime, name: &str, old: &Metadata, part: &File) -> bool {
    let (folder, _) = folder_and_name(name);
    let (Ok(around), Ok(mine)) = (fs::metadata(rt, folder), part.metadata()) else {
        return true;
    };
    let me = mine.uid();
    let is_sticky = around.mode() & STICKY != 0;
    if is_sticky && me != 0 && old.uid() != me && around.uid() != me {
        return false;
    }
    match File::options().append(true).open(rt, name) {
        Err(error) if error.raw_os_error() == Some(NOT_PERMITTED) => false,
        _ => !is_mount(rt, name),
    }
}

/// Whether something is mounted at a path.
fn is_mount(rt: &HostRuntime, path: &str) -> bool {
    match fs::read_to_string(rt, "/proc/self/mountinfo") {
        Ok(text) => text
            .lines()
            .any(|line| line.split(' ').nth(4) == Some(path)),
        Err(_) => false,
    }
}
