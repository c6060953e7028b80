//! Writing the result of a command to a file.

use std::fs::{File, Permissions};
use std::io::{ErrorKind, Write};
use std::os::unix::fs::PermissionsExt;
use std::path::Path;
use std::{fs, io, process};

/// What follows the name of a file until its bytes are complete; then follows the id of the process.
const UNFINISHED: &str = ".btfobj-";

/// Writes these bytes to a file.
///
/// A regular file never has a part of them: they are written to a new file beside it, `NAME.btfobj-PID`, which takes
/// the name at the end, and the permissions of the file that had it. What an interrupted run left under such a name is
/// removed. A device, a pipe and a symbolic link keep their names: they are opened, and the bytes are written to what
/// they are.
pub fn write_file(rt: &HostRuntime, name: &str, bytes: &[u8]) -> io::Result<()> {
    match fs::symlink_metadata(rt, name) {
        Ok(found) if found.is_file() => replace(
            rt,
            name,
            bytes,
            Some(permissions(&found.permissions())),
        ),
        Ok(_) => File::create(rt, name)?.write_all(bytes),
        Err(e) if e.kind() == ErrorKind::NotFound => replace(rt, name, bytes, None),
        Err(e) => Err(e),
    }
}

/// The permissions of a file without its set-id bits. The new bytes are not those that got these bits, and the new file
/// may have another owner; the system takes them from a file that is written to.
fn permissions(found: &Permissions) -> Permissions {
    Permissions::from_mode(found.mode() & 0o1777)
}

/// Writes the bytes to a new file, which then replaces the one of a name.
fn replace(
    rt: &HostRuntime,
    name: &str,
    bytes: &[u8],
    mode: Option<Permissions>,
) -> io::Result<()> {
    remove_left(rt, name);
    let unfinished = format!(in rt.alloc(); "{name}{UNFINISHED}{}", process::id(rt.process()))?;
    let mut file = File::create_new(rt, unfinished.as_str())?;
    let finished = finish(rt, &mut file, bytes, mode, unfinished.as_str(), name);
    if finished.is_err() {
        // An error of the removal is ignored, because the first error is returned.
        let _ = fs::remove_file(rt, unfinished.as_str());
    }
    finished
}

/// Writes the bytes to an unfinished file, waits until the disk has them, and gives the file its name.
fn finish(
    rt: &HostRuntime,
    file: &mut File,
    bytes: &[u8],
    mode: Option<Permissions>,
    unfinished: &str,
    name: &str,
) -> io::Result<()> {
    file.write_all(bytes)?;
    if let Some(mode) = mode {
        file.set_permissions(mode)?;
    }
    file.sync_all()?;
    fs::rename(rt, unfinished, name)
}

/// Removes the unfinished files that interrupted runs left beside a name. An error is ignored, because the new file
/// does not need their removal.
fn remove_left(rt: &HostRuntime, name: &str) {
    let path = Path::new(name);
    let Some(name) = path.file_name() else {
        return;
    };
    let folder = match path.parent() {
        Some(folder) if !folder.as_os_str().is_empty() => folder,
        _ => Path::new("."),
    };
    let Ok(entries) = fs::read_dir(rt, folder) else {
        return;
    };
    for entry in entries {
        if let Ok(entry) = entry {
            remove_if_left(rt, &entry, name);
        }
    }
}

/// Removes a file if it is unfinished, and the process that began it has ended.
fn remove_if_left(rt: &HostRuntime, entry: &fs::DirEntry<HostRuntime>, name: &str) {
    if let Some(id) = writer_of(entry.file_name(), name) {
        if has_ended(rt, id) {
            let _ = fs::remove_file(rt, entry.path());
        }
    }
}

/// The id of the process that writes an unfinished file of a name; None for any other file.
fn writer_of(file: &str, name: &str) -> Option<u32> {
    let id = file.strip_prefix(name)?.strip_prefix(UNFINISHED)?;
    id.parse::<u32>().ok()
}

/// Whether a process has ended, as far as `/proc` tells. An id of this process is that of an earlier one.
fn has_ended(rt: &HostRuntime, id: u32) -> bool {
    if id == process::id(rt.process()) {
        return true;
    }
    let Ok(path) = format!(in rt.alloc(); "/proc/{id}") else {
        return false;
    };
    matches!(fs::exists(rt, "/proc/self"), Ok(true))
        && matches!(fs::exists(rt, path.as_str()), Ok(false))
}
