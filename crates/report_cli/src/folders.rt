//! Folders instead of files.

use crate::files::{Stop, reason_of, unread};
use std::fs::DirEntry;
use std::{fs, io};

/// The paths, with the files of each folder instead of it: those below it whose names end in `.graphql` or `.graphqls`, in order of
/// their paths. What begins with a point is passed over, and so is `node_modules`. A folder without such a file stays.
pub(crate) fn files_of(rt: &HostRuntime, paths: &[String]) -> Result<Vec<String>, Stop> {
    let mut files = Vec::new(rt.alloc());
    for path in paths {
        let mut found = files_below(rt, path)?;
        if found.is_empty() {
            files.push(String::from_str(rt.alloc(), path)?)?;
        }
        files.append(&mut found)?;
    }
    Ok(files)
}

/// The files below the folder, in order; none below what is no folder.
fn files_below(rt: &HostRuntime, path: &str) -> Result<Vec<String>, Stop> {
    let mut files = Vec::new(rt.alloc());
    let mut folders = Vec::new(rt.alloc());
    if path != "-" && is_folder(rt, path) {
        folders.push(String::from_str(rt.alloc(), path)?)?;
    }
    for _ in 0..usize::MAX {
        let Some(folder) = folders.pop() else {
            break;
        };
        if let Err(error) = push_inside(rt, &folder, &mut folders, &mut files) {
            let reason = reason_of(rt.alloc(), error)?;
            unread(rt, &folder, &reason)?;
            return Err(Stop::Unread);
        }
    }
    files.sort()?;
    Ok(files)
}

/// Whether there is a folder under this path.
fn is_folder(rt: &HostRuntime, path: &str) -> bool {
    match fs::metadata(rt, path) {
        Ok(metadata) => metadata.is_dir(),
        Err(_) => false,
    }
}

/// Adds the folders and the files that are in a folder.
fn push_inside(
    rt: &HostRuntime,
    folder: &str,
    folders: &mut Vec<String>,
    files: &mut Vec<String>,
) -> io::Result<()> {
    for entry in fs::read_dir(rt, folder)? {
        let entry = entry?;
        push_entry(rt, &entry, folders, files)?;
    }
    Ok(())
}

/// Adds a folder or a file.
fn push_entry(
    rt: &HostRuntime,
    entry: &DirEntry<HostRuntime>,
    folders: &mut Vec<String>,
    files: &mut Vec<String>,
) -> io::Result<()> {
    let name = entry.file_name();
    if name.starts_with('.') || name == "node_modules" {
        return Ok(());
    }
    let is_folder = entry.file_type()?.is_dir();
    if is_folder || name.ends_with(".graphql") || name.ends_with(".graphqls") {
        let path = String::from_str(rt.alloc(), entry.path().as_str())?;
        let list = if is_folder { folders } else { files };
        list.push(path)?;
    }
    Ok(())
}
