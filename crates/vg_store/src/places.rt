//! Where in the file system a draft is written, and which file it replaces.

use crate::files::Failed;
use std::alloc::{AllocError, Global};
use std::fs::{self, Metadata, OpenFile, OpenOptions, Permissions};
use std::io::{self, ErrorKind, Write};
use std::os::unix::fs::{MetadataExt, PermissionsExt};
use std::rt::Files as System;

/// How many symbolic links are followed from a name.
const MOST_LINKS: u32 = 40;

/// How many names are tried for a draft.
const MOST_TRIES: u32 = 4096;

/// The bits of a mode that say who may read, write and run a file.
const PERMISSION_BITS: u32 = 0o7777;

/// A file or a folder, by the numbers that the system knows it by.
#[derive(Clone, Copy, PartialEq, Eq)]
struct Identity {
    device: u64,
    node: u64,
}

/// The numbers of what was found. The number 0 says that they are not known.
fn identity_of(found: &Metadata) -> Option<Identity> {
    let node = found.ino();
    if node == 0 {
        return None;
    }
    Some(Identity {
        device: found.dev(),
        node,
    })
}

/// Whether both are known and one.
fn are_one(one: Option<Identity>, other: Option<Identity>) -> bool {
    match (one, other) {
        (Some(one), Some(other)) => one == other,
        _ => false,
    }
}

/// The file that a draft replaces, where it is there.
#[derive(Clone, Copy)]
struct Old {
    identity: Option<Identity>,
    permissions: u32,
}

/// Where the file of a draft is to stand.
#[derive(Drop)]
struct Place {
    path: String,
    /// The path of its folder, with a slash at the end.
    folder: String,
    folder_identity: Option<Identity>,
    old: Option<Old>,
}

/// A draft beside the place of its file.
#[derive(Drop)]
pub struct Draft {
    path: String,
    place: Place,
}

/// The part of a path behind its last slash.
fn last_part(path: &str) -> &str {
    match path.rsplit_once('/') {
        Some((_, last)) => last,
        None => path,
    }
}

/// The path of the folder, with a slash at the end.
fn folder_of(alloc: Global, path: &str) -> Result<String, AllocError> {
    match path.rsplit_once('/') {
        Some((folder, _)) => format!(in alloc; "{folder}/"),
        None => String::from_str(alloc, "./"),
    }
}

impl Place {
    /// Whether both are places of one file: one name in one folder, or one file that is there.
    fn is_place_of(&self, other: &Place) -> bool {
        if let (Some(one), Some(other)) = (self.old, other.old)
            && are_one(one.identity, other.identity)
        {
            return true;
        }
        are_one(self.folder_identity, other.folder_identity)
            && last_part(self.path.as_str()) == last_part(other.path.as_str())
    }
}

/// What a name stands for.
#[derive(Drop)]
enum Found {
    Nothing,
    Link,
    File,
    Other,
}

/// Looks what a path stands for. It follows no link at the path's end.
fn look_at<R: System>(rt: &R, path: &str) -> Result<Found, Failed> {
    match fs::symlink_metadata(rt, path) {
        Ok(found) if found.is_symlink() => Ok(Found::Link),
        Ok(found) if found.is_file() => Ok(Found::File),
        Ok(_) => Ok(Found::Other),
        Err(error) if error.kind() == ErrorKind::NotFound => Ok(Found::Nothing),
        Err(_) => Err(Failed),
    }
}

/// The path that a link names. A relative one begins at the link's folder.
fn follow<R: System>(rt: &R, alloc: Global, link: &str) -> Result<String, Failed> {
    let target = rt.read_link(alloc, link)?;
    let target = target.into_string();
    if target.as_str().starts_with('/') {
        return Ok(target);
    }
    let mut path = folder_of(alloc, link)?;
    path.push_str(target.as_str())?;
    Ok(path)
}

/// The file that is there. It is opened for writing, so that one which may not be written is not replaced.
fn old_file<R: System>(rt: &R, path: &str) -> io::Result<Old> {
    let file = OpenOptions::new().write(true).open(rt, path)?;
    let found = file.metadata()?;
    Ok(Old {
        identity: identity_of(&found),
        permissions: found.mode() & PERMISSION_BITS,
    })
}

/// The place of a path that is no link.
fn place_of<R: System>(
    rt: &R,
    alloc: Global,
    path: String,
    old: Option<Old>,
) -> Result<Place, Failed> {
    let folder = folder_of(alloc, path.as_str())?;
    let found = fs::metadata(rt, folder.as_str())?;
    Ok(Place {
        path,
        folder,
        folder_identity: identity_of(&found),
        old,
    })
}

/// Whether files of this path are the system's own, which have no folder to write a draft in.
fn is_of_system(path: &str) -> bool {
    path.starts_with("/dev/") || path.starts_with("/proc/")
}

/// Whether a path ends in the name of a file.
fn ends_in_name(path: &str) -> bool {
    let last = last_part(path);
    !(last.is_empty() || last == "." || last == "..")
}

/// The place that a name leads to over symbolic links, which stay. There is none where the name stands for no regular
/// file: a device, a pipe, a folder, or a name that no file can have.
fn find_place<R: System>(rt: &R, alloc: Global, name: &str) -> Result<Option<Place>, Failed> {
    let mut path = String::from_str(alloc, name)?;
    for _ in 0..MOST_LINKS {
        if is_of_system(path.as_str()) {
            return Ok(None);
        }
        match look_at(rt, path.as_str())? {
            Found::Link => path = follow(rt, alloc, path.as_str())?,
            Found::Nothing if ends_in_name(path.as_str()) => {
                return Ok(Some(place_of(rt, alloc, path, None)?));
            }
            Found::File => {
                let old = old_file(rt, path.as_str())?;
                return Ok(Some(place_of(rt, alloc, path, Some(old))?));
            }
            Found::Nothing | Found::Other => return Ok(None),
        }
    }
    Err(Failed)
}

/// Makes a file in a folder, under a name that no file there has, and answers its path.
fn make_file<R: System>(rt: &R, alloc: Global, folder: &str) -> Result<(String, R::File), Failed> {
    for number in 0..MOST_TRIES {
        let path = format!(in alloc; "{folder}.vginsert-{number}")?;
        let made = OpenOptions::new()
            .write(true)
            .create_new(true)
            .open(rt, path.as_str());
        match made {
            Ok(file) => return Ok((path, file)),
            Err(error) if error.kind() == ErrorKind::AlreadyExists => {}
            Err(_) => return Err(Failed),
        }
    }
    Err(Failed)
}

/// Gives a draft the permissions of the file that it replaces.
fn take_permissions<F: OpenFile>(file: &F, place: &Place) -> io::Result<()> {
    match place.old {
        Some(old) => file.set_permissions(Permissions::from_mode(old.permissions)),
        None => Ok(()),
    }
}

/// Whether some of these drafts has this place.
fn is_taken(waiting: &[Option<Draft>], place: &Place) -> bool {
    waiting.iter().any(|draft| match draft {
        Some(draft) => draft.place.is_place_of(place),
        None => false,
    })
}

/// Opens a draft of the file of this name, beside it. What is no regular file is opened in place, as it is, and has no
/// draft. It fails where a draft that waits has the same place.
pub fn open_draft<R: System>(
    rt: &R,
    alloc: Global,
    waiting: &[Option<Draft>],
    name: &str,
) -> Result<(R::File, Option<Draft>), Failed> {
    let Some(place) = find_place(rt, alloc, name)? else {
        return Ok((fs::create(rt, name)?, None));
    };
    if is_taken(waiting, &place) {
        return Err(Failed);
    }
    let (path, file) = make_file(rt, alloc, place.folder.as_str())?;
    let permitted = take_permissions(&file, &place);
    let draft = Draft { path, place };
    if permitted.is_err() {
        remove_draft(rt, Some(&draft));
        return Err(Failed);
    }
    Ok((file, Some(draft)))
}

/// Hands on to the system, for good, what was written, and closes the file. A file that cannot do so, as a pipe, is
/// passed over. That closing it fails cannot be seen.
pub fn hand_on<F: Write + OpenFile + Drop>(mut file: F) -> io::Result<()> {
    file.flush()?;
    match file.sync_all() {
        Err(error) if error.kind() == ErrorKind::InvalidInput => Ok(()),
        done => done,
    }
}

/// Puts a draft in the place of its file. What was written in place is there already.
pub fn publish_draft<R: System>(rt: &R, draft: Option<&Draft>) -> io::Result<()> {
    match draft {
        Some(draft) => fs::rename(rt, draft.path.as_str(), draft.place.path.as_str()),
        None => Ok(()),
    }
}

/// Removes the file of a draft, if it can be removed.
pub fn remove_draft<R: System>(rt: &R, draft: Option<&Draft>) {
    if let Some(draft) = draft {
        let _ = fs::remove_file(rt, draft.path.as_str());
    }
}

/// Removes the files of these drafts, where they can be removed.
pub fn remove_drafts<R: System>(rt: &R, drafts: &[Option<Draft>]) {
    for draft in drafts {
        remove_draft(rt, draft.as_ref());
    }
}
