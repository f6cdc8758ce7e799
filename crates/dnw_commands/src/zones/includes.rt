//! Files that zone files include (RFC 1035, section 5.1), and which may be included: docs/ZONES.md has the rules.

use crate::base::{Refusal, plain, unread};
use dns_names_wire::field_text::{FieldTextError, parse_text};
use dns_names_wire::zone::Include;
use std::alloc::{AllocError, AllocFailed, Global};
use std::path::Path;
use std::rt::Files;
use std::{fs, io, str};
use thiserror::Error;

/// How many files may be open at once, each but the first included by the one before it.
const MAX_DEPTH: usize = 10;

/// How many files may be included in all.
const MAX_FILES: usize = 1_000;

/// Why the file of an `$INCLUDE` is not read.
#[derive(Debug, Drop, Error)]
pub(crate) enum IncludeError {
    /// The word is no text, or the text is no UTF-8.
    #[error("wanted the name of a file")]
    NoName,
    /// No folder has files that may be included in this text.
    #[error("$INCLUDE is not followed here without --include")]
    NoFolder,
    /// The file is in no folder that has such files.
    #[error("{0}: not below the folder of the zone file, or one of --include")]
    Outside(String),
    /// Too many files are open.
    #[error("10 files include one another already")]
    TooDeep,
    /// Too many files were included.
    #[error("1000 files are included already")]
    TooMany,
    /// The file is open, since it includes this one, or is it.
    #[error("{0}: the file includes itself")]
    Itself(String),
    /// A folder, a device, or another thing without an end.
    #[error("{0}: not a plain file")]
    NotPlain(String),
    /// The file cannot be opened or read.
    #[error("{file}: {error}")]
    Unread {
        /// The file.
        file: String,
        /// What is wrong.
        error: io::Error,
    },
    /// An allocation failed.
    #[error("out of memory")]
    Memory,
}

impl From<AllocError> for IncludeError {
    fn from(_: AllocError) -> Self {
        IncludeError::Memory
    }
}

impl<T: Drop> From<AllocFailed<T>> for IncludeError {
    fn from(_: AllocFailed<T>) -> Self {
        IncludeError::Memory
    }
}

/// A file that is included.
#[derive(Drop)]
pub(crate) struct Included<F> {
    /// Its path, from which relative paths of its own begin.
    pub(crate) path: String,
    /// How its errors name it.
    pub(crate) name: String,
    /// The file, which is open.
    pub(crate) file: F,
    /// How many octets it has.
    pub(crate) len: u64,
}

/// Which files may be included, and which are.
#[derive(Drop)]
pub(crate) struct Inclusions {
    /// The folders below which they are, after links are followed.
    folders: Vec<String>,
    /// The files that are open, after links are followed. Each but the first is included by the one before it.
    open: Vec<String>,
    /// How many files were included.
    count: usize,
}

impl Inclusions {
    /// Begins with a zone file, or with standard input if it is `-`. Files may be included from its own folder, if it is a plain file,
    /// and from the folders that are given. It fails if one of these is not there.
    pub(crate) fn new<E: Files + AllocGlobal>(
        env: &E,
        alloc: Global,
        file: &str,
        given: &[&str],
    ) -> Result<Self, Refusal> {
        let mut inclusions = Inclusions {
            folders: Vec::new(alloc),
            open: Vec::new(alloc),
            count: 0,
        };
        match own_place(env, file) {
            Some((place, folder)) => {
                inclusions.open.push(place)?;
                inclusions.folders.push(folder)?;
            }
            None => inclusions.open.push(String::from_str(alloc, file)?)?,
        }
        for folder in given {
            match fs::canonicalize(env, *folder) {
                Ok(place) => inclusions.folders.push(place.into_string())?,
                Err(error) => return Err(unread(alloc, folder, error)),
            }
        }
        Ok(inclusions)
    }

    /// Opens the file of an `$INCLUDE`, by the word that names it, as it stands in the text. A relative path begins in the folder of a
    /// path, or nowhere.
    pub(crate) fn open<E: Files + AllocGlobal>(
        &mut self,
        env: &E,
        alloc: Global,
        path: Option<&str>,
        word: &[u8],
    ) -> Result<Included<E::File>, IncludeError> {
        let Some(path) = path else {
            return Err(IncludeError::NoFolder);
        };
        if MAX_DEPTH <= self.open.len() {
            return Err(IncludeError::TooDeep);
        }
        if MAX_FILES <= self.count {
            return Err(IncludeError::TooMany);
        }
        let path = path_of(alloc, path, word)?;
        let name = plain(alloc, path.as_str())?;
        let place = self.place_of(env, alloc, path.as_str(), name.as_str())?;
        match opened(env, place.as_str()) {
            Ok(Some((file, len))) => {
                self.count = self.count.saturating_add(1);
                self.open.push(place)?;
                Ok(Included {
                    path,
                    name,
                    file,
                    len,
                })
            }
            Ok(None) => Err(IncludeError::NotPlain(name)),
            Err(error) => Err(IncludeError::Unread { file: name, error }),
        }
    }

    /// Ends the file that was opened last.
    pub(crate) fn close(&mut self) {
        self.open.pop();
    }

    /// Returns where a file is after links are followed, if it may be included and is not open. Of a file that may not be included
    /// nothing else is said, not even whether it is there.
    fn place_of<E: Files + AllocGlobal>(
        &self,
        env: &E,
        alloc: Global,
        path: &str,
        name: &str,
    ) -> Result<String, IncludeError> {
        let name = String::from_str(alloc, name)?;
        let place = match fs::canonicalize(env, path) {
            Ok(place) => place.into_string(),
            Err(error) if is_below_any(env, self.folders.as_slice(), path) => {
                return Err(IncludeError::Unread { file: name, error });
            }
            Err(_) => return Err(IncludeError::Outside(name)),
        };
        if !is_below_one(self.folders.as_slice(), place.as_str()) {
            Err(IncludeError::Outside(name))
        } else if has(self.open.as_slice(), place.as_str()) {
            Err(IncludeError::Itself(name))
        } else {
            Ok(place)
        }
    }
}

/// Returns where a zone file and its folder are after links to the folder are followed, if it is a plain file.
fn own_place<E: Files + AllocGlobal>(env: &E, file: &str) -> Option<(String, String)> {
    if file == "-" || !fs::metadata(env, file).ok()?.is_file() {
        return None;
    }
    let place = fs::canonicalize(env, file).ok()?;
    let folder = fs::canonicalize(env, folder_of(file)).ok()?;
    Some((place.into_string(), folder.into_string()))
}

/// Returns the folder that a path begins with.
fn folder_of(path: &str) -> &str {
    match path.rsplit_once('/') {
        Some(("", _)) => "/",
        Some((folder, _)) => folder,
        None => ".",
    }
}

/// Returns whether the folder of a path is below one of these folders.
fn is_below_any<E: Files + AllocGlobal>(env: &E, folders: &[String], path: &str) -> bool {
    match fs::canonicalize(env, folder_of(path)) {
        Ok(folder) => is_below_one(folders, folder.as_path().as_str()),
        Err(_) => false,
    }
}

/// Returns whether a path is one of these folders, or below it.
fn is_below_one(folders: &[String], path: &str) -> bool {
    for folder in folders {
        if Path::new(path).starts_with(folder.as_str()) {
            return true;
        }
    }
    false
}

/// Returns whether a path is among others.
fn has(paths: &[String], path: &str) -> bool {
    for other in paths {
        if other.as_str() == path {
            return true;
        }
    }
    false
}

/// Returns the word of an `$INCLUDE` that is the file, as it stands in the text.
pub(crate) fn word_of<'a>(text: &'a [u8], include: &Include) -> &'a [u8] {
    let end = include.file.saturating_add(include.file_len);
    text.get(include.file..end).unwrap_or_default()
}

/// Returns the path of the file that a word is, in the folder of a path.
fn path_of(alloc: Global, path: &str, word: &[u8]) -> Result<String, IncludeError> {
    let octets = text_of(alloc, word)?;
    let Ok(name) = str::from_utf8(octets.as_slice()) else {
        return Err(IncludeError::NoName);
    };
    let path = Path::new(path).with_file_name(alloc, name)?;
    Ok(path.into_string())
}

/// Returns the octets that a word stands for, with or without quotes and escapes.
fn text_of(alloc: Global, word: &[u8]) -> Result<Vec<u8>, IncludeError> {
    let Ok(text) = str::from_utf8(word) else {
        return Err(IncludeError::NoName);
    };
    let mut octets = Vec::new(alloc);
    match parse_text(text.as_bytes(), &mut octets) {
        Ok(()) => Ok(octets),
        Err(FieldTextError::Memory) => Err(IncludeError::Memory),
        Err(_) => Err(IncludeError::NoName),
    }
}

/// Opens a file, if it is a plain one, and returns how many octets it has too.
fn opened<E: Files>(env: &E, place: &str) -> io::Result<Option<(E::File, u64)>> {
    let metadata = fs::metadata(env, place)?;
    if !metadata.is_file() {
        return Ok(None);
    }
    Ok(Some((fs::open(env, place)?, metadata.len())))
}
