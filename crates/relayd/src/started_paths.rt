//! The paths of the files that a relay began with.

use admin_client::{ReloadFiles, can_be_named, files_answer, reload_files_in};
use command_line::{Paths, STANDARD_INPUT};
use relay_base::{NoMemory, whole_number_up_to};
use relay_files::{LongestName, MOST_CHARACTERS};
use std::alloc::Global;
use std::env;

/// These paths from the root on: those of a relay whose working directory is this one. Without a working directory they are as
/// they were given, which the relay reads all the same.
pub fn absolute_paths(rt: &HostRuntime, alloc: Global, paths: &Paths) -> Result<Paths, NoMemory> {
    let Ok(folder) = env::current_dir(rt) else {
        return copy_of(paths);
    };
    let folder = folder.as_str();
    Ok(Paths {
        config: absolute(alloc, folder, paths.config.as_str())?,
        rules: absolute_given(alloc, folder, &paths.rules)?,
        rewrite: absolute_given(alloc, folder, &paths.rewrite)?,
        longest_name: paths.longest_name,
    })
}

/// A path from the root on, in this folder if it is not from the root on. Standard input has none, and stays.
fn absolute(alloc: Global, folder: &str, path: &str) -> Result<String, NoMemory> {
    if path.starts_with('/') || path == STANDARD_INPUT {
        return Ok(String::from_str(alloc, path)?);
    }
    Ok(format!(in alloc; "{}/{path}", folder.trim_end_matches('/'))?)
}

/// The same of a path that may be given.
fn absolute_given(
    alloc: Global,
    folder: &str,
    path: &Option<String>,
) -> Result<Option<String>, NoMemory> {
    match path {
        Some(path) => Ok(Some(absolute(alloc, folder, path.as_str())?)),
        None => Ok(None),
    }
}

/// A copy of these paths.
pub fn copy_of(paths: &Paths) -> Result<Paths, NoMemory> {
    Ok(Paths {
        config: paths.config.clone()?,
        rules: copy_of_given(&paths.rules)?,
        rewrite: copy_of_given(&paths.rewrite)?,
        longest_name: paths.longest_name,
    })
}

/// A copy of a path that may be given.
fn copy_of_given(path: &Option<String>) -> Result<Option<String>, NoMemory> {
    match path {
        Some(path) => Ok(Some(path.clone()?)),
        None => Ok(None),
    }
}

/// The answer of the admin port to `files` that names these paths; an empty one if one of them cannot be named.
pub fn names_of(alloc: Global, paths: &Paths) -> Result<String, NoMemory> {
    if !can_be_named(paths.config.as_str())
        || !may_name(&paths.rules)
        || !may_name(&paths.rewrite)
    {
        return Ok(String::new(alloc));
    }
    let digits = match paths.longest_name {
        Some(longest) => Some(format!(in alloc; "{}", longest.characters())?),
        None => None,
    };
    let answer = files_answer(
        alloc,
        ReloadFiles {
            config: paths.config.as_str(),
            rules: text_of(&paths.rules),
            rewrite: text_of(&paths.rewrite),
            longest_name: text_of(&digits),
        },
    );
    drop(digits);
    answer
}

/// Whether a path that may be given can be named.
fn may_name(path: &Option<String>) -> bool {
    match path {
        Some(path) => can_be_named(path.as_str()),
        None => true,
    }
}

/// The text, if there is one.
fn text_of(text: &Option<String>) -> Option<&str> {
    match text {
        Some(text) => Some(text.as_str()),
        None => None,
    }
}

/// The paths that an answer to `files` names, if it names a configuration file. Refuses if out of memory.
pub fn paths_in(alloc: Global, answer: &[u8]) -> Result<Option<Paths>, NoMemory> {
    let Some(files) = reload_files_in(answer) else {
        return Ok(None);
    };
    Ok(Some(Paths {
        config: String::from_str(alloc, files.config)?,
        rules: owned(alloc, files.rules)?,
        rewrite: owned(alloc, files.rewrite)?,
        longest_name: files.longest_name.and_then(longest_name_in),
    }))
}

/// A text of its own, if there is one.
fn owned(alloc: Global, text: Option<&str>) -> Result<Option<String>, NoMemory> {
    match text {
        Some(text) => Ok(Some(String::from_str(alloc, text)?)),
        None => Ok(None),
    }
}

/// The limit on names that digits are, if it is one.
fn longest_name_in(digits: &str) -> Option<LongestName> {
    let characters = whole_number_up_to(digits, MOST_CHARACTERS as u64)?;
    LongestName::new(characters)
}
