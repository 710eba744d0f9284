//! The paths at which a header is looked for (C11 6.10.2 p2, p3). What stands there isn't known here.
ghost use Rattle.std.specs.Prelude.{◌≡◌, ◌≤◌, ◌++◌, List, ℕ, length, map, IfOk, OnOk};
ghost use Rattle.meaning_preprocessing.specs.Search.{directory_of, path_in, paths_for, wants_slash};
ghost use Rattle.c_tokens.specs.Seen.{IsKnown, text_of};
ghost use Rattle.c_directives.specs.Headers.{IsKnownHeader, bytes_of, end_from, header_seen, name_seen, paths_in};

use crate::header::{Header, begins_with_byte};
use c_tokens::Names;
use sparse_model::{Bytes, NameId};
use std::alloc::{AllocError, Global};

/// The paths in their order, where the file with this path asks, and these are the directories of the search.
pub fn paths_for(
    alloc: Global,
    names: &Names,
    header: Header,
    asking: &[u8],
    directories: &[Bytes],
) -> Result<Vec<Vec<u8>>, AllocError>
    requires { IsKnownHeader names.now header }
    ensures { IfOk result (λ paths. map bytes_of paths.items ≡ paths_for (header_seen names.now header) asking.now directories.now) }
{
    let name = names.spelling(name_of_header(names, header));
    let mut paths = Vec::new(alloc);
    if begins_with_byte(b'/', name) {
        let path = Vec::from_slice(alloc, name)?;
        paths.push(path)?;
        return Ok(paths);
    }
    if let Header::InQuotes(_) = header {
        let path = path_in(alloc, directory_of(asking), name)?;
        paths.push(path)?;
        add_paths(alloc, &mut paths, directories, name)?;
        return Ok(paths);
    }
    add_paths(alloc, &mut paths, directories, name)?;
    Ok(paths)
}

/// The name of a header.
pub fn name_of_header(names: &Names, header: Header) -> NameId
    requires { IsKnownHeader names.now header }
    ensures name { text_of names.now result ≡ name_seen names.now header }
    ensures known { IsKnown names.now result }
{
    match header {
        Header::InQuotes(name) => name,
        Header::InAngles(name) => name,
    }
}

// The paths of the name in each directory.
fn add_paths(
    alloc: Global,
    paths: &mut Vec<Vec<u8>>,
    directories: &[Bytes],
    name: &[u8],
) -> Result<(), AllocError>
    ensures { OnOk result (map bytes_of paths.new.items ≡ map bytes_of paths.old.items ++ paths_in name.now directories.now) }
{
    let mut left = directories;
    'directories: while let Some((directory, others)) = left.split_first() {
        let path = path_in(alloc, directory.as_slice(), name)?;
        paths.push(path)?;
        left = others;
    }
    Ok(())
}

/// A path through its last `/`.
pub(crate) fn directory_of(path: &[u8]) -> &[u8]
    ensures { result.now ≡ directory_of path.now }
{
    let (directory, _name) = path.split_at(directory_length(path));
    directory
}

fn directory_length(path: &[u8]) -> usize
    ensures end { result ≡ end_from 0 0 path.now }
    ensures within { result ≤ length path.now }
{
    let mut count = 0;
    let mut end = 0;
    let mut left = path;
    'bytes: while let Some((&byte, others)) = left.split_first() {
        count += 1;
        left = others;
        if byte == b'/' {
            end = count;
            continue 'bytes;
        }
    }
    end
}

/// The name in a directory, with a `/` between them where the directory wants one.
pub(crate) fn path_in(alloc: Global, directory: &[u8], name: &[u8]) -> Result<Vec<u8>, AllocError>
    ensures { IfOk result (λ path. path.items ≡ path_in directory.now name.now) }
{
    let mut path = Vec::from_slice(alloc, directory)?;
    if wants_slash(directory) {
        path.push(b'/')?;
        path.extend_from_slice(name)?;
        return Ok(path);
    }
    path.extend_from_slice(name)?;
    Ok(path)
}

fn wants_slash(directory: &[u8]) -> bool
    ensures { result ≡ wants_slash directory.now }
{
    let Some((&last, _)) = directory.split_last() else {
        return false;
    };
    last != b'/'
}
