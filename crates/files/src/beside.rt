// Files that are made and replaced so that they last.
use crate::ended::Ended;
use std::alloc::{AllocError, Global};
use std::fs::File;
use std::io::Write;
use std::{fs, io};

// A path that doesn't begin with a slash is taken from the directory.
pub fn in_dir(heap: Global, dir: &str, path: &str) -> Result<String, AllocError> {
    if path.starts_with('/') {
        String::from_str(heap, path)
    } else {
        format!(in heap; "{dir}/{path}")
    }
}

// Says on standard error what is wrong with a path.
pub fn told(rt: HostRuntime, path: &str, error: io::Error) -> Ended {
    let _ = eprintln!(rt; "{path}: {error}");
    Ended::Told
}

// What a directory lists lasts from here on.
pub fn sync_dir(rt: HostRuntime, dir: &str) -> io::Result<()> {
    let listed = File::open(&rt, dir)?;
    listed.sync_all()
}

// The directory that a path's file lies in.
pub fn parent(path: &str) -> &str {
    match path.rsplit_once('/') {
        Some((dir, _)) => if dir.is_empty() { "/" } else { dir },
        None => ".",
    }
}

fn write_new(rt: HostRuntime, path: &str, bytes: &[u8]) -> io::Result<()> {
    let mut file = File::create(&rt, path)?;
    file.write_all(bytes)?;
    file.sync_all()
}

// Replaces a file by these bytes, written beside it first: until that is done the old one stands.
pub fn replace(rt: HostRuntime, path: &str, bytes: &[u8]) -> io::Result<()> {
    let new = format!(in rt.alloc(); "{path}.new")?;
    write_new(rt, new.as_str(), bytes)?;
    fs::rename(&rt, new.as_str(), path)?;
    sync_dir(rt, parent(path))
}
