// The archive's text file read or made, and the drives' files opened. What goes wrong is told on standard error before it is handed on.
use crate::beside::{in_dir, replace, told};
use crate::disks::{Drive, FileDisks, make_drive, open_drive};
use crate::ended::Ended;
use crate::setup::Setup;
use archive::Sizes;
use std::fs::File;
use std::{fs, io};

// What the text file in a directory says; none where there is none.
pub fn load(rt: HostRuntime, dir: &str) -> Result<Option<Setup>, Ended> {
    let path = in_dir(rt.alloc(), dir, "archive")?;
    match fs::read_to_string(&rt, path.as_str()) {
        Ok(text) => parsed(rt, path.as_str(), text.as_str()),
        Err(error) => if error.kind() == io::ErrorKind::NotFound {
            Ok(None)
        } else {
            Err(told(rt, path.as_str(), error))
        },
    }
}

fn parsed(rt: HostRuntime, path: &str, text: &str) -> Result<Option<Setup>, Ended> {
    match Setup::parse(rt.alloc(), text) {
        Ok(setup) => Ok(Some(setup)),
        Err(e) => {
            eprintln!(rt; "{path}: {e}")?;
            Err(Ended::Told)
        }
    }
}

// Makes the files of a first start: the drives', those that aren't there, and then the text file.
pub fn make(rt: HostRuntime, dir: &str, sizes: Sizes) -> Result<Setup, Ended> {
    let setup = Setup::usual(rt.alloc(), sizes)?;
    for path in setup.paths.as_slice() {
        let path = in_dir(rt.alloc(), dir, path.as_str())?;
        make_missing(rt, path.as_str())?;
    }
    let path = in_dir(rt.alloc(), dir, "archive")?;
    let text = setup.text(rt.alloc())?;
    match replace(rt, path.as_str(), text.as_bytes()) {
        Ok(()) => Ok(setup),
        Err(error) => Err(told(rt, path.as_str(), error)),
    }
}

fn make_missing(rt: HostRuntime, path: &str) -> Result<(), Ended> {
    match make_drive(rt, path) {
        Ok(_file) => Ok(()),
        Err(error) => if error.kind() == io::ErrorKind::AlreadyExists {
            Ok(())
        } else {
            Err(told(rt, path, error))
        },
    }
}

// Opens the drives' files. A drive whose file can't be opened is out.
pub fn open_disks(
    rt: HostRuntime,
    dir: &str,
    setup: &Setup,
    writable: bool,
) -> io::Result<FileDisks> {
    let mut drives = Vec::new(rt.alloc());
    for path in setup.paths.as_slice() {
        let path = in_dir(rt.alloc(), dir, path.as_str())?;
        let file = opened(rt, path.as_str(), drives.len(), writable);
        drives.push(Drive { path, file })?;
    }
    let next = in_dir(rt.alloc(), dir, "next")?;
    Ok(FileDisks {
        rt,
        next,
        drives,
        writable,
    })
}

fn opened(rt: HostRuntime, path: &str, drive: usize, writable: bool) -> Option<File> {
    match open_drive(rt, path, writable) {
        Ok(file) => Some(file),
        Err(error) => {
            let _ = eprintln!(rt; "{path}: {error}; drive {drive} is out");
            None
        }
    }
}
