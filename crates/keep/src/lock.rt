// One keeper to a directory: while it lives, a file there names its process by number and by the time at which it was started. A file whose process is gone
// says nothing, and is taken away by the next start. Each makes its own file before it looks for others, so of two that start at once at most one goes on.
use files::{Ended, told};
use std::alloc::AllocError;
use std::fs::File;
use std::{fs, io};

const PREFIX: &str = "lock-";

#[derive(Drop)]
pub struct Lock {
    rt: HostRuntime,
    path: String,
}

impl Lock {
    pub fn release(&self) {
        let _ = fs::remove_file(&self.rt, self.path.as_str());
    }
}

// The time at which a process was started, of what the system says of it; none where it has ended already. Behind the name in parentheses stand the state
// and, nineteen words further, that time.
fn start_time(stat: &str) -> Option<&str> {
    let (_, rest) = stat.rsplit_once(')')?;
    let mut words = rest.split_ascii_whitespace();
    let state = words.next().unwrap_or("Z");
    if state == "Z" || state == "X" {
        None
    } else {
        words.nth(18)
    }
}

// The file's name for this process.
fn own_name(rt: HostRuntime) -> io::Result<String> {
    let stat = fs::read_to_string(&rt, "/proc/self/stat")?;
    match (stat.as_str().split_once(' '), start_time(stat.as_str())) {
        (Some((pid, _)), Some(time)) => Ok(format!(in rt.alloc(); "{PREFIX}{pid}-{time}")?),
        _ => Err(io::Error::from(io::ErrorKind::InvalidData)),
    }
}

// Whether the process that a file's name names is there.
fn lives(rt: HostRuntime, name: &str) -> Result<bool, AllocError> {
    let Some((pid, time)) = parts(name) else {
        return Ok(false);
    };
    let path = format!(in rt.alloc(); "/proc/{pid}/stat")?;
    match fs::read_to_string(&rt, path.as_str()) {
        Ok(stat) => Ok(start_time(stat.as_str()) == Some(time)),
        Err(_) => Ok(false),
    }
}

fn parts(name: &str) -> Option<(&str, &str)> {
    name.strip_prefix(PREFIX)?.split_once('-')
}

// The name of another keeper's file in the directory, if that lives; those of keepers that are gone are taken away.
fn other(rt: HostRuntime, dir: &str, own: &str) -> io::Result<Option<String>> {
    for entry in fs::read_dir(&rt, dir)? {
        let Some(entry) = readable(entry)? else {
            continue;
        };
        let name = entry.file_name();
        if name != own && parts(name).is_some() {
            if lives(rt, name)? {
                return Ok(Some(String::from_str(rt.alloc(), name)?));
            }
            let _ = fs::remove_file(&rt, entry.path());
        }
    }
    Ok(None)
}

// A name that isn't text is none of ours.
fn readable(entry: io::Result<fs::DirEntry>) -> io::Result<Option<fs::DirEntry>> {
    match entry {
        Ok(entry) => Ok(Some(entry)),
        Err(error) => if error.kind() == io::ErrorKind::InvalidFilename {
            Ok(None)
        } else {
            Err(error)
        },
    }
}

fn make(rt: HostRuntime, path: &str) -> io::Result<()> {
    let _file = File::create(&rt, path)?;
    Ok(())
}

fn claim(rt: HostRuntime, dir: &str, path: &str, own: &str) -> io::Result<Option<String>> {
    make(rt, path)?;
    other(rt, dir, own)
}

// Takes the directory for this process; refused where another keeper lives there.
pub fn take(rt: HostRuntime, dir: &str) -> Result<Lock, Ended> {
    let own = own_name(rt).map_err(|error| told(rt, "/proc/self/stat", error))?;
    let lock = Lock {
        rt,
        path: format!(in rt.alloc(); "{dir}/{own}")?,
    };
    match claim(rt, dir, lock.path.as_str(), own.as_str()) {
        Ok(None) => Ok(lock),
        Ok(Some(name)) => Err(lock.refuse(dir, name.as_str())),
        Err(error) => Err(lock.fail(error)),
    }
}

impl Lock {
    fn refuse(&self, dir: &str, name: &str) -> Ended {
        self.release();
        let _ = eprintln!(self.rt; "keep: {dir}: another keep works here, by {name}");
        Ended::Told
    }

    fn fail(&self, error: io::Error) -> Ended {
        self.release();
        told(self.rt, self.path.as_str(), error)
    }
}
