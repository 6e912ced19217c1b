// The archive's text file: how many drives there are, how many of them are needed, and where the file of each lies.
use archive::{Sizes, SizesError};
use std::alloc::{AllocError, Global};
use std::fmt;

// The path of each drive's file, as a person wrote it: one that doesn't begin with a slash is taken from the archive's directory.
#[derive(Drop)]
pub struct Setup {
    pub sizes: Sizes,
    pub paths: Vec<String>,
}

#[derive(Clone, Copy, PartialEq, Eq, Debug)]
pub enum SetupError {
    Sizes(SizesError),
    // the line, counted from 1
    Line(usize),
    // so many drives are named
    Named(usize),
    NoMemory,
}

impl fmt::Display for SetupError {
    fn fmt<W: fmt::Write>(&self, f: &mut fmt::Formatter<W>) -> fmt::Result {
        match *self {
            SetupError::Sizes(e) => write!(f, "{e}"),
            SetupError::Line(line) => write!(
                f,
                "line {line} is not the one that has to stand there: 'drives N', 'need NEED', then 'drive 0 PATH' and so on"
            ),
            SetupError::Named(named) => write!(
                f,
                "{named} drives are named, not as many as there are"
            ),
            SetupError::NoMemory => f.write_str("out of memory"),
        }
    }
}

impl From<SizesError> for SetupError {
    fn from(e: SizesError) -> SetupError {
        SetupError::Sizes(e)
    }
}

impl From<AllocError> for SetupError {
    fn from(_e: AllocError) -> SetupError {
        SetupError::NoMemory
    }
}

// What stands behind a line's first word, where that is the one.
fn behind<'a>(line: &'a str, name: &str) -> Option<&'a str> {
    let (first, rest) = line.split_once(' ')?;
    (first == name).then(|| rest.trim())
}

// The path that a drive's line names.
fn path_in<'a>(line: &'a str, drive: usize) -> Option<&'a str> {
    let (digits, path) = behind(line, "drive")?.split_once(' ')?;
    (script::number(digits.as_bytes()) == Some(drive as u64)).then(|| path.trim())
}

// A line that says something; comments begin with '#'.
fn says(line: &str) -> bool {
    !line.is_empty() && !line.starts_with('#')
}

// A text file half read: its lines come in one order.
#[derive(Drop)]
struct Draft<'a> {
    drives: Option<&'a str>,
    need: Option<&'a str>,
    paths: Vec<String>,
}

impl<'a> Draft<'a> {
    fn add_path(&mut self, heap: Global, line: &'a str) -> Result<bool, AllocError> {
        let Some(path) = path_in(line, self.paths.len()) else {
            return Ok(false);
        };
        self.paths.push(String::from_str(heap, path)?)?;
        Ok(true)
    }

    // Takes the next line in; false where another one has to stand there.
    fn add(&mut self, heap: Global, line: &'a str) -> Result<bool, AllocError> {
        if self.drives.is_none() {
            self.drives = behind(line, "drives");
            return Ok(self.drives.is_some());
        }
        if self.need.is_none() {
            self.need = behind(line, "need");
            return Ok(self.need.is_some());
        }
        self.add_path(heap, line)
    }

    fn finish(self) -> Result<Setup, SetupError> {
        let Draft {
            drives,
            need,
            paths,
        } = self;
        let sizes = Sizes::new(
            drives.unwrap_or("").as_bytes(),
            need.unwrap_or("").as_bytes(),
        )?;
        if paths.len() != usize::from(sizes.drives) {
            return Err(SetupError::Named(paths.len()));
        }
        Ok(Setup { sizes, paths })
    }
}

impl Setup {
    // What a text file says.
    pub fn parse(heap: Global, text: &str) -> Result<Setup, SetupError> {
        let mut draft = Draft {
            drives: None,
            need: None,
            paths: Vec::new(heap),
        };
        let mut at: usize = 0;
        for line in text.lines() {
            at = at.saturating_add(1);
            let line = line.trim();
            if says(line) && !draft.add(heap, line)? {
                return Err(SetupError::Line(at));
            }
        }
        draft.finish()
    }

    // The setup of a first start: the drives' files lie in the archive's directory.
    pub fn usual(heap: Global, sizes: Sizes) -> Result<Setup, AllocError> {
        let mut paths = Vec::new(heap);
        for drive in 0..sizes.drives {
            paths.push(format!(in heap; "drive-{drive:02}")?)?;
        }
        Ok(Setup { sizes, paths })
    }

    // The text that `parse` reads.
    pub fn text(&self, heap: Global) -> Result<String, AllocError> {
        let Sizes { drives, need } = self.sizes;
        let mut text = format!(in heap;
            "# Where the drives of this archive lie. Paths that don't begin with a slash are taken from this directory.\ndrives {drives}\nneed {need}\n"
        )?;
        for (drive, path) in self.paths.iter().enumerate() {
            text.push_str(format!(in heap; "drive {drive} {path}\n")?.as_str())?;
        }
        Ok(text)
    }
}

#[cfg(test)]
mod tests {
    use super::*;
    use std::test::Fail;

    // Whether the text of a first start gives its setup back. No contract says so.
    fn comes_back(heap: Global, drives: &[u8], need: &[u8]) -> Result<bool, Fail> {
        let sizes = Sizes::new(drives, need).ok().ok_or("such sizes may be")?;
        let setup = Setup::usual(heap, sizes)?;
        let text = setup.text(heap)?;
        let read = Setup::parse(heap, text.as_str())
            .ok()
            .ok_or("the text is read")?;
        let mut same = read.sizes == sizes && read.paths.len() == usize::from(sizes.drives);
        for (found, written) in read.paths.iter().zip(setup.paths.iter()) {
            same = same && found.as_str() == written.as_str();
        }
        Ok(same)
    }

    #[test]
    fn the_fewest_drives_come_back(rt: HostRuntime) -> Result<(), Fail> {
        assert!(rt; comes_back(rt.alloc(), b"2", b"1")?);
        Ok(())
    }

    #[test]
    fn the_most_drives_come_back(rt: HostRuntime) -> Result<(), Fail> {
        assert!(rt; comes_back(rt.alloc(), b"32", b"31")?);
        Ok(())
    }

    #[test]
    fn a_wrong_text_is_refused_by_what_is_wrong(rt: HostRuntime) -> Result<(), Fail> {
        let cases = [
            ("", SetupError::Sizes(SizesError::Drives)),
            ("drives 33\nneed 2\n", SetupError::Sizes(SizesError::Drives)),
            ("drives 2\nneed 2\n", SetupError::Sizes(SizesError::Need)),
            ("need 1\n", SetupError::Line(1)),
            ("# said first\n\ndrives 2\nneeds 1\n", SetupError::Line(4)),
            (
                "drives 3\nneed 2\ndrive 0 a\ndrive 2 c\n",
                SetupError::Line(4),
            ),
            (
                "drives 2\nneed 1\ndrive 0\ndrive 1 b\n",
                SetupError::Line(3),
            ),
            ("drives 2\nneed 1\ndrive 0 a\n", SetupError::Named(1)),
            (
                "drives 2\nneed 1\ndrive 0 a\ndrive 1 b\ndrive 2 c\n",
                SetupError::Named(3),
            ),
        ];
        for (text, error) in &cases {
            let refused = Setup::parse(rt.alloc(), text).err();
            assert!(rt; refused == Some(*error), "{text}");
        }
        Ok(())
    }
}
