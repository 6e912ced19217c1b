// A first start, or one on an archive that is there. What goes wrong is told on standard error before it is handed on.
use crate::session::Session;
use archive::{Archive, Sizes};
use files::{Ended, Setup, bring_up, load, make, open_disks, sync_dir, told};
use std::{fs, io};

fn refused(rt: HostRuntime, dir: &str, why: &str) -> Ended {
    let _ = eprintln!(rt; "keep: {dir}: {why}");
    Ended::Told
}

fn agree(setup: &Setup, sizes: Option<Sizes>) -> bool {
    sizes.is_none_or(|sizes| sizes == setup.sizes)
}

// What the archive's text file says; none where there is none. Refused where N and NEED are others, or there is neither.
fn known(rt: HostRuntime, dir: &str, sizes: Option<Sizes>) -> Result<Option<Setup>, Ended> {
    let found = load(rt, dir)?;
    match &found {
        Some(setup) => if !agree(setup, sizes) {
            return Err(others(rt, dir, setup.sizes));
        },
        None => if sizes.is_none() {
            return Err(refused(
                rt,
                dir,
                "there is no archive here; a first start needs N and NEED",
            ));
        },
    }
    Ok(found)
}

fn others(rt: HostRuntime, dir: &str, sizes: Sizes) -> Ended {
    let Sizes { drives, need } = sizes;
    let _ = eprintln!(rt;
        "keep: {dir}: this archive has {drives} drives, and {need} are needed; leave N and NEED out, or give these"
    );
    Ended::Told
}

// Whether a start may go on; where it is the first, its directory is made. Nothing else is touched.
pub fn check(rt: HostRuntime, dir: &str, sizes: Option<Sizes>) -> Result<(), Ended> {
    if dir.is_empty() {
        return Err(refused(rt, dir, "DIR must not be empty"));
    }
    if known(rt, dir, sizes)?.is_some() {
        return Ok(());
    }
    make_dir(rt, dir).map_err(|error| told(rt, dir, error))
}

fn make_dir(rt: HostRuntime, dir: &str) -> io::Result<()> {
    fs::create_dir_all(&rt, dir)?;
    let above = format!(in rt.alloc(); "{dir}/..")?;
    sync_dir(rt, above.as_str())
}

// Opens the archive, or makes it.
pub fn open_archive(rt: HostRuntime, dir: &str, sizes: Option<Sizes>) -> Result<Session, Ended> {
    let setup = match (known(rt, dir, sizes)?, sizes) {
        (Some(setup), _) => setup,
        (None, Some(sizes)) => make(rt, dir, sizes)?,
        (None, None) => return Err(refused(rt, dir, "there is no archive here any more")),
    };
    let mut disks = open_disks(rt, dir, &setup, true)?;
    let keeper = bring_up(&mut disks, setup.sizes.need)?;
    Ok(Session {
        rt,
        archive: Archive {
            heap: rt.alloc(),
            keeper,
            disks,
        },
    })
}
