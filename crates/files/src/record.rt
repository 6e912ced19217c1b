// A slot's record in a drive's file: only as many bytes are read and written as it has.
ghost use Rattle.std.specs.Prelude.{◌≡◌};
ghost use Rattle.files.specs.Records.{named};

use slots::{HEADER, Owner};
use std::alloc::Global;
use std::fs::File;
use std::io;
use std::io::{Read, Seek, SeekFrom, Write};

// The first byte of every record; `named_len` ties it to the definition of a record.
const KIND: u8 = 87;

// Appends the bytes from a place of a file on; what lies past its end isn't there.
fn read_part(file: &File, at: u64, len: u64, into: &mut Vec<u8>) -> io::Result<()> {
    let mut source = file;
    source.seek(SeekFrom::Start(at))?;
    let mut part = source.take(len);
    part.read_to_end(into)?;
    Ok(())
}

// How long the record is that a slot's first bytes name, where it is of that object and drive.
fn named_len(header: &[u8], owner: Owner) -> Option<usize>
    ensures { result ≡ named owner.object owner.drive header.now }
{
    let [KIND, object, drive, _, _, _, _, _, _, _, _, l0, l1, l2, l3] = header else {
        return None;
    };
    if *object != owner.object || *drive != owner.drive {
        return None;
    }
    slots::record_len(u32::from_be_bytes([*l0, *l1, *l2, *l3]) as usize)
}

// The bytes of a slot up to the end of the record that it may hold.
pub fn read_record(heap: Global, file: &File, at: u64, owner: Owner) -> io::Result<Vec<u8>> {
    let mut bytes = Vec::new(heap);
    read_part(file, at, HEADER as u64, &mut bytes)?;
    if let Some(len) = named_len(bytes.as_slice(), owner) {
        read_part(
            file,
            at.saturating_add(HEADER as u64),
            (len as u64).saturating_sub(HEADER as u64),
            &mut bytes,
        )?;
    }
    Ok(bytes)
}

// Writes these bytes, and waits until they last.
pub fn write_record(file: &File, at: u64, bytes: &[u8]) -> io::Result<()> {
    let mut target = file;
    target.seek(SeekFrom::Start(at))?;
    target.write_all(bytes)?;
    file.sync_data()
}

// Writes zeros over the record in a slot, if it holds one.
pub fn clear_record(heap: Global, file: &File, at: u64, owner: Owner) -> io::Result<()> {
    let mut bytes = read_record(heap, file, at, owner)?;
    if slots::clear(bytes.as_mut_slice(), owner) {
        write_record(file, at, bytes.as_slice())
    } else {
        Ok(())
    }
}
