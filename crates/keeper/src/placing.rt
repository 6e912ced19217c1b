// The steps that write a piece, or work an object out: write, read and mend.
ghost use Rattle.std.specs.Prelude.{◌≡◌, ◌≤◌, [], ◌∷◌, map, length, IfOk};
ghost use Rattle.keeper.specs.Object.{write_slot};
ghost use Rattle.keeper.specs.Real.{GivesBy, ComesBy};
ghost use Rattle.keeper.specs.Shown.{act_of, state_of, reply_of, plan_outcome, readings_of, setup_of};
ghost use Rattle.keeper.specs.Steps.{write as write_of, read as read_of, mend as mend_of};

use crate::codec::Codec;
use crate::object::{Answer, Effect, Object, Step};
use crate::plan::{Plan, step_keeping_state};
use crate::readings::{is_holder, place_for};
use crate::refusal::Refusal;
use crate::view::View;
use std::alloc::{AllocError, Global};

// Writes a piece of the new version to a drive that is in.
pub fn write(view: View<'_>, codec: Codec, object: Object, drive: u8) -> Step
    requires { length view.present.now ≤ 32 }
    ensures { GivesBy codec.need codec.object result (state_of object) (λ C. write_of C (setup_of codec.need view.entry.present.now) (state_of object) drive (readings_of view.entry.entries.now)) }
{
    let planned = plan_write(view, codec, &object, drive);
    step_keeping_state(view.heap, object, planned)
}

fn plan_write(view: View<'_>, codec: Codec, object: &Object, drive: u8) -> Result<Plan, Refusal>
    requires { length view.present.now ≤ 32 }
    ensures { ComesBy codec.need codec.object (plan_outcome (state_of object.now) result) (state_of object.now) (λ C. write_of C (setup_of codec.need view.entry.present.now) (state_of object.now) drive (readings_of view.entry.entries.now)) }
{
    view.check_drive(drive)?;
    let writing = object.known.writing()?;
    view.check_in(drive)?;
    let Some(at) = place_for(view.entries, drive, writing.to) else {
        return Err(Refusal::NoPlace);
    };
    let record = codec.record(view.heap, drive, writing.to, &writing.content)?;
    Ok(place(view.heap, Answer::Done, drive, at, record)?)
}

// A record goes to a place of a drive, and the answer is told.
fn place(
    heap: Global,
    answer: Answer,
    drive: u8,
    place: u8,
    bytes: Vec<u8>,
) -> Result<Plan, AllocError>
    ensures { IfOk result (λ p. (reply_of p.answer ≡ reply_of answer) × (map act_of p.effects.items ≡ write_slot drive place bytes.items ∷ [])) }
{
    let effects = vec![in heap;
        Effect::Write {
            drive,
            place,
            bytes
        },
    ]?;
    Ok(Plan { answer, effects })
}

// Reads an object that counts a version: any pieces of it, as many as are needed, give it; version 0 is no object.
pub fn read(view: View<'_>, codec: Codec, object: Object) -> Step
    ensures { GivesBy codec.need codec.object result (state_of object) (λ C. read_of C (setup_of codec.need view.entry.present.now) (state_of object) (readings_of view.entry.entries.now)) }
{
    let planned = plan_read(view, codec, &object);
    step_keeping_state(view.heap, object, planned)
}

fn plan_read(view: View<'_>, codec: Codec, object: &Object) -> Result<Plan, Refusal>
    ensures { ComesBy codec.need codec.object (plan_outcome (state_of object.now) result) (state_of object.now) (λ C. read_of C (setup_of codec.need view.entry.present.now) (state_of object.now) (readings_of view.entry.entries.now)) }
{
    let version = object.known.counted()?;
    if version == 0 {
        return Ok(Plan::told(view.heap, Answer::Nothing));
    }
    match codec.content(view.heap, view.entries, version)? {
        Some(content) => Ok(Plan::told(view.heap, Answer::Has(version, content.bytes))),
        None => Err(Refusal::TooFewPieces),
    }
}

// Mends an object that counts a version on a drive that is in: where the drive has no piece of it, one is made of others, each of which was checked.
pub fn mend(view: View<'_>, codec: Codec, object: Object, drive: u8) -> Step
    requires { length view.present.now ≤ 32 }
    ensures { GivesBy codec.need codec.object result (state_of object) (λ C. mend_of C (setup_of codec.need view.entry.present.now) (state_of object) drive (readings_of view.entry.entries.now)) }
{
    let planned = plan_mend(view, codec, &object, drive);
    step_keeping_state(view.heap, object, planned)
}

fn plan_mend(view: View<'_>, codec: Codec, object: &Object, drive: u8) -> Result<Plan, Refusal>
    requires { length view.present.now ≤ 32 }
    ensures { ComesBy codec.need codec.object (plan_outcome (state_of object.now) result) (state_of object.now) (λ C. mend_of C (setup_of codec.need view.entry.present.now) (state_of object.now) drive (readings_of view.entry.entries.now)) }
{
    view.check_drive(drive)?;
    let version = object.known.counted()?;
    view.check_in(drive)?;
    if version != 0 && is_holder(view.entries, drive, version) {
        return Ok(Plan::told(view.heap, Answer::Mended(0)));
    }
    let Some(at) = place_for(view.entries, drive, version) else {
        return Err(Refusal::NoPlace);
    };
    if version == 0 {
        return Err(Refusal::CountsNone);
    }
    let Some(content) = codec.content(view.heap, view.entries, version)? else {
        return Err(Refusal::TooFewPieces);
    };
    let record = codec.record(view.heap, drive, version, &content)?;
    Ok(place(view.heap, Answer::Mended(1), drive, at, record)?)
}
