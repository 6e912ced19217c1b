// Taking pieces away.
ghost use Rattle.std.specs.Prelude.{◌≡◌, ◌++◌, map, IfOk};
ghost use Rattle.keeper.specs.Readings.{clears as clears_of};
ghost use Rattle.keeper.specs.Rules.{names};
ghost use Rattle.keeper.specs.Shown.{act_of, reading_of, readings_of};

use crate::object::{Effect, Entry};
use std::alloc::AllocError;

// Which of an object's pieces are to go. `drives::Rule` names versions; with it and an `Option` of a drive in its place, each step would say the same in two parts.
#[derive(Clone, Copy, PartialEq, Eq, Debug)]
pub enum Rule {
    // on a drive, all versions but one
    OnDriveBut { drive: u8, version: u64 },
    // on a drive, all versions below one
    OnDriveBelow { drive: u8, version: u64 },
    // on all drives, all versions but two
    AllBut { version: u64, other: u64 },
}

fn is_named(rule: Rule, entry: &Entry) -> bool
    ensures { result ≡ names rule (reading_of entry.now) }
{
    match rule {
        Rule::OnDriveBut { drive, version } => entry.drive == drive && entry.version != version,
        Rule::OnDriveBelow { drive, version } => entry.drive == drive && entry.version < version,
        Rule::AllBut { version, other } => entry.version != version && entry.version != other,
    }
}

// The effects, and then the taking away of every entry that the rule names, in their order.
pub fn clears(
    mut effects: Vec<Effect>,
    entries: &[Entry],
    rule: Rule,
) -> Result<Vec<Effect>, AllocError>
    ensures { IfOk result (λ v. map act_of v.items ≡ map act_of effects.items ++ clears_of (names rule) (readings_of entries.now)) }
{
    for entry in entries {
        if is_named(rule, entry) {
            effects.push(Effect::Clear {
                drive: entry.drive,
                place: entry.place,
            })?;
        }
    }
    Ok(effects)
}
