// The keeper's steps on one object: begin, finish, tidy, sweep and give up.
ghost use Rattle.std.specs.Prelude.{◌≡◌, ℕ, ◌^◌, ◌<◌, ◌≤◌, map, length, IfOk};
ghost use Rattle.keeper.specs.Object.{State};
ghost use Rattle.keeper.specs.Rules.{names};
ghost use Rattle.keeper.specs.Shown.{content_of, state_of, outcome_of, planned_outcome, plan_outcome, act_of, readings_of, setup_of, Gives, Comes};
ghost use Rattle.keeper.specs.Steps.{begin as begin_of, reserve as reserve_of, writing_on, finish as finish_of, take_away, tidy as tidy_of, sweep as sweep_of, give_up};

use crate::clearing::{Rule, clears};
pub use crate::object::LAST_NUMBER;
use crate::object::{Answer, Effect, Known, Object, Step};
pub use crate::plan::refuse;
use crate::plan::{Plan, step_keeping_state, step_or_refusal};
use crate::readings::{all_have, how_many_in};
use crate::refusal::Refusal;
use crate::view::View;
use crate::writing::{Content, Writing};
use std::alloc::{AllocError, Global};

// Begins to write an object that counts a version: it is being written, from that one to the next.
pub fn begin(heap: Global, object: Object, bytes: Vec<u8>) -> Step
    ensures { Gives result (state_of object) (begin_of (state_of object) bytes.items) }
{
    let planned = plan_begin(heap, &object, bytes);
    step_or_refusal(heap, object, planned)
}

fn plan_begin(heap: Global, object: &Object, bytes: Vec<u8>) -> Result<Step, Refusal>
    ensures { Comes (planned_outcome (state_of object.now) result) (state_of object.now) (begin_of (state_of object.now) bytes.items) }
{
    let content = Content::try_from(bytes)?;
    let from = object.known.counted()?;
    object.numbers.check()?;
    let effects = reserve(heap, object)?;
    Ok(Step {
        answer: Ok(Answer::Version(object.numbers.next)),
        effects,
        object: written_on(object, from, content),
    })
}

// Where the file's number isn't above the next version's, it is raised before that is used. That a number is left is asked in each of these functions:
// a type for it would hold the numbers a second time, beside the object's.
pub fn reserve(heap: Global, object: &Object) -> Result<Vec<Effect>, AllocError>
    requires { object.now.numbers.next < 2 ^ 63 }
    ensures { IfOk result (λ v. map act_of v.items ≡ reserve_of (state_of object.now)) }
{
    let mut effects = Vec::new(heap);
    if object.numbers.file <= object.numbers.next {
        effects.push(Effect::Replace {
            number: object.numbers.used().file,
            bar: object.bar,
        })?;
    }
    Ok(effects)
}

// The object is being written, from a version to the next one, whose number is used up.
pub fn written_on(object: &Object, from: u64, content: Content) -> Object
    requires { object.now.numbers.next < 2 ^ 63 }
    ensures { state_of result ≡ writing_on (state_of object.now) from (content_of content) }
{
    let to = object.numbers.next;
    Object {
        known: Known::Writing(Writing { from, to, content }),
        bar: object.bar,
        numbers: object.numbers.used(),
    }
}

// Finishes a writing, when all drives that are in have the new version and enough are in: it counts and is the bar, in the file.
pub fn finish(view: View<'_>, need: u8, object: Object) -> Step
    requires { length view.present.now ≤ 256 }
    ensures { Gives result (state_of object) (finish_of (setup_of need view.entry.present.now) (state_of object) (readings_of view.entry.entries.now)) }
{
    let planned = plan_finish(view, need, &object);
    step_or_refusal(view.heap, object, planned)
}

fn plan_finish(view: View<'_>, need: u8, object: &Object) -> Result<Step, Refusal>
    requires { length view.present.now ≤ 256 }
    ensures { Comes (planned_outcome (state_of object.now) result) (state_of object.now) (finish_of (setup_of need view.entry.present.now) (state_of object.now) (readings_of view.entry.entries.now)) }
{
    let to = object.known.writing()?.to;
    if !all_have(view.entries, view.present, to) {
        return Err(Refusal::NotEverywhere);
    }
    if how_many_in(view.present) < usize::from(need) {
        return Err(Refusal::TooFewIn);
    }
    let number = object.numbers.file;
    let bar = to;
    let effects = vec![in view.heap; Effect::Replace { number, bar }]?;
    Ok(Step {
        answer: Ok(Answer::Version(to)),
        effects,
        object: Object {
            known: Known::Counts(to),
            bar,
            numbers: object.numbers,
        },
    })
}

// Tidies an object that counts a version on a drive that is in: pieces of other versions go.
pub fn tidy(view: View<'_>, object: Object, drive: u8) -> Step
    ensures { (need : ℕ) → Gives result (state_of object) (tidy_of (setup_of need view.entry.present.now) (state_of object) drive (readings_of view.entry.entries.now)) }
{
    let planned = plan_tidy(view, &object, drive);
    step_keeping_state(view.heap, object, planned)
}

fn plan_tidy(view: View<'_>, object: &Object, drive: u8) -> Result<Plan, Refusal>
    ensures { (need : ℕ) → Comes (plan_outcome (state_of object.now) result) (state_of object.now) (tidy_of (setup_of need view.entry.present.now) (state_of object.now) drive (readings_of view.entry.entries.now)) }
{
    view.check_drive(drive)?;
    let version = object.known.counted()?;
    view.check_in(drive)?;
    plan_removal(view, Rule::OnDriveBut { drive, version })
}

// The entries that the rule names go, and the caller is told how many.
fn plan_removal(view: View<'_>, rule: Rule) -> Result<Plan, Refusal>
    ensures { (s : State) → Comes (plan_outcome s result) s (take_away s (names rule) (readings_of view.entry.entries.now)) }
{
    let effects = clears(Vec::new(view.heap), view.entries, rule)?;
    Ok(Plan {
        answer: Answer::Removed(effects.len()),
        effects,
    })
}

// Sweeps an object on a drive that is in, at any time: its pieces below its bar go.
pub fn sweep(view: View<'_>, object: Object, drive: u8) -> Step
    ensures { (need : ℕ) → Gives result (state_of object) (sweep_of (setup_of need view.entry.present.now) (state_of object) drive (readings_of view.entry.entries.now)) }
{
    let planned = plan_sweep(view, &object, drive);
    step_keeping_state(view.heap, object, planned)
}

fn plan_sweep(view: View<'_>, object: &Object, drive: u8) -> Result<Plan, Refusal>
    ensures { (need : ℕ) → Comes (plan_outcome (state_of object.now) result) (state_of object.now) (sweep_of (setup_of need view.entry.present.now) (state_of object.now) drive (readings_of view.entry.entries.now)) }
{
    view.check_drive(drive)?;
    view.check_in(drive)?;
    let version = object.bar;
    plan_removal(view, Rule::OnDriveBelow { drive, version })
}

// Gives up an unfinished writing: whether it counts isn't known, and the object is unsure.
pub fn give_up(heap: Global, object: Object) -> Step
    ensures { outcome_of result ≡ give_up (state_of object) }
{
    let planned = plan_give_up(heap, &object);
    step_or_refusal(heap, object, planned)
}

fn plan_give_up(heap: Global, object: &Object) -> Result<Step, Refusal>
    ensures { planned_outcome (state_of object.now) result ≡ give_up (state_of object.now) }
{
    object.known.writing()?;
    Ok(Step {
        answer: Ok(Answer::Unknown),
        effects: Vec::new(heap),
        object: Object {
            known: Known::Unsure,
            bar: object.bar,
            numbers: object.numbers,
        },
    })
}
