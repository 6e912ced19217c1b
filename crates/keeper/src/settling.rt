// Settling an object that is unsure.
ghost use Rattle.std.specs.Prelude.{◌≡◌, ◌^◌, ◌<◌, IfOk, Some, None};
ghost use Rattle.keeper.specs.Real.{GivesBy, ComesBy};
ghost use Rattle.keeper.specs.Found.{found_of, Betters, Highest};
ghost use Rattle.keeper.specs.Shown.{state_of, content_of, outcome_of, planned_outcome, readings_of, setup_of};
ghost use Rattle.keeper.specs.Steps.{higher, settling_on, settle as settle_of};

use crate::clearing::{Rule, clears};
use crate::codec::Codec;
use crate::found::Candidate;
use crate::object::{Answer, Effect, Known, Object, Step};
use crate::plan::step_or_refusal;
use crate::refusal::Refusal;
use crate::steps::{reserve, written_on};
use crate::view::View;
use std::alloc::AllocError;

// Settles an object that is unsure.
pub fn settle(view: View<'_>, codec: Codec, object: Object) -> Step
    ensures { GivesBy codec.need codec.object result (state_of object) (λ C. settle_of C (setup_of codec.need view.entry.present.now) (state_of object) (readings_of view.entry.entries.now)) }
{
    let planned = plan_settle(view, codec, &object);
    step_or_refusal(view.heap, object, planned)
}

fn plan_settle(view: View<'_>, codec: Codec, object: &Object) -> Result<Step, Refusal>
    ensures { ComesBy codec.need codec.object (planned_outcome (state_of object.now) result) (state_of object.now) (λ C. settle_of C (setup_of codec.need view.entry.present.now) (state_of object.now) (readings_of view.entry.entries.now)) }
{
    let Known::Unsure = &object.known else {
        return Err(Refusal::NotUnsure);
    };
    object.numbers.check()?;
    match highest(view, codec, object.bar)? {
        Some(candidate) => Ok(settle_on(view, object, candidate)?),
        None => Ok(settle_none(view, object)?),
    }
}

// The highest version that isn't below the bar, and of which enough pieces are in and work out.
fn highest(view: View<'_>, codec: Codec, bar: u64) -> Result<Option<Candidate>, AllocError>
    ensures { IfOk result (λ b. Highest codec.need bar (readings_of view.entry.entries.now) (found_of b)) }
{
    let mut best = None;
    for entry in view.entries {
        best = better(view, codec, bar, best, entry.version)?;
    }
    Ok(best)
}

// The better of what was found so far and a version: it isn't 0, isn't below the bar, is higher, and works out.
fn better(
    view: View<'_>,
    codec: Codec,
    bar: u64,
    best: Option<Candidate>,
    version: u64,
) -> Result<Option<Candidate>, AllocError>
    ensures { IfOk result (λ b. Betters codec.need bar (readings_of view.entry.entries.now) (found_of best) version (found_of b)) }
{
    if version < 1 || version < bar || !is_higher(version, &best) {
        return Ok(best);
    }
    match codec.content(view.heap, view.entries, version)? {
        Some(content) => Ok(Some(Candidate { version, content })),
        None => Ok(best),
    }
}

fn is_higher(version: u64, best: &Option<Candidate>) -> bool
    ensures { result ≡ higher version (found_of best.now) }
{
    best.as_ref()
        .is_none_or(|candidate| candidate.version < version)
}

// A version was found: it is written anew under the next number, and all pieces but its and the bar's go.
fn settle_on(view: View<'_>, object: &Object, candidate: Candidate) -> Result<Step, AllocError>
    requires { object.now.numbers.next < 2 ^ 63 }
    ensures { IfOk result (λ step. outcome_of step ≡ settling_on (state_of object.now) (readings_of view.entry.entries.now) (Some (candidate.version, content_of candidate.content))) }
{
    let Candidate { version, content } = candidate;
    let rule = Rule::AllBut {
        version,
        other: object.bar,
    };
    let effects = clears(reserve(view.heap, object)?, view.entries, rule)?;
    let next = object.numbers.next;
    Ok(Step {
        answer: Ok(Answer::Found(version, next)),
        effects,
        object: written_on(object, version, content),
    })
}

// Nothing was found: the object counts 0, and the next number, used up by that, is its bar.
fn settle_none(view: View<'_>, object: &Object) -> Result<Step, AllocError>
    requires { object.now.numbers.next < 2 ^ 63 }
    ensures { IfOk result (λ step. outcome_of step ≡ settling_on (state_of object.now) (readings_of view.entry.entries.now) None) }
{
    let numbers = object.numbers.used();
    let number = numbers.file;
    let bar = object.numbers.next;
    let effects = vec![in view.heap; Effect::Replace { number, bar }]?;
    Ok(Step {
        answer: Ok(Answer::Nothing),
        effects,
        object: Object {
            known: Known::Counts(0),
            bar,
            numbers,
        },
    })
}
