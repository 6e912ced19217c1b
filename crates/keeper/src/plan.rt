// A step is planned first, over an object that is only looked at: what it comes to, or why it is refused. Then the object is handed back.
ghost use Rattle.std.specs.Prelude.{◌≡◌, [], map};
ghost use Rattle.keeper.specs.Shown.{act_of, state_of, reply_of, outcome_of, planned_outcome, plan_outcome};
ghost use Rattle.keeper.specs.Object.{refuse as refusal_of};

use crate::object::{Answer, Effect, Object, Step};
use crate::refusal::Refusal;
use std::alloc::Global;

// What is told and done by a step that leaves the object's state as it is.
#[derive(Drop)]
pub(crate) struct Plan {
    pub(crate) answer: Answer,
    pub(crate) effects: Vec<Effect>,
}

impl Plan {
    // Something is told, and nothing done.
    pub(crate) fn told(heap: Global, answer: Answer) -> Plan
        ensures { (reply_of result.answer ≡ reply_of answer) × (map act_of result.effects.items ≡ []) }
    {
        Plan {
            answer,
            effects: Vec::new(heap),
        }
    }
}

// Nothing changes, and the caller is told why.
pub fn refuse(heap: Global, object: Object, why: Refusal) -> Step
    ensures { outcome_of result ≡ refusal_of (state_of object) why }
{
    Step {
        answer: Err(why),
        effects: Vec::new(heap),
        object,
    }
}

// The step as it was planned; where it is refused, the object as it was.
pub(crate) fn step_or_refusal(heap: Global, object: Object, planned: Result<Step, Refusal>) -> Step
    ensures { outcome_of result ≡ planned_outcome (state_of object) planned }
{
    match planned {
        Ok(step) => step,
        Err(why) => refuse(heap, object, why),
    }
}

// The same of a step that leaves the object's state.
pub(crate) fn step_keeping_state(
    heap: Global,
    object: Object,
    planned: Result<Plan, Refusal>,
) -> Step
    ensures { outcome_of result ≡ plan_outcome (state_of object) planned }
{
    match planned {
        Ok(Plan { answer, effects }) => Step {
            answer: Ok(answer),
            effects,
            object,
        },
        Err(why) => refuse(heap, object, why),
    }
}
