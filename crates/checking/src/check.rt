// The check of a draft against a host.
ghost use Rattle.std.specs.Prelude.{◌≡◌};
ghost use Rattle.model.specs.Config.{empty};
ghost use Rattle.checking.specs.Passing.{RefusedRightly};
ghost use Rattle.checking.specs.Checking.{CheckedUnless, TellsEmpty, checked, empty_judged, is_empty};

use crate::judge::{judge_length, replay};
use crate::refusal::CheckRefusal;
use crate::stages::{CheckedPlan, Draft};
use hosts::survey::Survey;

// Whether nothing stands.
pub fn is_empty<S: Survey>(survey: &S) -> bool
    ensures value { result ≡ is_empty (S.situation survey.now) }
    ensures law { TellsEmpty (S.situation survey.now) result }
{
    survey.instances() == 0 && survey.bindings() == 0
}

// Refused where something stands.
fn judge_empty<S: Survey>(survey: &S) -> Result<(), CheckRefusal>
    ensures { result ≡ empty_judged (S.situation survey.now) }
{
    if !is_empty(survey) {
        return Err(CheckRefusal::NotEmpty);
    }
    Ok(())
}

// Judges the draft: its number of lines, then that nothing stands in the host, then its lines in the host's universe.
// This is the work of `check`, apart from what it means, so that it is proved with no proof file.
fn judge_draft<'a, S: Survey>(draft: Draft<'a>, host: &S) -> Result<CheckedPlan<'a>, CheckRefusal>
    ensures { result ≡ checked (S.situation host.now) draft.entry }
{
    judge_length(draft.lines)?;
    judge_empty(host)?;
    replay(*host.universe(), draft.lines)?;
    Ok(CheckedPlan { lines: draft.lines })
}

// Checks the draft against a host: its lines are replayed from empty in the host's universe. The host is asked as a survey,
// so it is given no order, and neither waits nor allowances are seen.
pub fn check<'a, S: Survey>(draft: Draft<'a>, host: &S) -> Result<CheckedPlan<'a>, CheckRefusal>
    ensures answer { result ≡ checked (S.situation host.now) draft.entry }
    ensures law { CheckedUnless (S.situation host.now) draft.entry result }
    ensures refused { RefusedRightly ((S.situation host.now).config ≡ empty → ⊥) (S.situation host.now).universe draft.entry.lines.now result }
{
    judge_draft(draft, host)
}
