// The offences of orders against legality, by a survey's questions. Whether an instance is a provider of any
// binding is no question of a survey, so a delete is judged where the bindings are kept.
ghost use Rattle.std.specs.Prelude.{◌≡◌};
ghost use Rattle.hosts.specs.Offences.{bind_offence_of, change_offence_of, create_offence_of, follows, lacks_end, standing, out_of_range, unbind_offence_of, unfit};

use crate::ports::{Role, ever_has_port, ports};
use hosts::refusal::Offence;
use hosts::survey::Survey;
use model::binding::Binding;

// Whether an instance stands under the number.
pub fn is_standing<S: Survey>(survey: &S, instance: u32) -> bool
    ensures { result ≡ standing (S.situation survey.now) instance }
{
    survey.at(instance).is_some()
}

// How many types there are.
fn types<S: Survey>(survey: &S) -> u32
    ensures { result ≡ (S.situation survey.now).universe.types }
{
    u32::from(survey.universe().types())
}

// Whether an end or the port of a binding is out of range.
fn is_out_of_range<S: Survey>(survey: &S, binding: Binding) -> bool
    ensures { result ≡ out_of_range (S.situation survey.now) binding.port binding.provider binding.requirer }
{
    let ports = ports(survey);
    binding.provider > 255 || binding.requirer > 255 || binding.port >= ports
}

// Whether an end of a binding does not stand.
fn does_lack_end<S: Survey>(survey: &S, binding: Binding) -> bool
    ensures { result ≡ lacks_end (S.situation survey.now) binding.provider binding.requirer }
{
    !(is_standing(survey, binding.provider) && is_standing(survey, binding.requirer))
}

// Whether the ends are one, or their types never have the port.
fn is_unfit<S: Survey>(survey: &S, binding: Binding) -> bool
    ensures { result ≡ unfit (S.situation survey.now) binding.port binding.provider binding.requirer }
{
    binding.provider == binding.requirer
        || !ever_has_port(survey, Role::Provider, binding.port, binding.provider)
        || !ever_has_port(survey, Role::Requirer, binding.port, binding.requirer)
}

// Whether the state is a successor of that of the instance.
fn does_follow<S: Survey>(survey: &S, instance: u32, state: u32) -> bool
    ensures { result ≡ follows (S.situation survey.now) instance state }
{
    survey.at(instance).is_some_and(|pair| {
        survey
            .universe()
            .is_successor(u32::from(pair.kind), u32::from(pair.state), state)
    })
}

// The first offence of a create.
pub fn create_offence<S: Survey>(survey: &S, instance: u32, kind: u32) -> Option<Offence>
    ensures { result ≡ create_offence_of (S.situation survey.now) instance kind }
{
    let types = types(survey);
    if instance > 255 || kind >= types {
        return Some(Offence::OutOfRange);
    }
    if is_standing(survey, instance) {
        return Some(Offence::Standing);
    }
    None
}

// The first offence of a bind.
pub fn bind_offence<S: Survey>(survey: &S, binding: Binding) -> Option<Offence>
    ensures { result ≡ bind_offence_of (S.situation survey.now) binding.port binding.provider binding.requirer }
{
    if is_out_of_range(survey, binding) {
        return Some(Offence::OutOfRange);
    }
    if does_lack_end(survey, binding) {
        return Some(Offence::NotStanding);
    }
    if is_unfit(survey, binding) {
        return Some(Offence::Unfit);
    }
    if survey.is_bound(binding) {
        return Some(Offence::Bound);
    }
    None
}

// The first offence of a change.
pub fn change_offence<S: Survey>(survey: &S, instance: u32, state: u32) -> Option<Offence>
    ensures { result ≡ change_offence_of (S.situation survey.now) instance state }
{
    if instance > 255 || state > 7 {
        return Some(Offence::OutOfRange);
    }
    if !is_standing(survey, instance) {
        return Some(Offence::NotStanding);
    }
    if !does_follow(survey, instance, state) {
        return Some(Offence::NoSuccessor);
    }
    None
}

// The first offence of an unbind.
pub fn unbind_offence<S: Survey>(survey: &S, binding: Binding) -> Option<Offence>
    ensures { result ≡ unbind_offence_of (S.situation survey.now) binding.port binding.provider binding.requirer }
{
    if is_out_of_range(survey, binding) {
        return Some(Offence::OutOfRange);
    }
    if does_lack_end(survey, binding) {
        return Some(Offence::NotStanding);
    }
    if !survey.is_bound(binding) {
        return Some(Offence::Unbound);
    }
    None
}
