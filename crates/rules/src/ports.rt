// What states do with a port.
ghost use Rattle.std.specs.Prelude.{◌≡◌, ℕ, not, ◌&&◌};
ghost use Rattle.model.specs.Search.{any};
ghost use Rattle.universe.specs.Held.{universe_in};
ghost use Rattle.universe.specs.Sets.{has};
ghost use Rattle.rules.specs.Ports.{ever_has, holds_port};

use hosts::survey::Survey;
use universe::held::Universe;

// The two ends of a binding: what the provider does with the port, and what the requirer does. An enum and no closure,
// since clauses speak of the role.
#[derive(Clone, Copy)]
pub enum Role {
    Provider,
    Requirer,
}

// Whether the state of the type has the port in that role.
pub fn has_port(universe: &Universe, role: Role, kind: u32, state: u32, port: u32) -> bool
    ensures { result ≡ holds_port (universe_in universe.now) role kind state port }
{
    match role {
        Role::Provider => universe.is_provided(kind, state, port),
        Role::Requirer => universe.is_required(kind, state, port),
    }
}

// Whether some state of the type has the port in that role.
fn is_ever_in(universe: &Universe, role: Role, kind: u32, port: u32) -> bool
    ensures { result ≡ any (λ q. holds_port (universe_in universe.now) role kind q port) ((universe_in universe.now).states kind) }
{
    (0..u32::from(universe.states(kind))).any(|state| has_port(universe, role, kind, state, port))
}

// Whether some state of the type of the instance has the port in that role; not where nothing stands.
pub fn ever_has_port<S: Survey>(survey: &S, role: Role, port: u32, instance: u32) -> bool
    ensures { result ≡ ever_has (S.situation survey.now).universe role port ((S.situation survey.now).config.inst instance) }
{
    let universe = survey.universe();
    survey.at(instance).is_some_and(|pair| is_ever_in(universe, role, u32::from(pair.kind), port))
}

// How many ports there are.
pub fn ports<S: Survey>(survey: &S) -> u32
    ensures { result ≡ (S.situation survey.now).universe.ports }
{
    u32::from(survey.universe().ports())
}

// The numbers that are in the one packed set and not in the other.
#[tactic(auto, using(crate::proofs::Masks::has_without))]
pub fn without(set: u32, other: u32) -> u32
    ensures { (p : ℕ) → has 32 result p ≡ (has 32 set p && not (has 32 other p)) }
{
    set & !other
}
