// A survey: a universe and what stands in it, told by questions that alter nothing.
ghost use Rattle.std.specs.Prelude.{◌≡◌};
ghost use Rattle.universe.specs.Held.{universe_in};
ghost use Rattle.hosts.specs.Survey.{Lawful, Situation, bindings_of, covers_of, instances_of};

use model::binding::Binding;
use model::pair::Pair;
use universe::held::Universe;

pub trait Survey {
    // The universe and the configuration that the survey means.
    ghost situation: { Self → Situation };

    // Nothing stands out of range, and the universe is a valid one.
    ghost lawful: { (x : Self) → Lawful (situation x) };

    // The universe.
    fn universe(&self) -> &Universe
        ensures { universe_in result.now ≡ (situation self.now).universe };

    // What stands under a number, which may be nothing.
    fn at(&self, instance: u32) -> Option<Pair>
        ensures { result ≡ (situation self.now).config.inst instance };

    // Whether the binding stands.
    fn is_bound(&self, binding: Binding) -> bool
        ensures { result ≡ (situation self.now).config.bound binding.port binding.provider binding.requirer };

    // How many instances stand.
    fn instances(&self) -> u32
        ensures { result ≡ instances_of (situation self.now) };

    // How many bindings stand.
    fn bindings(&self) -> u32
        ensures { result ≡ bindings_of (situation self.now) };

    // How many bindings cover the port of the requirer: those whose provider is in a state that provides it. It follows from
    // the questions above; it is asked for each port that an order may uncover, so a survey keeps it counted.
    fn covers(&self, port: u32, requirer: u32) -> u32
        ensures { result ≡ covers_of (situation self.now) port requirer };
}
