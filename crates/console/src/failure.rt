// Why a call gives no value: it is refused, or memory has run out.
ghost use Rattle.std.specs.Prelude.{◌≡◌, alloc_error, MatchResult};
ghost use Rattle.console.specs.Told.{ForRefused, IsMapped};
ghost use Rattle.console.specs.declared.failure.Failure.TheVariants.{Refused, Memory};

use std::alloc::{AllocError, AllocFailed};

#[derive(Debug, Drop)]
pub enum Failure<E> {
    Refused(E),
    Memory(AllocError),
}

impl<E> Failure<E> {
    // The failure, with the refusal that f makes of its own.
    pub fn map<G, F: FnOnce(E) -> G>(self, f: F) -> Failure<G>
        requires { ForRefused self (F.pre f) }
        ensures { IsMapped self (F.post f) result }
    {
        match self {
            Failure::Refused(refusal) => Failure::Refused(f(refusal)),
            Failure::Memory(error) => Failure::Memory(error),
        }
    }

    // The refusal; where memory has run out, that error.
    pub fn into_refusal(self) -> Result<E, AllocError>
        ensures { MatchResult result (λ e. self ≡ Refused e) (λ a. self ≡ Memory a) }
    {
        match self {
            Failure::Refused(refusal) => Ok(refusal),
            Failure::Memory(error) => Err(error),
        }
    }
}

impl<E> From<AllocError> for Failure<E> {
    ghost from_gives = { λ e r. r ≡ Memory e };

    fn from(error: AllocError) -> Failure<E> {
        Failure::Memory(error)
    }
}

impl<T: Drop, E> From<AllocFailed<T>> for Failure<E> {
    ghost from_gives = { λ _ r. r ≡ Memory alloc_error };

    fn from(failed: AllocFailed<T>) -> Failure<E> {
        Failure::Memory(AllocError::from(failed))
    }
}
