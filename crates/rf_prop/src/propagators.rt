ghost use Rattle.std.specs.Prelude.{◌≡◌, ◌<◌, ℕ, true, IfOk, length};
ghost use Rattle.rf_form.specs.Alive.{IsFit, is_among};
ghost use Rattle.rf_cons.specs.Systems.{System};
ghost use Rattle.rf_prop.specs.Cuts.{Logged};
ghost use Rattle.rf_prop.specs.Queues.{Mentions};
ghost use Rattle.rf_prop.specs.Turns.{Turned};

use crate::steps::{Step, Turn};
use crate::turns::turn;
use rf_cons::Constraints;
use rf_text::{List, Memory};
use rf_trail::Store;

/// What takes away the places with which one constraint is false.
pub trait Propagator<S: Store, C: Constraints> {
    ghost place: { Self → ℕ };

    /// It is one of that system's constraints.
    ghost serves: { Self → System → Type 0 };

    /// The number of its constraint.
    fn con(&self, all: &C) -> u64
        requires { Self.serves self.now (C.system all.now) }
        ensures { result ≡ (C.system all.now).numbers (place self.now) };

    /// After want of memory the removals so far stand.
    fn turn(&self, all: &C, store: &mut S, log: &mut List<Step>) -> Result<Turn, Memory>
        requires serves { Self.serves self.now (C.system all.now) }
        requires fit { IsFit (C.system all.now).vals (S.family store.old) }
        ensures first { S.first store.new ≡ S.first store.old }
        ensures fit { IsFit (C.system all.now).vals (S.family store.new) }
        ensures logged { Logged (C.system all.now)
            (S.family store.old) (S.removed store.old) log.old
            (S.family store.new) (S.removed store.new) log.new }
        ensures turned { IfOk result (λ turn.
            Turned (C.system all.now) (S.family store.new) (place self.now) turn) };
}

/// The constraint at that place, with its variables.
#[derive(Drop)]
pub struct Plain {
    pub place: usize,
    pub vars: List<u32>,
}

impl<S: Store, C: Constraints> Propagator<S, C> for Plain {
    ghost use Rattle.rf_prop.specs.Queues.{Serves};

    ghost place = { λ plain. plain.place };

    ghost serves = { λ plain s. Serves s plain.place plain.vars };

    fn con(&self, all: &C) -> u64 {
        all.number(self.place)
    }

    fn turn(&self, all: &C, store: &mut S, log: &mut List<Step>) -> Result<Turn, Memory> {
        turn(all, self.place, self.vars.as_slice(), store, log)
    }
}
