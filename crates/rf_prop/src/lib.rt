//! Closing: the places with which a constraint is false are taken away, one by one, until none is left.
#![tactic(auto)]

mod closing;
mod filling;
mod finders;
mod nets;
mod propagators;
mod steps;
mod turns;
mod wiring;

pub use closing::{close, close_in};
pub use filling::are_filled;
pub use nets::Net;
pub use propagators::{Plain, Propagator};
pub use steps::{Outcome, Step, Turn};
pub use turns::turn;
