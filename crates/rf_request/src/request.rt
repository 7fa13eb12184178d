ghost use Rattle.rf_request.specs.Forms.{HaveForms};

use crate::{Options, TargetLine};

/// A request, whose words have the forms of request files.
#[derive(Drop)]
pub struct Request {
    pub target: TargetLine,
    pub options: Options,
    /// How many decisions may be counted.
    pub decisions: u64,
    pub ghost forms: { ∥ HaveForms target options ∥₁ },
}
