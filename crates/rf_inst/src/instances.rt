ghost use Rattle.rf_inst.specs.Insts.{IsInst};

use crate::Con;
use rf_form::Vals;
use rf_text::List;

/// Constraints over properties and Booleans: the first `props` variables are the properties.
#[derive(Drop)]
pub struct Inst {
    pub vals: Vals,
    pub props: u32,
    pub cons: List<Con>,
    pub ghost well_formed: { IsInst vals props cons },
}
