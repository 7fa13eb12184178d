ghost use Rattle.std.specs.Prelude.{◌≡◌};
ghost use Rattle.rf_form.specs.Truths.{row};

use crate::Vals;
use rf_text::List;

/// The values of a variable. A variable without a row has none.
#[tactic(auto, using(std::proofs::lemmas::List::get_or_default))]
pub fn values_of(vals: &Vals, x: u32) -> &[u32]
    ensures { result.now ≡ row vals.now x }
{
    let x = x as usize;
    if x < vals.len() {
        vals.as_slice()[x].as_slice()
    } else {
        &[]
    }
}

/// The places of a variable. A variable without a row has none.
#[tactic(auto, using(std::proofs::lemmas::List::get_or_default))]
pub fn places_of(rows: &List<List<u16>>, x: u32) -> &[u16]
    ensures { result.now ≡ row rows.now x }
{
    let x = x as usize;
    if x < rows.len() {
        rows.as_slice()[x].as_slice()
    } else {
        &[]
    }
}
