ghost use Rattle.std.specs.Prelude.{◌≡◌};
ghost use Rattle.rf_form.specs.Truths.{row};

use rf_text::List;

/// The variables of each constraint, and the constraints that each variable wakes.
#[derive(Drop)]
pub struct Net {
    pub vars: List<List<u32>>,
    pub watchers: List<List<u32>>,
}

/// The row at that place. Behind the last there is an empty one.
#[tactic(auto, using(std::proofs::lemmas::List::get_or_default))]
pub fn row_of(rows: &List<List<u32>>, at: usize) -> &[u32]
    ensures { result.now ≡ row rows.now at }
{
    if at < rows.len() {
        rows.as_slice()[at].as_slice()
    } else {
        &[]
    }
}
