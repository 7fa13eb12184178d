ghost use Rattle.std.specs.Prelude.{IsTrue, is_none};
ghost use Rattle.rf_rtree.specs.Accesses.{has_access_words};
ghost use Rattle.rf_rtree.specs.Programs.{first_fault};

use crate::{Lang, RuleProg};

/// A program without a kind fault in its language, with access words of the four alone.
#[derive(Drop)]
pub struct Checked {
    pub prog: RuleProg,
    pub lang: Lang,
    pub ghost well_kinded: { IsTrue (is_none (first_fault prog lang)) },
    pub ghost access_words: { IsTrue (has_access_words prog) },
}
