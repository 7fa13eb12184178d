//! A program while it is read, as far as it has come.
ghost use Rattle.std.specs.Prelude.{◌≡◌, ◌↔◌, IsTrue, [], IfOk};
ghost use Rattle.rf_rparse.specs.declared.programs.Stage.TheVariants.{Top};
ghost use Rattle.rf_rparse.specs.Programs as spec;
ghost use Rattle.rf_rparse.specs.Words.{shown};

use crate::programs::Stage;
use rf_rlex::Placed;
use rf_rtree::Item;
use rf_text::{List, Memory};
use std::alloc::Global;
use std::marker::Model;

/// How far the item under way has come, and the items before it.
pub struct Course {
    stage: Stage,
    items: List<Item>,
}

// Written out, so that a caller's proof sees one call.
impl Drop for Course {
    fn drop(self) {
        let Course {
            stage: _stage,
            items: _items,
        } = self;
    }
}

impl Model for Course {
    ghost use Rattle.std.specs.Coded.{codes};
    ghost use Rattle.rf_rparse.specs.Programs.{State};
    ghost use Rattle.rf_rparse.specs.contracts.programs.Stage as waiting;
    ghost use Rattle.rf_rtree.specs.contracts.items.Item as written;

    ghost Value = { State };

    ghost coded = { Prim.hlevel (codes, waiting.the_row.coded, written.the_row.coded) };

    ghost view = { λ course. (course.stage, course.items) };
}

fn is_top(stage: &Stage) -> bool
    ensures { IsTrue result ↔ (stage.now ≡ Top) }
{
    matches!(stage, Stage::Top)
}

impl Course {
    pub fn new(alloc: Global) -> Course
        ensures { result ≡ (Top, []) }
    {
        Course {
            stage: Stage::Top,
            items: List::new(alloc),
        }
    }

    /// With one more token; `None` where it can't stand there.
    pub fn with(self, alloc: Global, tok: &Placed) -> Result<Option<Course>, Memory>
        ensures { IfOk result (λ next. next ≡ spec.step_program (shown tok.now) self.0 self.1) }
    {
        let Course { stage, mut items } = self;
        match stage.with(alloc, tok, &mut items)? {
            Some(stage) => Ok(Some(Course { stage, items })),
            None => Ok(None),
        }
    }

    /// Whether no item is under way.
    pub fn is_whole(&self) -> bool
        ensures { IsTrue result ↔ (self.now.0 ≡ Top) }
    {
        is_top(&self.stage)
    }

    pub fn into_items(self) -> List<Item>
        ensures { result ≡ self.1 }
    {
        let Course {
            stage: _stage,
            items,
        } = self;
        items
    }
}
