ghost use Rattle.std.specs.Prelude.{◌≡◌, [], IfOk, map};
ghost use Rattle.rf_form.specs.Alive.{IsFit, among};
ghost use Rattle.rf_cons.specs.Systems.{System};
ghost use Rattle.rf_trail.specs.Trails.{AreSets};
ghost use Rattle.rf_refute.specs.Numbers.{Rises};
ghost use Rattle.rf_refute.specs.Shown.{shown, Tells};
ghost use Rattle.rf_refute.specs.Stacks.{HasRoom};

use crate::checking::check_in;
use crate::frames::Frames;
use crate::nodes::{Tree, Verdict};
use crate::rooms::room_of;
use rf_cons::Constraints;
use rf_form::{Alive, Doms};
use rf_text::Memory;
use rf_trail::{Mark, Store, Trail};
use std::alloc::Global;

/// Checks refutations of its domains. All room is reserved in `new`.
#[derive(Drop)]
pub struct Checker {
    trail: Trail<1>,
    frames: Frames,
    ghost whole: { ⟦<Trail<1> as Store>⟧.removed trail ≡ [] },
    ghost none: { frames.0 ≡ [] },
    ghost room: { HasRoom (⟦<Trail<1> as Alive>⟧.family trail) frames.1 },
}

impl Alive for Checker {
    ghost family = { λ checker. ⟦<Trail<1> as Alive>⟧.family checker.trail };

    fn has(&self, x: u32, v: u16) -> bool {
        self.trail.has(x, v)
    }

    fn size(&self, x: u32) -> u32 {
        self.trail.size(x)
    }
}

impl Checker {
    /// A checker for these domains.
    pub fn new<C: Constraints>(alloc: Global, all: &C, d: &Doms) -> Result<Checker, Memory>
        requires sets { AreSets 64 d.now.alive }
        requires fit { IsFit (C.system all.now).vals (among d.now.alive) }
        ensures { IfOk result (λ checker. ⟦<Checker as Alive>⟧.family checker ≡ among d.now.alive) }
    {
        let trail = Trail::<1>::new(alloc, d)?;
        let room = room_of(all, &trail)?;
        let frames = Frames::new(alloc, room)?;
        Ok(Checker { trail, frames })
    }

    /// Whether the tree refutes the domains, or its first bad node.
    pub fn check<C: Constraints>(&mut self, all: &C, tree: &Tree) -> Verdict
        requires rising { Rises (C.system all.now) }
        requires fit { IsFit (C.system all.now).vals (⟦<Checker as Alive>⟧.family self.old) }
        ensures same { ⟦<Checker as Alive>⟧.family self.new ≡ ⟦<Checker as Alive>⟧.family self.old }
        ensures verdict { Tells (C.system all.now)
            (⟦<Checker as Alive>⟧.family self.old) (map shown tree.now.nodes) result }
    {
        let nodes = tree.nodes.as_slice();
        let verdict = check_in(all, nodes, &mut self.trail, &mut self.frames);
        self.trail.back(Mark { at: 0 });
        self.frames.clear();
        verdict
    }
}
