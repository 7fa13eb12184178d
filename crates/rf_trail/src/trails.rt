ghost use Rattle.std.specs.Prelude.{◌≡◌, ◌≤◌, ◌<◌, ◌+◌, ◌-◌, ◌*◌, ℕ, [], true, IfOk, MatchBool, length, take, vec_len};
ghost use Rattle.std.specs.List.{sum_by};
ghost use Rattle.rf_form.specs.Alive.{among};
ghost use Rattle.rf_trail.specs.Removals.{is_removed, are_once, began, AreGone};
ghost use Rattle.rf_trail.specs.Trails.{AreSets};

use crate::bitdom::BitDom;
use crate::sets::{are_sets, room_of, sets_of};
use crate::{Mark, Store};
use rf_form::{Alive, Doms};
use rf_text::Memory;
use std::alloc::Global;

/// The store over sets of bits. The removals stand in room that `new` reserves, so no other call takes memory.
#[derive(Drop)]
pub struct Trail<const W: usize> {
    doms: Vec<BitDom<W>>,
    log: Vec<(u32, u16)>,
    top: usize,
    ghost limit: { W ≤ 1024 },
    ghost inside: { top ≤ vec_len log },
    ghost room: { sum_by length doms.items + top ≤ vec_len log },
    ghost places: { (x v : ℕ) → is_removed (take top log.items) x v ≡ true →
        (x < vec_len doms) × (v < 64 * W) },
    ghost gone: { AreGone (among doms.items) (take top log.items) },
    ghost once: { are_once (take top log.items) ≡ true },
}

impl<const W: usize> Trail<W> {
    /// Whether `new` may be called: the places of each domain are distinct, and below 64 * W.
    pub fn takes(d: &Doms) -> bool
        requires { W ≤ 1024 }
        ensures { MatchBool result
            (AreSets (64 * W) d.now.alive) (AreSets (64 * W) d.now.alive → ⊥) }
    {
        are_sets::<W>(d.alive.as_slice())
    }

    /// Room for all removals is reserved here.
    pub fn new(alloc: Global, d: &Doms) -> Result<Trail<W>, Memory>
        requires limit { W ≤ 1024 }
        requires sets { AreSets (64 * W) d.now.alive }
        ensures family { IfOk result
            (λ trail. ⟦<Trail<W> as Alive>⟧.family trail ≡ among d.now.alive) }
        ensures first { IfOk result
            (λ trail. ⟦<Trail<W> as Store>⟧.first trail ≡ among d.now.alive) }
        ensures removed { IfOk result (λ trail. ⟦<Trail<W> as Store>⟧.removed trail ≡ []) }
    {
        let doms = sets_of(alloc, d.alive.as_slice())?;
        let room = room_of(d.alive.as_slice())?;
        let log = vec![in alloc; (0, 0); room]?;
        Ok(Trail { doms, log, top: 0 })
    }

    /// Takes the last removal back.
    fn put_back(&mut self)
        requires { 0 < self.old.top }
        ensures log { self.new.log.items ≡ self.old.log.items }
        ensures top { self.new.top + 1 ≡ self.old.top }
        ensures first { began (among self.new.doms.items) (take self.new.top self.new.log.items)
            ≡ began (among self.old.doms.items) (take self.old.top self.old.log.items) }
    {
        let top = self.top - 1;
        let (x, v) = self.log[top];
        self.doms[x as usize].put(v);
        self.top = top;
    }
}

impl<const W: usize> Alive for Trail<W> {
    ghost use Rattle.rf_form.specs.Alive.{among};

    ghost family = { λ trail. among trail.doms.items };

    fn has(&self, x: u32, v: u16) -> bool {
        let x = x as usize;
        if x < self.doms.len() {
            self.doms[x].has(v)
        } else {
            false
        }
    }

    fn size(&self, x: u32) -> u32 {
        let x = x as usize;
        if x < self.doms.len() {
            self.doms[x].count()
        } else {
            0
        }
    }
}

impl<const W: usize> Store for Trail<W> {
    ghost use Rattle.std.specs.Prelude.{take};
    ghost use Rattle.rf_form.specs.Alive.{among};
    ghost use Rattle.rf_trail.specs.Removals.{began};
    ghost use Rattle.rf_trail.specs.Removals.{left_began};

    ghost first = { λ trail. began (among trail.doms.items) (take trail.top trail.log.items) };

    ghost removed = { λ trail. take trail.top trail.log.items };

    ghost left_is = { λ trail.
        left_began (among trail.doms.items) (take trail.top trail.log.items) trail.gone };

    fn remove(&mut self, x: u32, v: u16) {
        let dom = &mut self.doms[x as usize];
        dom.shape();
        dom.take(v);
        self.log[self.top] = (x, v);
        self.top += 1;
    }

    fn mark(&self) -> Mark {
        Mark {
            at: self.top as u64,
        }
    }

    fn back(&mut self, mark: Mark) {
        while self.top as u64 > mark.at {
            self.put_back();
        }
    }
}
