ghost use Rattle.std.specs.Prelude.{◌≡◌, ◌<◌, [], ◌∷◌, IfOk, MatchBool, MatchOption, length};

use rf_text::Memory;
use std::alloc::Global;
use std::marker::Model;

/// Where the removals are as many as `mark`, the values of x from v on are still to be gone through.
#[derive(Clone, Copy, Debug)]
pub struct Frame {
    pub mark: u64,
    pub x: u32,
    pub v: u16,
}

/// Frames in room that is reserved once. Contracts see them from the top down, and how many there is room for.
#[derive(Drop)]
pub struct Frames {
    items: Vec<Frame>,
    count: usize,
}

impl Model for Frames {
    ghost use Rattle.std.specs.Prelude.{◌≤◌, ℕ, List, length, reverse, take};
    ghost use Rattle.rf_refute.specs.declared.frames.Frame.{Frame};

    ghost Value = { List Frame × ℕ };

    ghost view = { λ frames.
        (reverse (take frames.count frames.items.items), length frames.items.items) };

    ghost invariant = { λ frames. frames.count ≤ length frames.items.items };
}

impl Frames {
    pub fn new(alloc: Global, room: usize) -> Result<Frames, Memory>
        ensures { IfOk result (λ frames. frames ≡ ([], room)) }
    {
        let blank = Frame {
            mark: 0,
            x: 0,
            v: 0,
        };
        let items = vec![in alloc; blank; room]?;
        Ok(Frames { items, count: 0 })
    }

    pub fn is_empty(&self) -> bool
        ensures { MatchBool result (self.now.0 ≡ []) (self.now.0 ≡ [] → ⊥) }
    {
        self.count == 0
    }

    pub fn push(&mut self, frame: Frame)
        requires { length self.old.0 < self.old.1 }
        ensures { self.new ≡ (frame ∷ self.old.0, self.old.1) }
    {
        self.items[self.count] = frame;
        self.count += 1;
    }

    /// The top frame.
    pub fn pop(&mut self) -> Option<Frame>
        ensures room { self.new.1 ≡ self.old.1 }
        ensures frames { MatchOption result
            ((self.old.0 ≡ []) × (self.new.0 ≡ []))
            (λ frame. self.old.0 ≡ frame ∷ self.new.0) }
    {
        if self.count == 0 {
            return None;
        }
        self.count -= 1;
        Some(self.items[self.count])
    }

    pub fn clear(&mut self)
        ensures { self.new ≡ ([], self.old.1) }
    {
        self.count = 0;
    }
}
