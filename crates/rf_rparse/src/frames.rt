//! What waits while a part of a formula is read.
ghost use Rattle.std.specs.Prelude.{◌≡◌, [], ◌∷◌, IfOk, OnOk};
ghost use Rattle.rf_rparse.specs.Frames as spec;

use crate::heads::Head;
use rf_rtree::RForm;
use rf_text::{Boxed, List, Memory};
use std::alloc::Global;
use std::marker::Model;

#[derive(Drop)]
pub enum Frame {
    Not,
    /// `(`
    Paren,
    /// `all ..: (`, or `some ..: (` where the flag isn't set.
    Quant(bool, Head),
    /// The left side of `and`, of `or`, of `implies`.
    And(Boxed<RForm>),
    Or(Boxed<RForm>),
    Implies(Boxed<RForm>),
}

/// Frames that contracts see as a list, the innermost first.
#[derive(Drop)]
pub struct Stack {
    frames: List<Frame>,
}

impl Model for Stack {
    ghost use Rattle.std.specs.Prelude.{List as Items, reverse};
    ghost use Rattle.rf_rparse.specs.declared.frames.Frame.{Frame as Waiting};
    ghost use Rattle.std.specs.Coded.{codes};
    ghost use Rattle.rf_rparse.specs.contracts.frames.Frame as frame;

    ghost Value = { Items Waiting };

    ghost coded = { Prim.hlevel (codes, frame.the_row.coded) };

    ghost view = { λ stack. reverse stack.frames };
}

impl Stack {
    pub fn new(alloc: Global) -> Stack
        ensures { result ≡ [] }
    {
        Stack {
            frames: List::new(alloc),
        }
    }

    pub fn push(&mut self, frame: Frame) -> Result<(), Memory>
        ensures { OnOk result (self.new ≡ frame ∷ self.old) }
    {
        self.frames.push(frame)?;
        Ok(())
    }

    /// Takes a `not` off the top.
    pub fn take_not(&mut self) -> bool
        ensures { (result, self.new) ≡ spec.take_not self.old }
    {
        match self.frames.as_slice() {
            [.., Frame::Not] => {
                let _not = self.frames.pop();
                true
            }
            _ => false,
        }
    }

    /// Takes the left side of an `and` off the top.
    pub fn take_and(&mut self) -> Result<Option<Boxed<RForm>>, Memory>
        ensures { IfOk result (λ left. (left, self.new) ≡ spec.take_and self.old) }
    {
        match self.frames.pop() {
            Some(Frame::And(left)) => Ok(Some(left)),
            Some(frame) => {
                self.frames.push(frame)?;
                Ok(None)
            }
            None => Ok(None),
        }
    }

    pub fn take_or(&mut self) -> Result<Option<Boxed<RForm>>, Memory>
        ensures { IfOk result (λ left. (left, self.new) ≡ spec.take_or self.old) }
    {
        match self.frames.pop() {
            Some(Frame::Or(left)) => Ok(Some(left)),
            Some(frame) => {
                self.frames.push(frame)?;
                Ok(None)
            }
            None => Ok(None),
        }
    }

    pub fn take_implies(&mut self) -> Result<Option<Boxed<RForm>>, Memory>
        ensures { IfOk result (λ left. (left, self.new) ≡ spec.take_implies self.old) }
    {
        match self.frames.pop() {
            Some(Frame::Implies(left)) => Ok(Some(left)),
            Some(frame) => {
                self.frames.push(frame)?;
                Ok(None)
            }
            None => Ok(None),
        }
    }

    pub fn pop(&mut self) -> Option<Frame>
        ensures { (result, self.new) ≡ spec.popped self.old }
    {
        self.frames.pop()
    }
}
