ghost use Rattle.std.specs.Prelude.{◌≡◌, IfOk};
ghost use Rattle.rf_jtree.specs.ExprTrees.{on_depth};
ghost use Rattle.rf_jtree.specs.ExprTrees as trees;
ghost use Rattle.rf_jtree.specs.NameShown.{name_shown, type_shown};
ghost use Rattle.rf_jmake.specs.ExprMade.{boxed_shown, boxed_args_shown};
ghost use Rattle.rf_jmake.specs.Called.{called_on};
ghost use Rattle.rf_jmake.specs.Continuations.{assigned, chosen, operated, suffixed, named_called};

use crate::boxes::put;
use crate::exprs::{boxed, name_of};
use rf_jtree::{Args, Dotted, Expr, Name, Tok, TypeUse};
use rf_text::Memory;
use std::alloc::Global;

// What stands behind an expression and takes it into a greater one; its depth is that of the greater one.

/// An operator and its right operand, behind the left one.
#[derive(Drop)]
pub struct Operation {
    pub op: Tok,
    pub operand: Box<Expr>,
}

/// `? first : other` behind a test.
#[derive(Drop)]
pub struct Choice {
    pub mark: Tok,
    pub first: Box<Expr>,
    pub colon: Tok,
    pub other: Box<Expr>,
}

/// What stands behind an operand.
#[derive(Drop)]
pub enum Continuation {
    Binary(Operation),
    Instance(Tok, Box<TypeUse>),
}

/// What stands behind a primary expression.
#[derive(Drop)]
pub enum Suffix {
    Call(Tok, Tok, Box<Args>),
    Field(Tok, Tok),
    Item(Tok, Box<Expr>, Tok),
}

/// An assignment (JLS 15.26).
pub fn assigned(
    alloc: Global,
    left: Box<Expr>,
    continuation: Operation,
) -> Result<Box<Expr>, Memory>
    ensures { IfOk result (λ found. boxed_shown found ≡ assigned (boxed_shown left) continuation) }
{
    boxed(
        alloc,
        Expr::Assign(left, continuation.op, continuation.operand),
    )
}

/// A conditional expression (JLS 15.25).
pub fn chosen(alloc: Global, test: Box<Expr>, continuation: Choice) -> Result<Box<Expr>, Memory>
    ensures { IfOk result (λ found. boxed_shown found ≡ chosen (boxed_shown test) continuation) }
{
    let mark = put(alloc, continuation.mark)?;
    let colon = put(alloc, continuation.colon)?;
    boxed(
        alloc,
        Expr::Cond(test, mark, continuation.first, colon, continuation.other),
    )
}

fn binary_of(alloc: Global, left: Box<Expr>, operation: Operation) -> Result<Box<Expr>, Memory>
    ensures { IfOk result (λ found. boxed_shown found ≡ trees.Binary (boxed_shown left) operation.op
        (boxed_shown operation.operand)) }
{
    boxed(alloc, Expr::Binary(left, operation.op, operation.operand))
}

fn instance_of(
    alloc: Global,
    operand: Box<Expr>,
    word: Tok,
    used_type: Box<TypeUse>,
) -> Result<Box<Expr>, Memory>
    ensures { IfOk result (λ found. boxed_shown found ≡ trees.Instance (boxed_shown operand) word
        (type_shown used_type.value)) }
{
    boxed(alloc, Expr::Instance(operand, word, used_type))
}

/// An operand and what stands behind it (JLS 15.17 to 15.24).
pub fn operated(
    alloc: Global,
    left: Box<Expr>,
    continuation: Continuation,
) -> Result<Box<Expr>, Memory>
    ensures { IfOk result (λ found. boxed_shown found ≡ operated (boxed_shown left) continuation) }
{
    match continuation {
        Continuation::Binary(operation) => binary_of(alloc, left, operation),
        Continuation::Instance(word, used_type) => instance_of(alloc, left, word, used_type),
    }
}

/// A method called on an expression.
fn call_on(
    alloc: Global,
    on: Box<Expr>,
    dot: Tok,
    id: Tok,
    args: Box<Args>,
) -> Result<Box<Expr>, Memory>
    ensures { IfOk result (λ found. boxed_shown found ≡ trees.Call (trees.On (boxed_shown on) dot)
        id (boxed_args_shown args)) }
{
    let front = put(alloc, (on, dot))?;
    let on = Some(front);
    boxed(alloc, Expr::Call { on, id, args })
}

/// A method called on nothing.
fn call_alone(alloc: Global, id: Tok, args: Box<Args>) -> Result<Box<Expr>, Memory>
    ensures { IfOk result (λ found. boxed_shown found ≡ trees.Call trees.NoOn id
        (boxed_args_shown args)) }
{
    boxed(alloc, Expr::Call { on: None, id, args })
}

fn field_of(alloc: Global, on: Box<Expr>, dot: Tok, id: Tok) -> Result<Box<Expr>, Memory>
    ensures { IfOk result (λ found. boxed_shown found ≡ trees.Field (boxed_shown on) dot id) }
{
    let mark = put(alloc, dot)?;
    boxed(alloc, Expr::Field(on, mark, id))
}

/// An item of an array.
fn item_of(
    alloc: Global,
    on: Box<Expr>,
    left: Tok,
    place: Box<Expr>,
    right: Tok,
) -> Result<Box<Expr>, Memory>
    ensures { IfOk result (λ found. boxed_shown found ≡ trees.Index (boxed_shown on) left
        (boxed_shown place) right) }
{
    let end = put(alloc, right)?;
    boxed(alloc, Expr::Index(on, left, place, end))
}

/// A primary expression and what stands behind it (JLS 15.11 to 15.13).
pub fn suffixed(alloc: Global, on: Box<Expr>, suffix: Suffix) -> Result<Box<Expr>, Memory>
    ensures { IfOk result (λ found. boxed_shown found ≡ suffixed (boxed_shown on) suffix) }
{
    match suffix {
        Suffix::Call(dot, id, args) => call_on(alloc, on, dot, id, args),
        Suffix::Field(dot, id) => field_of(alloc, on, dot, id),
        Suffix::Item(left, index, right) => item_of(alloc, on, left, index, right),
    }
}

/// How deep what a method of this name is called on is.
#[tactic(auto, unfolding(crate::specs::Called::called_on))]
pub fn depth_called_on(name: &Name) -> usize
    ensures { result ≡ on_depth (called_on (name_shown name.now).ids.first
        (name_shown name.now).ids.rest) }
{
    match name.ids.rest.as_slice() {
        [] => 0,
        [_, ..] => 1,
    }
}

/// A call whose method is the last identifier of the name.
#[tactic(auto, using(crate::proofs::CalledLemmas::called))]
pub fn named_called(alloc: Global, name: Name, args: Box<Args>) -> Result<Box<Expr>, Memory>
    ensures { IfOk result (λ found. boxed_shown found ≡ named_called (name_shown name) args) }
{
    let Dotted { first, mut rest } = name.ids;
    match rest.pop() {
        None => call_alone(alloc, first, args),
        Some((dot, id)) => {
            let ids = Dotted { first, rest };
            let on = name_of(alloc, Name { ids })?;
            call_on(alloc, on, dot, id, args)
        }
    }
}
