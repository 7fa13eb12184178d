ghost use Rattle.std.specs.Prelude.{◌≡◌, map, IfOk};
ghost use Rattle.rf_jtree.specs.ExprShown.{expr_shown, init_shown, args_shown, braces_shown, sizes_tree, super_args_tree};
ghost use Rattle.rf_jtree.specs.ExprTrees as trees;
ghost use Rattle.rf_jtree.specs.NameShown.{name_shown, base_shown, type_shown};
ghost use Rattle.rf_jmake.specs.ExprMade.{boxed_shown, boxed_init_shown, boxed_args_shown, boxed_braces_shown, exprs_found, inits_found, size_shown, super_args_found, exprs_of, inits_of};

use crate::boxes::put;
use rf_jtree::{Args, Braces, Dims, Expr, Init, Many, Name, Tok, TypeBase, TypeUse};
use rf_text::{List, Memory};
use std::alloc::Global;

// Greater parts of lesser ones. What is read stands behind pointers from the first, so that each form is one step.

/// An expression behind a pointer.
pub fn boxed(alloc: Global, expr: Expr) -> Result<Box<Expr>, Memory>
    ensures { IfOk result (λ found. boxed_shown found ≡ expr_shown expr) }
{
    Ok(Box::new(alloc, expr)?)
}

/// What a variable or an item begins with, behind a pointer.
fn boxed_init(alloc: Global, init: Init) -> Result<Box<Init>, Memory>
    ensures { IfOk result (λ found. boxed_init_shown found ≡ init_shown init) }
{
    Ok(Box::new(alloc, init)?)
}

/// Arguments behind a pointer.
fn boxed_args(alloc: Global, args: Args) -> Result<Box<Args>, Memory>
    ensures { IfOk result (λ found. boxed_args_shown found ≡ args_shown args) }
{
    Ok(Box::new(alloc, args)?)
}

/// Items in braces behind a pointer.
fn boxed_braces(alloc: Global, braces: Braces) -> Result<Box<Braces>, Memory>
    ensures { IfOk result (λ found. boxed_braces_shown found ≡ braces_shown braces) }
{
    Ok(Box::new(alloc, braces)?)
}

/// A literal (JLS 15.8.1).
pub fn literal_of(alloc: Global, tok: Tok) -> Result<Box<Expr>, Memory>
    ensures { IfOk result (λ found. boxed_shown found ≡ trees.Lit tok) }
{
    boxed(alloc, Expr::Lit(tok))
}

/// `this` (JLS 15.8.3).
pub fn this_of(alloc: Global, word: Tok) -> Result<Box<Expr>, Memory>
    ensures { IfOk result (λ found. boxed_shown found ≡ trees.This word) }
{
    boxed(alloc, Expr::This(word))
}

/// A name as an expression (JLS 6.5.6).
pub fn name_of(alloc: Global, name: Name) -> Result<Box<Expr>, Memory>
    ensures { IfOk result (λ found. boxed_shown found ≡ trees.Name (name_shown name)) }
{
    boxed(alloc, Expr::Name(name))
}

/// An expression in parentheses (JLS 15.8.5).
pub fn paren_of(
    alloc: Global,
    left: Tok,
    operand: Box<Expr>,
    right: Tok,
) -> Result<Box<Expr>, Memory>
    ensures { IfOk result (λ found. boxed_shown found ≡ trees.Paren left (boxed_shown operand)
        right) }
{
    let end = put(alloc, right)?;
    boxed(alloc, Expr::Paren(left, operand, end))
}

/// A prefix operator and its operand (JLS 15.15).
pub fn prefixed_of(alloc: Global, op: Tok, operand: Box<Expr>) -> Result<Box<Expr>, Memory>
    ensures { IfOk result (λ found. boxed_shown found ≡ trees.Unary op (boxed_shown operand)) }
{
    boxed(alloc, Expr::Unary(op, operand))
}

/// A cast (JLS 15.16).
pub fn cast_of(
    alloc: Global,
    left: Tok,
    used_type: TypeUse,
    right: Tok,
    operand: Box<Expr>,
) -> Result<Box<Expr>, Memory>
    ensures { IfOk result (λ found. boxed_shown found ≡ trees.Cast left (type_shown used_type) right
        (boxed_shown operand)) }
{
    let to = put(alloc, used_type)?;
    let end = put(alloc, right)?;
    boxed(alloc, Expr::Cast(left, to, end, operand))
}

/// An operand and `++` or `--` behind it (JLS 15.14).
pub fn postfix_of(alloc: Global, operand: Box<Expr>, op: Tok) -> Result<Box<Expr>, Memory>
    ensures { IfOk result (λ found. boxed_shown found ≡ trees.Postfix (boxed_shown operand) op) }
{
    boxed(alloc, Expr::Postfix(operand, op))
}

/// `super.x` or `super.m(..)` (JLS 15.11.2, 15.12).
pub fn super_of(
    alloc: Global,
    word: Tok,
    dot: Tok,
    id: Tok,
    args: Option<Box<Args>>,
) -> Result<Box<Expr>, Memory>
    ensures { IfOk result (λ found. boxed_shown found ≡ trees.Super word dot id
        (super_args_tree (super_args_found args))) }
{
    let first = put(alloc, word)?;
    let mark = put(alloc, dot)?;
    let member = put(alloc, id)?;
    boxed(
        alloc,
        Expr::Super {
            word: first,
            dot: mark,
            id: member,
            args,
        },
    )
}

/// A new object (JLS 15.9).
pub fn object_of(
    alloc: Global,
    word: Tok,
    class: Name,
    args: Box<Args>,
) -> Result<Box<Expr>, Memory>
    ensures { IfOk result (λ found. boxed_shown found ≡ trees.New word (name_shown class)
        (boxed_args_shown args)) }
{
    let name = put(alloc, class)?;
    boxed(alloc, Expr::New(word, name, args))
}

/// A new array of these sizes (JLS 15.10).
pub fn array_of(
    alloc: Global,
    word: Tok,
    base: TypeBase,
    sizes: List<(Tok, Expr, Tok)>,
    dims: Dims,
) -> Result<Box<Expr>, Memory>
    ensures { IfOk result (λ found. boxed_shown found ≡ trees.NewArray word (base_shown base)
        (sizes_tree (map size_shown sizes)) dims) }
{
    let first = put(alloc, word)?;
    let of = put(alloc, base)?;
    boxed(
        alloc,
        Expr::NewArray {
            word: first,
            base: of,
            sizes,
            dims,
        },
    )
}

/// A new array of these items (JLS 15.10).
pub fn filled_of(
    alloc: Global,
    word: Tok,
    base: TypeBase,
    dims: Dims,
    init: Box<Braces>,
) -> Result<Box<Expr>, Memory>
    ensures { IfOk result (λ found. boxed_shown found ≡ trees.NewInit word (base_shown base) dims
        (boxed_braces_shown init)) }
{
    let first = put(alloc, word)?;
    let of = put(alloc, base)?;
    boxed(
        alloc,
        Expr::NewInit {
            word: first,
            base: of,
            dims,
            init,
        },
    )
}

/// Arguments in parentheses (JLS 15.12).
pub fn args_of(
    alloc: Global,
    left: Tok,
    list: Option<Many<Expr>>,
    right: Tok,
) -> Result<Box<Args>, Memory>
    ensures { IfOk result (λ found. boxed_args_shown found ≡ trees.Args left
        (exprs_of (exprs_found list)) right) }
{
    boxed_args(alloc, Args { left, list, right })
}

/// Items in braces (JLS 10.6).
pub fn braces_of(
    alloc: Global,
    left: Tok,
    items: Option<Many<Init>>,
    comma: Option<Tok>,
    right: Tok,
) -> Result<Box<Braces>, Memory>
    ensures { IfOk result (λ found. boxed_braces_shown found ≡ trees.Braces left
        (inits_of (inits_found items)) comma right) }
{
    let braces = Braces {
        left,
        items,
        comma,
        right,
    };
    boxed_braces(alloc, braces)
}

/// An expression that a variable or an item begins with (JLS 8.3, 10.6).
pub fn initializer_of(alloc: Global, operand: Box<Expr>) -> Result<Box<Init>, Memory>
    ensures { IfOk result
        (λ found. boxed_init_shown found ≡ trees.Expression (boxed_shown operand)) }
{
    boxed_init(alloc, Init::Expression(operand))
}

/// Items in braces that a variable or an item begins with (JLS 10.6).
pub fn braced_of(alloc: Global, items: Box<Braces>) -> Result<Box<Init>, Memory>
    ensures { IfOk result (λ found. boxed_init_shown found ≡ trees.Braced
        (boxed_braces_shown items)) }
{
    boxed_init(alloc, Init::Braced(items))
}
