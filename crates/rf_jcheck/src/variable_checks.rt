ghost use Rattle.std.specs.Prelude.{◌↔◌, IsTrue, IfSome, option_map};
ghost use Rattle.rf_jtree.specs.declared.tokens.Tok.{Tok};
ghost use Rattle.rf_jtree.specs.Kinds.{IsOp};
ghost use Rattle.rf_jtree.specs.NameFits.{EachFits, ManyFit};
ghost use Rattle.rf_jtree.specs.NameShown.{many_shown, mods_shown};
ghost use Rattle.rf_jtree.specs.StmtFits.{IsFinalOrAnnotation, VariableModsFit, BeginningFits, VarFits, LocalFits, FirstFits};
ghost use Rattle.rf_jtree.specs.StmtTrees.{VarTree};
ghost use Rattle.rf_jtree.specs.StmtShown.{beginning_shown, var_shown, more_vars_shown, local_shown, first_shown};

use crate::expr_checks::{exprs_fit, init_fits};
use crate::mod_checks::mods_fit;
use crate::name_checks::{dims_fit, type_fits};
use rf_jfit::{are_statement_exprs, is_final_or_annotation, is_ident, is_op};
use rf_jtree::operator_names::{ASSIGN, COMMA};
use rf_jtree::{ForFirst, Init, Local, Many, Mod, Tok, Var};
use rf_text::List;

fn are_final_and_annotations(mods: &[Mod]) -> bool
    ensures { IsTrue result ↔ EachFits IsFinalOrAnnotation (mods_shown mods.now) }
{
    match mods {
        [] => true,
        [one, more @ ..] => is_final_or_annotation(one) && are_final_and_annotations(more),
    }
}

/// Whether the modifiers of a local variable or a parameter fit.
pub(crate) fn variable_mods_fit(mods: &List<Mod>) -> bool
    ensures { IsTrue result ↔ VariableModsFit (mods_shown mods.now) }
{
    mods_fit(mods) && are_final_and_annotations(mods.as_slice())
}

fn beginning_fits(beginning: &Option<(Tok, Init)>) -> bool
    ensures { IsTrue result ↔ IfSome (option_map beginning_shown beginning.now) BeginningFits }
{
    match beginning {
        None => true,
        Some(part) => is_op(&part.0, ASSIGN) && init_fits(&part.1),
    }
}

fn var_fits(var: &Var) -> bool
    ensures { IsTrue result ↔ VarFits (var_shown var.now) }
{
    is_ident(&var.id) && dims_fit(&var.dims) && beginning_fits(&var.init)
}

fn more_vars_fit(rest: &[(Tok, Var)]) -> bool
    ensures { IsTrue result ↔ EachFits (λ (item : Tok × VarTree). IsOp COMMA item.0 × VarFits
        item.1) (more_vars_shown rest.now) }
{
    match rest {
        [] => true,
        [item, more @ ..] => is_op(&item.0, COMMA) && var_fits(&item.1) && more_vars_fit(more),
    }
}

/// Whether variables with commas between them fit.
pub(crate) fn vars_fit(vars: &Many<Var>) -> bool
    ensures { IsTrue result ↔ ManyFit VarFits COMMA (many_shown var_shown vars.now) }
{
    var_fits(&vars.first) && more_vars_fit(vars.rest.as_slice())
}

/// Whether a local declaration fits.
pub fn local_fits(local: &Local) -> bool
    ensures { IsTrue result ↔ LocalFits (local_shown local.now) }
{
    variable_mods_fit(&local.mods) && type_fits(&local.used_type) && vars_fit(&local.vars)
}

/// Whether what a basic `for` begins with fits.
pub(crate) fn first_fits(first: &ForFirst) -> bool
    ensures { IsTrue result ↔ FirstFits (first_shown first.now) }
{
    match first {
        ForFirst::Local(local) => local_fits(local),
        ForFirst::Exprs(exprs) => are_statement_exprs(exprs) && exprs_fit(exprs),
    }
}
