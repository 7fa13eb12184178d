ghost use Rattle.std.specs.Prelude.{◌↔◌, IsTrue, IfSome, option_map};
ghost use Rattle.rf_jtree.specs.DeclFits.{StarFits, NamesPackage, ImportFits, PackageFits, UnitFits};
ghost use Rattle.rf_jtree.specs.DeclShown.{import_shown, imports_shown, package_shown, unit_shown};
ghost use Rattle.rf_jtree.specs.Kinds.{IsOp};
ghost use Rattle.rf_jtree.specs.NameFits.{EachFits};
ghost use Rattle.rf_jtree.specs.NameShown.{name_shown};

use crate::decl_checks::decl_fits;
use crate::name_checks::name_fits;
use rf_jfit::{is_key, is_op};
use rf_jtree::keyword_names::{IMPORT, PACKAGE};
use rf_jtree::operator_names::{DOT, SEMICOLON, TIMES};
use rf_jtree::{Import, Name, Tok, Unit};

fn star_fits(star: &Option<(Tok, Tok)>) -> bool
    ensures { IsTrue result ↔ IfSome star.now StarFits }
{
    match star {
        None => true,
        Some(pair) => is_op(&pair.0, DOT) && is_op(&pair.1, TIMES),
    }
}

fn names_package(name: &Name, star: &Option<(Tok, Tok)>) -> bool
    ensures { IsTrue result ↔ NamesPackage (name_shown name.now) star.now }
{
    match star {
        None => !name.ids.rest.is_empty(),
        Some(_) => true,
    }
}

fn import_fits(import: &Import) -> bool
    ensures { IsTrue result ↔ ImportFits (import_shown import.now) }
{
    is_key(&import.word, IMPORT)
        && name_fits(&import.name)
        && names_package(&import.name, &import.star)
        && star_fits(&import.star)
        && is_op(&import.semi, SEMICOLON)
}

fn imports_fit(imports: &[Import]) -> bool
    ensures { IsTrue result ↔ EachFits ImportFits (imports_shown imports.now) }
{
    match imports {
        [] => true,
        [import, more @ ..] => import_fits(import) && imports_fit(more),
    }
}

fn package_fits(clause: &Option<(Tok, Name, Tok)>) -> bool
    ensures { IsTrue result ↔ IfSome (option_map package_shown clause.now) PackageFits }
{
    match clause {
        None => true,
        Some(part) => {
            is_key(&part.0, PACKAGE) && name_fits(&part.1) && is_op(&part.2, SEMICOLON)
        }
    }
}

fn are_semis(semis: &[Tok]) -> bool
    ensures { IsTrue result ↔ EachFits (IsOp SEMICOLON) semis.now }
{
    match semis {
        [] => true,
        [semi, more @ ..] => is_op(semi, SEMICOLON) && are_semis(more),
    }
}

/// Whether the tree of a file fits. It goes as deep as the tree.
pub fn unit_fits(unit: &Unit) -> bool
    ensures { IsTrue result ↔ UnitFits (unit_shown unit.now) }
{
    package_fits(&unit.package)
        && imports_fit(unit.imports.as_slice())
        && decl_fits(&unit.decl)
        && are_semis(unit.semis.as_slice())
}
