//! Terms and comparisons.
ghost use Rattle.std.specs.Prelude.{◌≡◌, ◌∷◌, [], ◌++◌, codes, OnOk};
ghost use Rattle.rf_rtree.specs.Plain as spec;

use rf_rtree::{Comp, RTerm, Word};
use rf_text::{Bytes, Memory};

fn print_prop(elem: &Word, prop: &Word, out: &mut Bytes) -> Result<(), Memory>
    ensures { OnOk result (out.new ≡ out.old ++ spec.prop_text elem.now prop.now) }
{
    out.extend(elem.text.as_slice())?;
    out.extend(b".")?;
    out.extend(prop.text.as_slice())?;
    Ok(())
}

fn print_old(elem: &Word, prop: &Word, out: &mut Bytes) -> Result<(), Memory>
    ensures { OnOk result (out.new ≡ out.old ++
        (codes "old(" ++ (spec.prop_text elem.now prop.now ++ codes ")"))) }
{
    out.extend(b"old(")?;
    print_prop(elem, prop, out)?;
    out.extend(b")")?;
    Ok(())
}

fn print_quoted(text: &[u8], out: &mut Bytes) -> Result<(), Memory>
    ensures { OnOk result (out.new ≡ out.old ++ (34 ∷ (text.now ++ 34 ∷ []))) }
{
    out.push(b'"')?;
    out.extend(text)?;
    out.push(b'"')?;
    Ok(())
}

fn print_term(term: &RTerm, out: &mut Bytes) -> Result<(), Memory>
    ensures { OnOk result (out.new ≡ out.old ++ spec.term_text term.now) }
{
    match term {
        RTerm::Prop { elem, prop } => print_prop(elem, prop, out)?,
        RTerm::Old { elem, prop, .. } => print_old(elem, prop, out)?,
        RTerm::Var(word) => out.extend(word.text.as_slice())?,
        RTerm::Access(word) => out.extend(word.text.as_slice())?,
        RTerm::Text(word) => print_quoted(word.text.as_slice(), out)?,
    }
    Ok(())
}

fn comp_text(comp: Comp) -> &'static [u8]
    ensures { result.now ≡ spec.comp_text comp }
{
    match comp {
        Comp::Equal => b" = ",
        Comp::Unequal => b" != ",
        Comp::AtMost => b" <= ",
    }
}

pub fn print_comparison(
    left: &RTerm,
    comp: Comp,
    right: &RTerm,
    out: &mut Bytes,
) -> Result<(), Memory>
    ensures { OnOk result (out.new ≡ out.old ++ (spec.term_text left.now ++
        (spec.comp_text comp ++ spec.term_text right.now))) }
{
    print_term(left, out)?;
    out.extend(comp_text(comp))?;
    print_term(right, out)?;
    Ok(())
}
