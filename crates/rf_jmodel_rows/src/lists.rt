//! The elements and references of a project, in order, each with its id.

use rf_jmodel::{PlacedUnit, Project};
use rf_jtree::Unit;
use rf_junits::unit_account;
use rf_jview::{Mark, Opening};
use rf_text::{Bytes, Memory, NameId};
use std::alloc::Global;

/// What is listed.
#[derive(Clone, Copy, Debug)]
pub(crate) enum Asked {
    Types,
    Fields,
    Methods,
    Ctors,
    Locals,
    /// Declarations of fields, of a method or of a constructor.
    Nodes,
    /// References, where no expression names a package.
    References,
}

fn begins_node(mark: Mark) -> bool {
    matches!(
        mark,
        Mark::Field | Mark::Method | Mark::Ctor | Mark::DefaultCtor
    )
}

/// A reference without a word for what it refers to.
fn is_implicit(mark: Mark) -> bool {
    matches!(
        mark,
        Mark::DefaultCtor | Mark::Opens(Opening::ImplicitSuper, _)
    )
}

fn refers(mark: Mark) -> bool {
    match mark {
        Mark::TypeName | Mark::Part(_) | Mark::Name(_) | Mark::FieldAccess => true,
        Mark::Invokes(_, _) | Mark::Ctor => true,
        _ => is_implicit(mark),
    }
}

fn is_listed(asked: Asked, mark: Mark, of_object: bool) -> bool {
    match asked {
        Asked::Types => mark == Mark::Type,
        Asked::Fields => mark == Mark::Field || mark == Mark::NextField,
        Asked::Methods => mark == Mark::Method,
        Asked::Ctors => mark == Mark::Ctor || mark == Mark::DefaultCtor,
        Asked::Locals => matches!(mark, Mark::Local(_) | Mark::Ahead(_)),
        Asked::Nodes => begins_node(mark),
        Asked::References => refers(mark) && !(of_object && is_implicit(mark)),
    }
}

/// Whether the type of a file is that of `java.lang` with this name.
fn is_of_java_lang(alloc: Global, tree: &Unit, name: &[u8]) -> Result<bool, Memory> {
    let Some(clause) = &tree.package else {
        return Ok(false);
    };
    let package = clause.1.text(alloc)?;
    Ok(package.as_slice() == b"java.lang".as_slice() && tree.decl.id.text.as_slice() == name)
}

/// How many rows there are, and the rows as text: the id, the token, and its entry.
#[derive(Drop)]
struct Rows {
    count: usize,
    text: Bytes,
}

fn put_row(alloc: Global, rows: &mut Rows, unit: &PlacedUnit, at: usize) -> Result<(), Memory> {
    let Some(Some((file, token))) = unit.from.get(at) else {
        return Ok(());
    };
    let Some(tok) = unit.toks.list.get(at) else {
        return Ok(());
    };
    if rows.count > 0 {
        rows.text.push(b'|')?;
    }
    let id = rows.count;
    let front = format!(in alloc; "{id} ")?;
    rows.text.extend(front.as_bytes())?;
    rows.text.extend(tok.text.as_slice())?;
    let entry = format!(in alloc; " {file}.{token}")?;
    rows.text.extend(entry.as_bytes())?;
    rows.count = rows.count.wrapping_add(1);
    Ok(())
}

fn put_unit(alloc: Global, rows: &mut Rows, unit: &PlacedUnit, asked: Asked) -> Result<(), Memory> {
    let of_object = is_of_java_lang(alloc, &unit.tree, b"Object")?;
    let marks = unit_account(alloc, &unit.tree)?;
    for (at, mark) in marks.as_slice().iter().enumerate() {
        if is_listed(asked, *mark, of_object) {
            put_row(alloc, rows, unit, at)?;
        }
    }
    Ok(())
}

/// What is asked for, in element order, with `|` between two rows.
pub(crate) fn listed(alloc: Global, project: &Project, asked: Asked) -> Result<Bytes, Memory> {
    let mut rows = Rows {
        count: 0,
        text: Bytes::new(alloc),
    };
    for unit in project.units.as_slice() {
        put_unit(alloc, &mut rows, unit, asked)?;
    }
    let Rows {
        count: _count,
        text,
    } = rows;
    Ok(text)
}

/// The file behind the project's own ones that declares the type of `java.lang` with this name.
pub(crate) fn basic_type(
    alloc: Global,
    project: &Project,
    name: &[u8],
) -> Result<Option<usize>, Memory> {
    for (at, unit) in project.units.as_slice().iter().enumerate() {
        if at >= project.own as usize && is_of_java_lang(alloc, &unit.tree, name)? {
            return Ok(Some(at));
        }
    }
    Ok(None)
}

/// The names of a project in their order, with `|` behind each.
pub(crate) fn names_of(alloc: Global, project: &Project) -> Result<Bytes, Memory> {
    let mut said = Bytes::new(alloc);
    for at in 0..project.names.len() {
        if let Ok(place) = u32::try_from(at) {
            said.extend(project.names.text(NameId(place)))?;
            said.push(b'|')?;
        }
    }
    Ok(said)
}
