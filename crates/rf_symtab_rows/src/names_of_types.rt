use indexmap::IndexMap;
use rf_jmodel::{Tables, TypeId, TypeRow, UnitId, UnitRow};
use rf_symtab::{Answer, type_at};
use rf_text::{List, Memory, NameId};
use std::alloc::Global;
use std::process::Abort;
use std::test::Fail;

/// A file with one public type: its package, the name of the type, the types that are imported one by one, and the packages
/// that are imported on demand.
#[derive(Clone, Copy)]
struct File {
    in_package: NameId,
    name: NameId,
    single: &'static [(NameId, TypeId)],
    demand: &'static [NameId],
    is_public: bool,
}

const P: NameId = NameId(0);

const Q: NameId = NameId(1);

const R: NameId = NameId(2);

const U: NameId = NameId(3);

const LANG: NameId = NameId(4);

const M: NameId = NameId(5);

const X: NameId = NameId(6);

const Z: NameId = NameId(7);

const OBJECT: NameId = NameId(8);

/// `import q.X;`, where the type with id 1 is `q.X`.
const IMPORTS: [(NameId, TypeId); 1] = [(X, TypeId(1))];

fn public_file(in_package: NameId, name: NameId, demand: &'static [NameId]) -> File {
    File {
        in_package,
        name,
        single: &[],
        demand,
        is_public: true,
    }
}

fn row_of(alloc: Global, file: File, at: u32) -> Result<UnitRow, Memory> {
    let mut single = IndexMap::new(alloc);
    for (name, id) in file.single {
        single.insert(*name, *id)?;
    }
    let mut demand = List::new(alloc);
    for in_package in file.demand {
        demand.push(*in_package)?;
    }
    Ok(UnitRow {
        package: file.in_package,
        own: (file.name, TypeId(at)),
        single,
        demand,
    })
}

/// The tables of these files, the types in their order. They have neither packages nor supertypes, which no name needs.
fn tables_of(alloc: Global, files: &[File]) -> Result<Tables, Memory> {
    let mut types = IndexMap::new(alloc);
    let mut units = List::new(alloc);
    let mut at: u32 = 0;
    for file in files {
        let row = TypeRow {
            id: TypeId(at),
            is_public: file.is_public,
        };
        types.insert((file.in_package, file.name), row)?;
        units.push(row_of(alloc, *file, at)?)?;
        at = at.wrapping_add(1);
    }
    Ok(Tables {
        packages: List::new(alloc),
        types,
        units,
        supers: List::new(alloc),
    })
}

/// A name in a file, and what it means there.
type Case = (u32, NameId, Answer);

fn check<R: Abort + AllocGlobal>(rt: &R, files: &[File], cases: &[Case]) -> Result<(), Fail> {
    let tables = tables_of(rt.alloc(), files)?;
    for (unit, name, want) in cases {
        assert_eq!(rt; type_at(&tables, UnitId(*unit), *name), *want);
    }
    Ok(())
}

/// `package p; public class X {}`, `package q; public class X {}` and
/// `package u; import p.*; import q.*; public class M {}`.
#[test]
fn a_name_of_two_packages_on_demand(rt: HostRuntime) -> Result<(), Fail> {
    let files = [
        public_file(P, X, &[LANG]),
        public_file(Q, X, &[LANG]),
        public_file(U, M, &[LANG, P, Q]),
    ];
    let cases = [
        (2, X, Answer::Several),
        (2, M, Answer::One(TypeId(2))),
        (2, Z, Answer::None),
        (0, X, Answer::One(TypeId(0))),
        (1, X, Answer::One(TypeId(1))),
        (1, M, Answer::None),
    ];
    check(&rt, &files, &cases)
}

/// `package p; public class X {}`, `package q; public class Z {}`, `package r; public class X {}` and
/// `package u; import p.*; import q.*; public class M {}`.
#[test]
fn a_name_of_one_package_on_demand(rt: HostRuntime) -> Result<(), Fail> {
    let files = [
        public_file(P, X, &[LANG]),
        public_file(Q, Z, &[LANG]),
        public_file(R, X, &[LANG]),
        public_file(U, M, &[LANG, P, Q]),
    ];
    let cases = [
        (3, X, Answer::One(TypeId(0))),
        (3, Z, Answer::One(TypeId(1))),
        (3, M, Answer::One(TypeId(3))),
        (2, X, Answer::One(TypeId(2))),
        (0, Z, Answer::None),
    ];
    check(&rt, &files, &cases)
}

/// `package p; public class X {}`, `package q; public class X {}`, `package p; public class M {}`,
/// `package p; import q.X; public class Z {}`, `package java.lang; public class Object {}`, and
/// `package u; import q.X; import p.*; public class X {}`.
#[test]
fn a_nearer_name_comes_first(rt: HostRuntime) -> Result<(), Fail> {
    let mut importing = public_file(P, Z, &[LANG]);
    importing.single = &IMPORTS;
    let mut own = public_file(U, X, &[LANG, P]);
    own.single = &IMPORTS;
    let files = [
        public_file(P, X, &[LANG]),
        public_file(Q, X, &[LANG]),
        public_file(P, M, &[LANG, Q]),
        importing,
        public_file(LANG, OBJECT, &[LANG]),
        own,
    ];
    let cases = [
        (2, X, Answer::One(TypeId(0))),
        (3, X, Answer::One(TypeId(1))),
        (5, X, Answer::One(TypeId(5))),
        (5, M, Answer::One(TypeId(2))),
        (0, OBJECT, Answer::One(TypeId(4))),
    ];
    check(&rt, &files, &cases)
}

/// `package p; class X {}`, `package q; public class X {}`, `package u; import p.*; import q.*; public class M {}` and
/// `package p; public class Z {}`: a type that isn't public is seen from its own package alone (JLS 6.6.1).
#[test]
fn a_type_that_is_not_public(rt: HostRuntime) -> Result<(), Fail> {
    let mut hidden = public_file(P, X, &[LANG]);
    hidden.is_public = false;
    let files = [
        hidden,
        public_file(Q, X, &[LANG]),
        public_file(U, M, &[LANG, P, Q]),
        public_file(P, Z, &[LANG]),
    ];
    let cases = [
        (2, X, Answer::One(TypeId(1))),
        (3, X, Answer::One(TypeId(0))),
    ];
    check(&rt, &files, &cases)
}
