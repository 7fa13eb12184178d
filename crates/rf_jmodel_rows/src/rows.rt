//! Two projects, with their elements and references as the Java specification has them.

use crate::files::project_of;
use crate::lists::{Asked, basic_type, listed, names_of};
use std::process::Abort;
use std::test::Fail;

/// What is asked of a project, and the answer: `id token file.token` for each, with `|` between two of them.
type Case = (Asked, &'static [u8]);

/// `java.lang.Object`: its constructor invokes none of a superclass (JLS 8.8.7).
const OBJECT: &'static [u8] =
    b"package java.lang; public class Object { public Object() { } public native int hashCode(); }";

/// `java.lang.String`, with a default constructor.
const STRING: &'static [u8] = b"package java.lang; public final class String { }";

const CLASS: &'static [u8] =
    b"package p; import q.B; class A extends B { int x, y = x; void m(int a) { { int b = a; } } }";

const SUPERCLASS: &'static [u8] = b"package q; public class B { protected int f; public B() { }
    public B(int n) { this(); f = n; } }";

/// Two classes in packages.
const CLASSES: [Case; 7] = [
    (Asked::Types, b"0 A 0.9|1 B 1.5|2 Object 2.7|3 String 3.8"),
    (Asked::Fields, b"0 x 0.14|1 y 0.16|2 f 1.9"),
    (Asked::Methods, b"0 m 0.21|1 hashCode 2.18"),
    (
        Asked::Ctors,
        b"0 { 0.12|1 B 1.12|2 B 1.18|3 Object 2.10|4 { 3.9",
    ),
    (Asked::Locals, b"0 a 0.24|1 b 0.29|2 n 1.21"),
    (
        Asked::Nodes,
        b"0 { 0.12|1 x 0.14|2 m 0.21|3 f 1.9|4 B 1.12|5 B 1.18|6 Object 2.10|7 hashCode 2.18|8 { 3.9",
    ),
    (
        Asked::References,
        b"0 B 0.6|1 B 0.11|2 { 0.12|3 x 0.18|4 a 0.31|5 B 1.12|6 { 1.15|7 B 1.18|8 ) 1.26|9 f 1.28|10 n 1.30|11 Object 2.10|12 { 3.9",
    ),
];

const INTERFACE: &'static [u8] = b"interface I { int N = 1, M = 2; void f(final int a, int b); }";

const UNNAMED: &'static [u8] = b"class C { String[] t; static { int k; } C() { super();
    for (String s : t) { int i; } try { } catch (Error e) { } } }";

/// An interface and a class in no package: an interface has no default constructor (JLS 8.8.9), and `super();` is written.
const IN_NO_PACKAGE: [Case; 7] = [
    (Asked::Types, b"0 I 0.1|1 C 1.1|2 Object 2.7|3 String 3.8"),
    (Asked::Fields, b"0 N 0.4|1 M 0.8|2 t 1.6"),
    (Asked::Methods, b"0 f 0.13|1 hashCode 2.18"),
    (Asked::Ctors, b"0 C 1.14|1 Object 2.10|2 { 3.9"),
    (
        Asked::Locals,
        b"0 a 0.17|1 b 0.20|2 k 1.11|3 s 1.25|4 i 1.31|5 e 1.40",
    ),
    (
        Asked::Nodes,
        b"0 N 0.4|1 f 0.13|2 t 1.6|3 C 1.14|4 Object 2.10|5 hashCode 2.18|6 { 3.9",
    ),
    (
        Asked::References,
        b"0 String 1.3|1 C 1.14|2 ) 1.20|3 String 1.24|4 t 1.27|5 Error 1.39|6 Object 2.10|7 { 3.9",
    ),
];

fn check<R: Abort + AllocGlobal>(
    rt: &R,
    own: [&[u8]; 2],
    cases: &[Case],
    names: &[u8],
) -> Result<(), Fail> {
    let project = project_of(rt.alloc(), own, [OBJECT, STRING])?;
    for (asked, want) in cases {
        let said = listed(rt.alloc(), &project, *asked)?;
        assert_eq!(rt; said.as_slice(), *want, "{asked:?}");
    }
    let said = names_of(rt.alloc(), &project)?;
    assert_eq!(rt; said.as_slice(), names);
    assert_eq!(rt; basic_type(rt.alloc(), &project, b"Object")?, Some(2));
    assert_eq!(rt; basic_type(rt.alloc(), &project, b"String")?, Some(3));
    assert_eq!(rt; basic_type(rt.alloc(), &project, b"A")?, None);
    Ok(())
}

#[test]
fn classes_in_packages(rt: HostRuntime) -> Result<(), Fail> {
    let names = b"p|q|B|A|x|y|m|a|b|f|n|java.lang|java|lang|Object|hashCode|String|";
    check(&rt, [CLASS, SUPERCLASS], &CLASSES, names)
}

#[test]
fn types_in_no_package(rt: HostRuntime) -> Result<(), Fail> {
    let names = b"|I|N|M|f|a|b|C|String|t|k|s|i|Error|e|java.lang|java|lang|Object|hashCode|";
    check(&rt, [INTERFACE, UNNAMED], &IN_NO_PACKAGE, names)
}
