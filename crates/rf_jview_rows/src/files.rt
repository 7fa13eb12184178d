use crate::mark_text::file_told;
use std::process::Abort;
use std::rt::HostRuntime;
use std::test::Fail;

/// Asserts of each pair of lines that the file in the first one has the marks in the second one, a mark a token.
fn assert_marks(rt: &(impl Abort + AllocGlobal), lines: &str) -> Result<(), Fail> {
    for line in lines.lines() {
        if let Some((text, want)) = line.split_once(" => ") {
            let found = file_told(rt.alloc(), text)?;
            assert_eq!(rt; found.as_slice(), want.as_bytes(), "{line}");
        }
    }
    Ok(())
}

// Types, fields, methods and constructors (JLS 8.1, 8.3, 8.4, 8.8, 8.8.9, 9.1).
#[test]
fn members_are_declared_at_their_identifiers(rt: HostRuntime) -> Result<(), Fail> {
    assert_marks(&rt, MEMBERS)
}

static MEMBERS: &str = "
class A { int f ; int h = f ; } => . type default . field . . field . name0 . .
interface I { void m ( ) ; } => . type . . method open2 . . .
class A { A ( ) { } } => . type . ctor open3 . super1 . .
class A { A ( int x ) { this ( ) ; } } => . type . ctor open9 . local2 . open5 . . this2 . . .
class A { @ Deprecated ( ) static int f = 1 , g [ ] = { 2 , } ; static { } { } } => . type default . . . . . . field . . . next . . . . . . . . . init1 . init1 . .
";

// Package clauses, imports and what a type extends and implements (JLS 7.4, 7.5, 8.1.4, 8.1.5, 8.4.6).
#[test]
fn names_of_types_are_references_at_their_last_identifiers(rt: HostRuntime) -> Result<(), Fail> {
    assert_marks(&rt, TYPE_NAMES)
}

static TYPE_NAMES: &str = "
package p ; import q . B ; import q . * ; class A extends q . B implements r . I , J { } => . . . . _ _ T . . . . . . . type . _ _ T . _ _ T . T default .
class A { void m ( int a , p . T b [ ] ) throws p . E , F { } } => . type default . method open14 . local2 . _ _ T local5 . . . . _ _ T . T open1 . .
class A { Object k ( ) { return new p . q . B ( new C ( ) ) ; } } => . type default T method open13 . open11 . . _ _ _ _ T . . T . new3 new7 . . .
";

// Expression names, field accesses and calls (JLS 6.5, 15.11, 15.12).
#[test]
fn expressions_refer_at_their_last_tokens(rt: HostRuntime) -> Result<(), Fail> {
    assert_marks(&rt, EXPRESSIONS)
}

static EXPRESSIONS: &str = "
class A { void m ( ) { a . b . c ( d , x . y ) ; } } => . type default . method open16 . open14 part0 . name2 . . . name0 . part0 . name2 call7 . . .
class A { int m ( ) { return ( ( B ) x . f ( ) ) . g + super . h + super . k ( 1 ) + y [ 0 ] . z ; } } => . type default . method open35 . open33 . . . T . name0 . . . call2 . . access . . . access . . . . . . call3 . name0 . . . . access . . .
";

// Local variables and their blocks (JLS 6.3, 14.2, 14.4, 14.11, 14.14, 14.20).
#[test]
fn locals_say_where_their_blocks_begin(rt: HostRuntime) -> Result<(), Fail> {
    assert_marks(&rt, LOCALS)
}

static LOCALS: &str = "
class A { void m ( ) { int x = 1 , y = x ; { int z ; } } } => . type default . method open17 . open15 . local2 . . . local6 . name0 . open4 . local2 . . . .
class A { void m ( ) { for ( int i = 0 ; i < 3 ; i ++ ) f ( i ) ; } } => . type default . method open22 . open20 open18 . . local3 . . . name0 . . . name0 . . . . name0 call3 . . .
class A { void m ( p . T [ ] a ) { for ( p . T x : a ) f ( ) ; } } => . type default . method open18 _ _ T . . local4 . open12 . . _ _ T ahead3 . name0 open4 . . call2 . . .
class A { void m ( ) { try { } catch ( final E e ) { } finally { } } } => . type default . method open17 . open15 . open1 . . . . T ahead2 . open1 . . open1 . . .
class A { int m ( int a ) { switch ( a ) { case 1 : int b ; default : return b ; } } } => . type default . method open22 . local2 . open18 . . name0 . open12 . . . . local5 . . . . name0 . . . .
class A { void m ( ) { l : while ( a ) if ( b ) x ( ) ; else do y ( ) ; while ( c ) ; int [ ] z = new int [ n ] [ ] ; z = new p . T [ ] { q } ; } } => . type default . method open51 . open49 . . . . name0 . . . name0 . . . call2 . . . . . call2 . . . name0 . . . . . local29 . . . . name0 . . . . name0 . . _ _ T . . . name0 . . . .
";
