//! Texts, token by token, as the Java specification has them: each form beside its nearest neighbour.

use rf_jlex::{LexErr, lex};
use rf_jtree::{Tok, TokKind};
use std::alloc::Global;
use std::test::Fail;

/// A text, and its tokens as `sort text`, with `|` between two of them, or `@` and the offset of the fault.
pub(crate) type Case = (&'static [u8], &'static [u8]);

/// Integers and their nearest neighbours (JLS 3.10.1).
const INTEGERS: &[Case] = &[
    (b"0", b"int 0"),
    (b"0x", b"int 0|ident x"),
    (b"0_", b"int 0|ident _"),
    (b"00", b"int 00"),
    (b"0_7", b"int 0_7"),
    (b"07_", b"int 07|ident _"),
    (b"08", b"int 0|int 8"),
    (b"0b2", b"int 0|ident b2"),
    (b"0b1_0", b"int 0b1_0"),
    (b"0B", b"int 0|ident B"),
    (b"1__0", b"int 1__0"),
    (b"1_", b"int 1|ident _"),
    (b"1L", b"long 1L"),
    (b"0l", b"long 0l"),
    (b"0xFL", b"long 0xFL"),
    (b"0x_1", b"int 0|ident x_1"),
    (b"0X1f", b"int 0X1f"),
    (b"0xgG", b"int 0|ident xgG"),
    (b"017L", b"long 017L"),
    (b"0b1l", b"long 0b1l"),
    (b"1LL", b"long 1L|ident L"),
    (b"2147483649", b"int 2147483649"),
];

/// Floating-point literals and their nearest neighbours (JLS 3.10.2).
const FLOATS: &[Case] = &[
    (b".5f", b"float .5f"),
    (b"5.", b"double 5."),
    (b".", b"op ."),
    (b"..5", b"op .|double .5"),
    (b"1.5", b"double 1.5"),
    (b"1.5_", b"double 1.5|ident _"),
    (b"1._5", b"double 1.|ident _5"),
    (b"1e", b"int 1|ident e"),
    (b"1e+", b"int 1|ident e|op +"),
    (b"1e+1", b"double 1e+1"),
    (b"1E-9D", b"double 1E-9D"),
    (b"1e1_0", b"double 1e1_0"),
    (b"1e_1", b"int 1|ident e_1"),
    (b"09f", b"float 09f"),
    (b"08.5", b"double 08.5"),
    (b"09e1", b"double 09e1"),
    (b"1d", b"double 1d"),
    (b"0F", b"float 0F"),
    (b"1_0.0_1e1", b"double 1_0.0_1e1"),
    (b"0x1p3", b"int 0x1|ident p3"),
    (b"1.foo", b"float 1.f|ident oo"),
    (b"1.e5", b"double 1.e5"),
    (b"1.d", b"double 1.d"),
    (b"1.x", b"double 1.|ident x"),
    (b"1fL", b"float 1f|ident L"),
];

/// Character literals and what is none (JLS 3.10.4).
const CHARACTERS: &[Case] = &[
    (b"'a'", b"char 'a'"),
    (b"'ab'", b"@0"),
    (b"''", b"@0"),
    (b"'''", b"@0"),
    (b"'", b"@0"),
    (b"'a", b"@0"),
    (b"'\\'", b"@0"),
    (b"'\\''", b"char '\\''"),
    (b"'\"'", b"char '\"'"),
    (b"'\\u0041'", b"char '\\u0041'"),
    (b"'\\u000a'", b"@0"),
    (b"'\\u000A'", b"@0"),
    (b"'\\u000d'", b"@0"),
    (b"'\\u005c'", b"@0"),
    (b"'\\u0027'", b"@0"),
    (b"'\\uD800'", b"char '\\uD800'"),
    (b"'\\u004'", b"@0"),
    (b"'\\7'", b"char '\\7'"),
    (b"'\\377'", b"char '\\377'"),
    (b"'\\400'", b"@0"),
    (b"'\\8'", b"@0"),
    (b"'\xc3\xa9'", b"char '\xc3\xa9'"),
    (b"'\xef\xbf\xbf'", b"char '\xef\xbf\xbf'"),
    (b"'\xf0\x90\x80\x80'", b"@0"),
    (b"'\xff'", b"@0"),
    (b"'\n'", b"@0"),
    (b"x'\x09'", b"ident x|char '\x09'"),
];

/// String literals and what is none (JLS 3.10.5, 3.10.6).
const STRINGS: &[Case] = &[
    (b"\"\"", b"str \"\""),
    (b"\"a\\tb\"", b"str \"a\\tb\""),
    (b"\"\\\"\"", b"str \"\\\"\""),
    (b"\"'\"", b"str \"'\""),
    (b"\"", b"@0"),
    (b"\"a", b"@0"),
    (b"\"\\\"", b"@0"),
    (b"\"\\\\\"", b"str \"\\\\\""),
    (b"\"\\8\"", b"@0"),
    (b"\"\\377\"", b"str \"\\377\""),
    (b"\"\\400\"", b"str \"\\400\""),
    (b"\"\\0\"", b"str \"\\0\""),
    (b"\"\\u0022\"", b"@0"),
    (b"\"\\u0027\"", b"@0"),
    (b"\"\\uuu0041\"", b"str \"\\uuu0041\""),
    (b"\"\\u00zz\"", b"@0"),
    (b"\"a\nb\"", b"@0"),
    (b"\"a\rb\"", b"@0"),
    (
        b"\"\xc3\xa9\xf0\x9f\x98\x80\"",
        b"str \"\xc3\xa9\xf0\x9f\x98\x80\"",
    ),
    (b"\"\xff\"", b"@0"),
    (b"\"\xed\xa0\x80\"", b"@0"),
    (b"\"//\"", b"str \"//\""),
    (b"x \"a\" \"", b"@6"),
];

/// Comments and white space (JLS 3.6, 3.7).
const COMMENTS: &[Case] = &[
    (b"a//", b"ident a"),
    (b"a//b\r\nc", b"ident a|ident c"),
    (b"//a\rb", b"ident b"),
    (b"/**/", b""),
    (b"/*/", b"@0"),
    (b"/* * /", b"@0"),
    (b"/*", b"@0"),
    (b"/***/a", b"ident a"),
    (b"/* // */a", b"ident a"),
    (b"// /* x", b""),
    (b"/*a*/*/", b"op *|op /"),
    (b"/* \\\\u000a */", b""),
    (b"/* \\u000a */", b"@0"),
    (b"/* \\u002a/ */", b"@0"),
    (b"/* \\u002F */", b"@0"),
    (b"/* \\\\\\u000a */", b"@0"),
    (b"/* \\u0041 \\uD800 */", b""),
    (b"// \\u", b"@0"),
    (b"a // \\u000d", b"@2"),
    (b"/* \\u*/", b"@0"),
    (b"// \\x", b""),
    (b"/* \xc3\xa9 */", b""),
    (b"/* \xff */", b"@0"),
    (b"a//\xc3\nb", b"@1"),
    (b" \x09\x0c\r\n", b""),
    (b"a\x0bb", b"@1"),
];

/// Identifiers, keywords and literals that are words (JLS 3.8, 3.9, 3.10.3, 3.10.7).
const WORDS: &[Case] = &[
    (b"$", b"ident $"),
    (b"_", b"ident _"),
    (b"a1$", b"ident a1$"),
    (b"1a", b"int 1|ident a"),
    (b"\xc3\xa9t\xc3\xa9", b"ident \xc3\xa9t\xc3\xa9"),
    (b"\xce\xb1\xcc\x81", b"ident \xce\xb1\xcc\x81"),
    (b"\xcc\x81", b"@0"),
    (b"a\xe2\x82\xac", b"@1"),
    (b"goto", b"key goto"),
    (b"Goto", b"ident Goto"),
    (b"gotox", b"ident gotox"),
    (b"enum", b"key enum"),
    (b"true", b"true true"),
    (b"false", b"false false"),
    (b"null", b"null null"),
    (b"trues", b"ident trues"),
    (b"\\u0061", b"@0"),
    (b"a\xc3", b"@1"),
];

/// Separators and operators, and bytes that begin nothing (JLS 3.5, 3.11, 3.12).
const OPERATORS: &[Case] = &[
    (b">>>=", b"op >>>="),
    (b">> >=", b"op >>|op >="),
    (b">>>>=", b"op >>>|op >="),
    (b">>=", b"op >>="),
    (b"a---b", b"ident a|op --|op -|ident b"),
    (b"->", b"op -|op >"),
    (b"::", b"op :|op :"),
    (b"...", b"op .|op .|op ."),
    (b"/=", b"op /="),
    (b"/ /", b"op /|op /"),
    (b"&&&", b"op &&|op &"),
    (b"!==", b"op !=|op ="),
    (b"@x", b"op @|ident x"),
    (b"#", b"@0"),
    (b"a#", b"@1"),
    (b"\\", b"@0"),
    (b"`", b"@0"),
    (b"\x00", b"@0"),
    (b"\x80", b"@0"),
    (b"\xef\xbb\xbfclass", b"@0"),
    (b"class A{}\x1a", b"@9"),
    (b"class A{String s=\"\\u000a\";}", b"@17"),
    (b"class A{int f=1.#;}", b"@16"),
    (b"", b""),
];

fn sort_of(kind: TokKind) -> &'static [u8] {
    match kind {
        TokKind::Ident => b"ident",
        TokKind::Key(_) => b"key",
        TokKind::Int => b"int",
        TokKind::Long => b"long",
        TokKind::Float => b"float",
        TokKind::Double => b"double",
        TokKind::Char => b"char",
        TokKind::Str => b"str",
        TokKind::True => b"true",
        TokKind::False => b"false",
        TokKind::Null => b"null",
        TokKind::Op(_) => b"op",
    }
}

/// What stands behind the front of a text, or nothing where it has another one.
pub(crate) fn behind<'a>(text: &'a [u8], front: &[u8]) -> Option<&'a [u8]> {
    if text.len() < front.len() {
        return None;
    }
    let (first, rest) = text.split_at(front.len());
    if first == front { Some(rest) } else { None }
}

/// What stands behind the sort and the text of a token, as the tables write them.
fn behind_tok<'a>(text: &'a [u8], tok: &Tok) -> Option<&'a [u8]> {
    let text = behind(text, sort_of(tok.kind))?;
    behind(behind(text, b" ")?, tok.text.as_slice())
}

/// Whether the tokens are written so, with `|` between two of them.
fn are_toks(toks: &[Tok], want: &[u8]) -> bool {
    let mut left = want;
    let mut before: &[u8] = b"";
    for tok in toks {
        match behind(left, before) {
            Some(rest) => match behind_tok(rest, tok) {
                Some(rest) => left = rest,
                None => return false,
            },
            None => return false,
        }
        before = b"|";
    }
    left.is_empty()
}

/// Whether the offset is written so, behind `@`.
fn is_offset(offset: usize, want: &[u8]) -> bool {
    let Some(digits) = behind(want, b"@") else {
        return false;
    };
    let mut number = 0usize;
    for digit in digits {
        number = number.wrapping_mul(10).wrapping_add((*digit & 15) as usize);
    }
    !digits.is_empty() && number == offset
}

/// Whether the lexer says this of a text, written as in the tables.
fn says(alloc: Global, text: &[u8], want: &[u8]) -> bool {
    match lex(alloc, text) {
        Ok(toks) => are_toks(toks.list.as_slice(), want),
        Err(LexErr::Fault { offset }) => is_offset(offset, want),
        Err(LexErr::Memory) => false,
    }
}

/// The number of the first case of which the lexer says something else; that of all cases where there is none.
fn first_other(alloc: Global, cases: &[Case]) -> usize {
    let mut number = 0usize;
    for (text, want) in cases {
        if !says(alloc, text, want) {
            return number;
        }
        number = number.wrapping_add(1);
    }
    number
}

#[test]
fn integers_have_five_forms(rt: HostRuntime) -> Result<(), Fail> {
    assert_eq!(rt; first_other(rt.alloc(), INTEGERS), INTEGERS.len());
    Ok(())
}

#[test]
fn floating_point_literals_have_four_forms(rt: HostRuntime) -> Result<(), Fail> {
    assert_eq!(rt; first_other(rt.alloc(), FLOATS), FLOATS.len());
    Ok(())
}

#[test]
fn characters_are_one_unit_or_one_escape(rt: HostRuntime) -> Result<(), Fail> {
    assert_eq!(rt; first_other(rt.alloc(), CHARACTERS), CHARACTERS.len());
    Ok(())
}

#[test]
fn strings_end_on_their_line(rt: HostRuntime) -> Result<(), Fail> {
    assert_eq!(rt; first_other(rt.alloc(), STRINGS), STRINGS.len());
    Ok(())
}

#[test]
fn comments_end_where_their_bytes_say(rt: HostRuntime) -> Result<(), Fail> {
    assert_eq!(rt; first_other(rt.alloc(), COMMENTS), COMMENTS.len());
    Ok(())
}

#[test]
fn words_are_keywords_literals_or_identifiers(rt: HostRuntime) -> Result<(), Fail> {
    assert_eq!(rt; first_other(rt.alloc(), WORDS), WORDS.len());
    Ok(())
}

#[test]
fn operators_are_as_long_as_they_can_be(rt: HostRuntime) -> Result<(), Fail> {
    assert_eq!(rt; first_other(rt.alloc(), OPERATORS), OPERATORS.len());
    Ok(())
}
