//! The words and operators of the Java specification beside their nearest neighbours.

use rf_jtree::{Kw, Op, every_keyword_is_found, every_operator_is_found, keyword, operator};
use std::test::Fail;

/// Words, and the place of each among the keywords.
const WORDS: &[(&[u8], Option<Kw>)] = &[
    (b"abstract", Some(Kw(0))),
    (b"assert", Some(Kw(1))),
    (b"goto", Some(Kw(21))),
    (b"strictfp", Some(Kw(38))),
    (b"while", Some(Kw(49))),
    (b"true", None),
    (b"var", None),
    (b"While", None),
    (b"whil", None),
    (b"", None),
];

#[test]
fn keywords_stand_in_alphabetical_order(rt: HostRuntime) -> Result<(), Fail> {
    for (word, place) in WORDS {
        assert!(rt; keyword(word) == *place);
    }
    assert!(rt; every_keyword_is_found());
    Ok(())
}

/// Texts, and the place of each among the operators.
const TEXTS: &[(&[u8], Option<Op>)] = &[
    (b"(", Some(Op(0))),
    (b"@", Some(Op(9))),
    (b">", Some(Op(11))),
    (b">>", Some(Op(34))),
    (b">>>", Some(Op(35))),
    (b">>>=", Some(Op(46))),
    (b">>>>", None),
    (b"->", None),
    (b"::", None),
    (b"#", None),
];

#[test]
fn operators_are_whole_texts(rt: HostRuntime) -> Result<(), Fail> {
    for (text, place) in TEXTS {
        assert!(rt; operator(text) == *place);
    }
    assert!(rt; every_operator_is_found());
    Ok(())
}
