ghost use Rattle.std.specs.Prelude.{◌≡◌, map, Some, codes};
ghost use Rattle.rf_jtree.specs.declared.tokens.TokKind.TheVariants as kind;
ghost use Rattle.rf_jtree.specs.declared.words.Kw.{Kw};
ghost use Rattle.rf_jtree.specs.Tokens.{IsToken};
ghost use Rattle.rf_jtree.specs.Words.{keyword_of};
ghost use Rattle.rf_jtree.specs.Spelling.{KEYWORD_NAMES};

use crate::Kw;

// The keywords of Java that have a place in a tree (JLS 3.9).
pub const ABSTRACT: Kw = Kw(0);

pub const ASSERT: Kw = Kw(1);

pub const BOOLEAN: Kw = Kw(2);

pub const BREAK: Kw = Kw(3);

pub const BYTE: Kw = Kw(4);

pub const CASE: Kw = Kw(5);

pub const CATCH: Kw = Kw(6);

pub const CHAR: Kw = Kw(7);

pub const CLASS: Kw = Kw(8);

pub const CONTINUE: Kw = Kw(10);

pub const DEFAULT: Kw = Kw(11);

pub const DO: Kw = Kw(12);

pub const DOUBLE: Kw = Kw(13);

pub const ELSE: Kw = Kw(14);

pub const EXTENDS: Kw = Kw(16);

pub const FINAL: Kw = Kw(17);

pub const FINALLY: Kw = Kw(18);

pub const FLOAT: Kw = Kw(19);

pub const FOR: Kw = Kw(20);

pub const IF: Kw = Kw(22);

pub const IMPLEMENTS: Kw = Kw(23);

pub const IMPORT: Kw = Kw(24);

pub const INSTANCEOF: Kw = Kw(25);

pub const INT: Kw = Kw(26);

pub const INTERFACE: Kw = Kw(27);

pub const LONG: Kw = Kw(28);

pub const NATIVE: Kw = Kw(29);

pub const NEW: Kw = Kw(30);

pub const PACKAGE: Kw = Kw(31);

pub const PRIVATE: Kw = Kw(32);

pub const PROTECTED: Kw = Kw(33);

pub const PUBLIC: Kw = Kw(34);

pub const RETURN: Kw = Kw(35);

pub const SHORT: Kw = Kw(36);

pub const STATIC: Kw = Kw(37);

pub const STRICTFP: Kw = Kw(38);

pub const SUPER: Kw = Kw(39);

pub const SWITCH: Kw = Kw(40);

pub const SYNCHRONIZED: Kw = Kw(41);

pub const THIS: Kw = Kw(42);

pub const THROW: Kw = Kw(43);

pub const THROWS: Kw = Kw(44);

pub const TRANSIENT: Kw = Kw(45);

pub const TRY: Kw = Kw(46);

pub const VOID: Kw = Kw(47);

pub const VOLATILE: Kw = Kw(48);

pub const WHILE: Kw = Kw(49);

/// The primitive types (JLS 4.2).
pub const PRIMITIVES: [Kw; 8] = [BOOLEAN, BYTE, SHORT, INT, LONG, CHAR, FLOAT, DOUBLE];

/// The modifiers that are words (JLS 8.1.1, 8.3.1, 8.4.3).
pub const MODIFIERS: [Kw; 11] = [
    PUBLIC,
    PROTECTED,
    PRIVATE,
    STATIC,
    FINAL,
    ABSTRACT,
    NATIVE,
    SYNCHRONIZED,
    TRANSIENT,
    VOLATILE,
    STRICTFP,
];

/// The access modifiers (JLS 6.6).
pub const ACCESSES: [Kw; 3] = [PUBLIC, PROTECTED, PRIVATE];

/// Those with which the operand of a cast to a class or an array may begin (JLS 15.15, 15.16).
pub const OPERAND_WORDS: [Kw; 3] = [THIS, SUPER, NEW];

/// Each of the names is that of the keyword that its text spells.
pub fn keywords_are_named()
    ensures { map (λ name. keyword_of name.0) KEYWORD_NAMES ≡ map (λ name. Some name.1)
        KEYWORD_NAMES }
{}

/// A text that spells a keyword is the token of that keyword.
pub fn keywords_are_tokens(bytes: &[u8])
    ensures { (word : Kw) → keyword_of bytes.now ≡ Some word → IsToken (kind.Key word) bytes.now }
{}

/// Each of the three access words is the token of its keyword (JLS 6.6).
pub fn access_words_are_tokens()
    ensures of_private { IsToken (kind.Key PRIVATE) (codes "private") }
    ensures of_protected { IsToken (kind.Key PROTECTED) (codes "protected") }
    ensures of_public { IsToken (kind.Key PUBLIC) (codes "public") }
{}
