ghost use Rattle.std.specs.Prelude.{◌≡◌, map, Some};
ghost use Rattle.rf_jtree.specs.Operators.{operator_of};
ghost use Rattle.rf_jtree.specs.Spelling.{OPERATOR_NAMES};

use crate::Op;

// The separators and operators of Java (JLS 3.11, 3.12).
pub const LEFT_PAREN: Op = Op(0);

pub const RIGHT_PAREN: Op = Op(1);

pub const LEFT_BRACE: Op = Op(2);

pub const RIGHT_BRACE: Op = Op(3);

pub const LEFT_BRACKET: Op = Op(4);

pub const RIGHT_BRACKET: Op = Op(5);

pub const SEMICOLON: Op = Op(6);

pub const COMMA: Op = Op(7);

pub const DOT: Op = Op(8);

pub const AT: Op = Op(9);

pub const ASSIGN: Op = Op(10);

pub const GREATER: Op = Op(11);

pub const LESS: Op = Op(12);

pub const NOT: Op = Op(13);

pub const COMPLEMENT: Op = Op(14);

pub const QUESTION: Op = Op(15);

pub const COLON: Op = Op(16);

pub const EQUAL: Op = Op(17);

pub const LESS_EQUAL: Op = Op(18);

pub const GREATER_EQUAL: Op = Op(19);

pub const NOT_EQUAL: Op = Op(20);

pub const AND_AND: Op = Op(21);

pub const OR_OR: Op = Op(22);

pub const INCREMENT: Op = Op(23);

pub const DECREMENT: Op = Op(24);

pub const PLUS: Op = Op(25);

pub const MINUS: Op = Op(26);

pub const TIMES: Op = Op(27);

pub const DIVIDE: Op = Op(28);

pub const AND: Op = Op(29);

pub const OR: Op = Op(30);

pub const XOR: Op = Op(31);

pub const REMAINDER: Op = Op(32);

pub const SHIFT_LEFT: Op = Op(33);

pub const SHIFT_RIGHT: Op = Op(34);

pub const SHIFT_RIGHT_UNSIGNED: Op = Op(35);

pub const ASSIGN_PLUS: Op = Op(36);

pub const ASSIGN_MINUS: Op = Op(37);

pub const ASSIGN_TIMES: Op = Op(38);

pub const ASSIGN_DIVIDE: Op = Op(39);

pub const ASSIGN_AND: Op = Op(40);

pub const ASSIGN_OR: Op = Op(41);

pub const ASSIGN_XOR: Op = Op(42);

pub const ASSIGN_REMAINDER: Op = Op(43);

pub const ASSIGN_SHIFT_LEFT: Op = Op(44);

pub const ASSIGN_SHIFT_RIGHT: Op = Op(45);

pub const ASSIGN_SHIFT_RIGHT_UNSIGNED: Op = Op(46);

/// The assignment operators (JLS 15.26).
pub const ASSIGNMENTS: [Op; 12] = [
    ASSIGN,
    ASSIGN_PLUS,
    ASSIGN_MINUS,
    ASSIGN_TIMES,
    ASSIGN_DIVIDE,
    ASSIGN_AND,
    ASSIGN_OR,
    ASSIGN_XOR,
    ASSIGN_REMAINDER,
    ASSIGN_SHIFT_LEFT,
    ASSIGN_SHIFT_RIGHT,
    ASSIGN_SHIFT_RIGHT_UNSIGNED,
];

/// The operators that stand before their operand (JLS 15.15).
pub const PREFIXES: [Op; 6] = [PLUS, MINUS, NOT, COMPLEMENT, INCREMENT, DECREMENT];

/// The operators that stand behind their operand (JLS 15.14).
pub const SUFFIXES: [Op; 2] = [INCREMENT, DECREMENT];

/// Those with which the operand of a cast to a class or an array may begin (JLS 15.15, 15.16).
pub const OPERAND_OPERATORS: [Op; 3] = [LEFT_PAREN, NOT, COMPLEMENT];

/// `==` and `!=` (JLS 15.21).
pub const EQUALITIES: [Op; 2] = [EQUAL, NOT_EQUAL];

/// The comparisons of numbers (JLS 15.20.1).
pub const COMPARISONS: [Op; 4] = [LESS, GREATER, LESS_EQUAL, GREATER_EQUAL];

/// The shifts (JLS 15.19).
pub const SHIFTS: [Op; 3] = [SHIFT_LEFT, SHIFT_RIGHT, SHIFT_RIGHT_UNSIGNED];

/// The additive operators (JLS 15.18).
pub const ADDITIVES: [Op; 2] = [PLUS, MINUS];

/// The multiplicative operators (JLS 15.17).
pub const MULTIPLICATIVES: [Op; 3] = [TIMES, DIVIDE, REMAINDER];

/// Each of the names is that of the operator that its text spells.
pub fn operators_are_named()
    ensures { map (λ name. operator_of name.0) OPERATOR_NAMES ≡ map (λ name. Some name.1)
        OPERATOR_NAMES }
{}
