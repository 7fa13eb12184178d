//! Constraints over three variables with three values, closing and need, as plain loops. A family
//! of domains is a number: bit `3 x + v` stands for the place v of the variable x.

/// How two variables compare.
#[derive(Clone, Copy)]
pub enum Kind {
    Same,
    Other,
    AtMost,
    Below,
}

#[derive(Clone, Copy)]
pub struct Atom {
    pub kind: Kind,
    pub x: u32,
    pub y: u32,
}

#[derive(Clone, Copy)]
pub enum Plain {
    One(Atom),
    Both(Atom, Atom),
    Either(Atom, Atom),
}

/// The need of a family, and its solution as a family of single places; 0 where there is none.
#[derive(Clone, Copy, Debug)]
pub struct Wanted {
    pub need: u64,
    pub end: u32,
}

pub(crate) fn bit(x: u32, v: u32) -> u32 {
    if x < 3 && v < 3 { 1 << (3 * x + v) } else { 0 }
}

pub(crate) fn has(family: u32, x: u32, v: u32) -> bool {
    family & bit(x, v) != 0
}

fn places(x: u32) -> u32 {
    bit(x, 0) | bit(x, 1) | bit(x, 2)
}

/// The family with x at v alone.
pub(crate) fn at(family: u32, x: u32, v: u32) -> u32 {
    (family & !places(x)) | bit(x, v)
}

/// How many places of x are alive.
pub(crate) fn size(family: u32, x: u32) -> usize {
    let mut count: usize = 0;
    for v in 0..3 {
        if has(family, x, v) {
            count = count.saturating_add(1);
        }
    }
    count
}

fn holds(kind: Kind, v: u32, w: u32) -> bool {
    match kind {
        Kind::Same => v == w,
        Kind::Other => v != w,
        Kind::AtMost => v <= w,
        Kind::Below => v < w,
    }
}

/// No pair of alive places is as the atom says.
fn is_never(atom: Atom, family: u32) -> bool {
    for v in 0..3 {
        for w in 0..3 {
            if has(family, atom.x, v) && has(family, atom.y, w) && holds(atom.kind, v, w) {
                return false;
            }
        }
    }
    true
}

pub(crate) fn is_false(constraint: Plain, family: u32) -> bool {
    match constraint {
        Plain::One(atom) => is_never(atom, family),
        Plain::Both(first, second) => is_never(first, family) || is_never(second, family),
        Plain::Either(first, second) => is_never(first, family) && is_never(second, family),
    }
}

fn some_is_false(constraints: &[Plain], family: u32) -> bool {
    for constraint in constraints {
        if is_false(*constraint, family) {
            return true;
        }
    }
    false
}

/// No constraint is false, and none is with one of the alive places alone.
fn is_closed(constraints: &[Plain], family: u32) -> bool {
    if some_is_false(constraints, family) {
        return false;
    }
    for x in 0..3 {
        for v in 0..3 {
            if has(family, x, v) && some_is_false(constraints, at(family, x, v)) {
                return false;
            }
        }
    }
    true
}

/// The union of all closed parts: those of families where each variable has a place.
fn closure(constraints: &[Plain], family: u32) -> u32 {
    let mut union = 0;
    for p in 1..8u32 {
        for q in 1..8u32 {
            for r in 1..8u32 {
                let part = p | (q << 3) | (r << 6);
                if part & family == part && is_closed(constraints, part) {
                    union |= part;
                }
            }
        }
    }
    union
}

/// The first variable with two places or more; 3 where there is none.
fn first_wide(family: u32) -> u32 {
    for x in 0..3 {
        if size(family, x) > 1 {
            return x;
        }
    }
    3
}

/// The canonical search, down to that many splits.
pub(crate) fn canon(constraints: &[Plain], family: u32, depth: u32) -> Wanted {
    let closed = closure(constraints, family);
    let x = first_wide(closed);
    if closed == 0 || x == 3 || depth == 0 {
        return Wanted {
            need: 0,
            end: closed,
        };
    }
    let mut need: u64 = 0;
    let mut taken: u64 = 0;
    for v in 0..3 {
        if has(closed, x, v) {
            let below = canon(constraints, at(closed, x, v), depth - 1);
            need = need.saturating_add(taken).saturating_add(below.need);
            taken = 1;
            if below.end != 0 {
                return Wanted {
                    need,
                    end: below.end,
                };
            }
        }
    }
    Wanted { need, end: 0 }
}

/// The least assignment, as a family, that makes all constraints true; 0 where there is none.
pub(crate) fn least(constraints: &[Plain], family: u32) -> u32 {
    for p in 0..3 {
        for q in 0..3 {
            for r in 0..3 {
                let single = bit(0, p) | bit(1, q) | bit(2, r);
                if single & family == single && !some_is_false(constraints, single) {
                    return single;
                }
            }
        }
    }
    0
}
