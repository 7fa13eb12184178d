ghost use Rattle.std.specs.Prelude.{◌≡◌, ℕ, ◌<◌, ◌≤◌, MatchBool};
ghost use Rattle.rf_form.specs.Alive.{IsFit};
ghost use Rattle.rf_form.specs.Atoms.{Says, test_of, atom_of, term_size, term_alive, number_at, joint, Hit, SomeHit, NoHit, told};

use crate::rows::values_of;
use crate::{Alive, Term, Tri, Vals};

/// What an atom compares by.
#[derive(Clone, Copy)]
pub enum Test {
    Equal,
    AtMost,
}

/// An atom, with the answer that is looked for.
#[derive(Clone, Copy)]
pub struct Atom {
    pub test: Test,
    pub left: Term,
    pub right: Term,
    pub wanted: bool,
}

fn passes(test: Test, a: u32, b: u32) -> bool
    ensures { result ≡ test_of test a b }
{
    match test {
        Test::Equal => a == b,
        Test::AtMost => a <= b,
    }
}

/// How many places the term has.
fn size_of<D: Alive>(vals: &Vals, _d: &D, term: Term) -> u32
    requires { IsFit vals.now (D.family _d.now) }
    ensures size { result ≡ term_size vals.now term }
    ensures small { result ≤ 65536 }
{
    match term {
        Term::Var(x) => values_of(vals, x).len() as u32,
        Term::Const(_) => 1,
    }
}

fn is_alive<D: Alive>(d: &D, term: Term, p: u16) -> bool
    ensures { result ≡ term_alive (D.family d.now) term p }
{
    match term {
        Term::Var(x) => d.has(x, p),
        Term::Const(_) => true,
    }
}

fn number_of(vals: &Vals, term: Term, p: u16) -> u32
    ensures { result ≡ number_at vals.now term p }
{
    match term {
        Term::Var(x) => values_of(vals, x).get(p as usize).copied().unwrap_or(0),
        Term::Const(value) => value,
    }
}

/// Whether the two terms may have these places together.
fn is_joint(s: Term, t: Term, p: u16, q: u16) -> bool
    ensures { result ≡ joint s t p q }
{
    match s {
        Term::Var(x) => match t {
            Term::Var(y) => { if x == y { p == q } else { true } }
            Term::Const(_) => true,
        },
        Term::Const(_) => true,
    }
}

/// Whether both places are alive and the test answers as wanted.
fn is_hit<D: Alive>(vals: &Vals, d: &D, atom: Atom, p: u16, q: u16) -> bool
    ensures { MatchBool result
        (Hit vals.now (D.family d.now) atom p q) (Hit vals.now (D.family d.now) atom p q → ⊥) }
{
    if !is_alive(d, atom.right, q) {
        return false;
    }
    if !is_joint(atom.left, atom.right, p, q) {
        return false;
    }
    if !is_alive(d, atom.left, p) {
        return false;
    }
    let answer = passes(
        atom.test,
        number_of(vals, atom.left, p),
        number_of(vals, atom.right, q),
    );
    if atom.wanted {
        return answer;
    }
    !answer
}

/// Whether there is such a pair with the place p.
fn row_has_hit<D: Alive>(vals: &Vals, d: &D, atom: Atom, p: u16) -> bool
    requires { IsFit vals.now (D.family d.now) }
    ensures { MatchBool result
        ((q : ℕ) × Hit vals.now (D.family d.now) atom p q)
        ((q : ℕ) → q < term_size vals.now atom.right → Hit vals.now (D.family d.now) atom p q → ⊥) }
{
    if !is_alive(d, atom.left, p) {
        return false;
    }
    let size = size_of(vals, d, atom.right);
    for q in 0..size {
        if is_hit(vals, d, atom, p, q as u16) {
            return true;
        }
    }
    false
}

/// Whether there is such a pair.
fn has_hit<D: Alive>(vals: &Vals, d: &D, atom: Atom) -> bool
    requires { IsFit vals.now (D.family d.now) }
    ensures { MatchBool result
        (SomeHit vals.now (D.family d.now) atom) (NoHit vals.now (D.family d.now) atom) }
{
    let size = size_of(vals, d, atom.left);
    for p in 0..size {
        if row_has_hit(vals, d, atom, p as u16) {
            return true;
        }
    }
    false
}

fn told_by(yes: bool, no: bool) -> Tri
    ensures { result ≡ told yes no }
{
    if yes {
        if no { Tri::Unknown } else { Tri::True }
    } else if no {
        Tri::False
    } else {
        Tri::Unknown
    }
}

/// The value of an atom. Each search ends at the first pair.
pub fn atom_value<D: Alive>(vals: &Vals, d: &D, test: Test, left: Term, right: Term) -> Tri
    requires { IsFit vals.now (D.family d.now) }
    ensures { Says vals.now (D.family d.now) (atom_of test left right) result }
{
    let yes = has_hit(
        vals,
        d,
        Atom {
            test,
            left,
            right,
            wanted: true,
        },
    );
    let no = has_hit(
        vals,
        d,
        Atom {
            test,
            left,
            right,
            wanted: false,
        },
    );
    told_by(yes, no)
}
