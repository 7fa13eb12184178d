ghost use Rattle.std.specs.Prelude.{◌≡◌};
ghost use Rattle.rf_rtree.specs.Compared as spec;
ghost use Rattle.rf_kind.specs.Found.{told_by};
ghost use Rattle.rf_kind.specs.Scopes.{levels};

use crate::faults::{Fault, Said};
use crate::scope::Scope;
use crate::terms::{term_fault, term_line, term_sort};
use rf_rtree::{Comp, RTerm};

fn is_text(sort: &[u8]) -> bool
    ensures { result ≡ spec.is_text sort.now }
{
    b"text".as_slice() == sort
}

fn may_be_text(sort: &[u8]) -> bool
    ensures { result ≡ spec.may_be_text sort.now }
{
    b"name".as_slice() == sort || b"package".as_slice() == sort
}

fn agree(left: &[u8], right: &[u8]) -> bool
    ensures { result ≡ spec.agree left.now right.now }
{
    left == right || (is_text(left) && may_be_text(right)) || (is_text(right) && may_be_text(left))
}

fn order_fault<'a>(line: u32, comp: Comp, sort: &'a [u8]) -> Option<Fault<'a>>
    ensures { told_by result ≡ spec.order_fault line comp sort.now }
{
    if comp != Comp::AtMost || b"access".as_slice() == sort {
        return None;
    }
    Some(Fault {
        line,
        found: Said::Text(sort),
        wanted: Said::Text(b"access"),
    })
}

fn sorts_fault<'a>(line: u32, left: &'a [u8], comp: Comp, right: &'a [u8]) -> Option<Fault<'a>>
    ensures { told_by result ≡ spec.sorts_fault line left.now comp right.now }
{
    if is_text(left) && is_text(right) {
        return Some(Fault {
            line,
            found: Said::Text(b"text"),
            wanted: Said::Text(b"property"),
        });
    }
    if !agree(left, right) {
        return Some(Fault {
            line,
            found: Said::Text(right),
            wanted: Said::Text(left),
        });
    }
    let joint = if is_text(right) { left } else { right };
    order_fault(line, comp, joint)
}

/// The left term's fault comes first, then the right term's, then the comparison's own.
pub fn comparison_fault<'a>(
    scope: &Scope<'_, 'a>,
    left: &'a RTerm,
    comp: Comp,
    right: &'a RTerm,
) -> Option<Fault<'a>>
    ensures { told_by result ≡ spec.comparison_fault (levels scope.now) left.now comp right.now }
{
    if let Some(fault) = term_fault(scope, left) {
        return Some(fault);
    }
    if let Some(fault) = term_fault(scope, right) {
        return Some(fault);
    }
    sorts_fault(term_line(right), term_sort(left), comp, term_sort(right))
}
