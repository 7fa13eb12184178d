ghost use Rattle.std.specs.Prelude.{◌≡◌, false, map, IfOk};
ghost use Rattle.rf_rtree.specs.Tables.{QUERIES, row_shown};
ghost use Rattle.rf_rtree.specs.Asks.{query_of};

use rf_rtree::{Lang, Row, queries};
use rf_text::{Bytes, List, Memory};
use std::alloc::Global;

fn texts(alloc: Global, kinds: &[&[u8]]) -> Result<List<Bytes>, Memory>
    ensures { IfOk result (λ list. list ≡ map (λ kind. kind.now) kinds.now) }
{
    let mut list = List::new(alloc);
    for kind in kinds {
        let text = Bytes::from_slice(alloc, kind)?;
        list.push(text)?;
    }
    Ok(list)
}

fn query(alloc: Global, row: &Row) -> Result<(Bytes, List<Bytes>), Memory>
    ensures { IfOk result (λ query. query ≡ query_of (row_shown row.now)) }
{
    let name = Bytes::from_slice(alloc, row.name)?;
    let kinds = texts(alloc, row.kinds)?;
    Ok((name, kinds))
}

/// The queries over a Java project, in which names that begin with `j_` aren't free.
pub fn java_lang(alloc: Global) -> Result<Lang, Memory>
    ensures { IfOk result (λ lang. (lang.queries ≡ map query_of QUERIES) × (lang.own ≡ false)) }
{
    let mut list = List::new(alloc);
    for row in queries() {
        let query = query(alloc, row)?;
        list.push(query)?;
    }
    Ok(Lang {
        queries: list,
        own: false,
    })
}
