ghost use Rattle.std.specs.Prelude.{◌≡◌, map};
ghost use Rattle.rf_rtree.specs.Tables.{row_shown, KINDS, PROPERTIES, QUERIES};

/// A word of the rule language, with kinds.
#[derive(Clone, Copy)]
pub struct Row {
    pub name: &'static [u8],
    pub kinds: &'static [&'static [u8]],
}

/// The kinds, each with the kinds that are part of it beside itself.
#[rattlefmt::skip]
static KIND_ROWS: [Row; 9] = [
    Row { name: b"type", kinds: &[] },
    Row { name: b"field", kinds: &[] },
    Row { name: b"method", kinds: &[] },
    Row { name: b"ctor", kinds: &[] },
    Row { name: b"local", kinds: &[] },
    Row { name: b"ref", kinds: &[] },
    Row { name: b"unit", kinds: &[] },
    Row { name: b"member", kinds: &[b"field", b"method"] },
    Row { name: b"decl", kinds: &[b"type", b"field", b"method", b"ctor", b"local", b"member"] },
];

/// The properties, each with the kinds that have it: where there are several, the first of `decl`, `type`, `member` and
/// `ref` is told as wanted, so it stands first.
#[rattlefmt::skip]
static PROPERTY_ROWS: [Row; 5] = [
    Row { name: b"name", kinds: &[b"decl", b"ref"] },
    Row { name: b"access", kinds: &[b"type", b"member", b"ctor"] },
    Row { name: b"owner", kinds: &[b"member"] },
    Row { name: b"package", kinds: &[b"type"] },
    Row { name: b"written", kinds: &[b"ref"] },
];

/// The queries over the old project, each with the kinds of its arguments.
#[rattlefmt::skip]
static QUERY_ROWS: [Row; 17] = [
    Row { name: b"project", kinds: &[b"decl"] },
    Row { name: b"param", kinds: &[b"local", b"method"] },
    Row { name: b"in", kinds: &[b"local", b"method"] },
    Row { name: b"before", kinds: &[b"local", b"local"] },
    Row { name: b"declares", kinds: &[b"type", b"member"] },
    Row { name: b"direct", kinds: &[b"type", b"type"] },
    Row { name: b"sub", kinds: &[b"type", b"type"] },
    Row { name: b"over", kinds: &[b"method", b"method"] },
    Row { name: b"twin", kinds: &[b"type", b"method", b"method"] },
    Row { name: b"binds", kinds: &[b"ref", b"decl"] },
    Row { name: b"inside", kinds: &[b"ref", b"member"] },
    Row { name: b"holds", kinds: &[b"unit", b"ref"] },
    Row { name: b"unit", kinds: &[b"unit", b"type"] },
    Row { name: b"distinct", kinds: &[b"decl", b"decl"] },
    Row { name: b"static", kinds: &[b"member"] },
    Row { name: b"abstract", kinds: &[b"method"] },
    Row { name: b"interface", kinds: &[b"type"] },
];

pub fn kinds() -> &'static [Row]
    ensures { map row_shown result.now ≡ KINDS }
{
    &KIND_ROWS
}

pub fn properties() -> &'static [Row]
    ensures { map row_shown result.now ≡ PROPERTIES }
{
    &PROPERTY_ROWS
}

pub fn queries() -> &'static [Row]
    ensures { map row_shown result.now ≡ QUERIES }
{
    &QUERY_ROWS
}
