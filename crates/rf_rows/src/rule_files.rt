//! Runs for rule files.
use crate::example::{Example, check, ends, failing_sink, failing_world};
use rf_text::Memory;
use rf_world::World;
use std::alloc::Global;
use std::test::Fail;

const RULES: &[&str] = &["rules", "r.txt"];

/// Two rules as they are to be written, as the bytes of a file and as the text that is put.
const FILE: &[u8] =
    b"rule distinct\nfor p: local, q: local, m: method\nif project(p), param(p, m), param(q, m), before(p, q)\nthen p.name != q.name\nend\nrule moved\nfor p: local, m: method\nif project(p), param(p, m)\nthen p.name != old(p.name)\nend\n";

const PLAIN: &str =
    "rule distinct\nfor p: local, q: local, m: method\nif project(p), param(p, m), param(q, m), before(p, q)\nthen p.name != q.name\nend\nrule moved\nfor p: local, m: method\nif project(p), param(p, m)\nthen p.name != old(p.name)\nend\n";

const PRINTED: Example<'static> = Example {
    name: "a rule file as it is to be written is put again",
    words: RULES,
    files: &[("", "r.txt", FILE)],
    failing: &[],
    failing_puts: &[],
    status: 0,
    line: PLAIN,
    written: None,
};

const ANSWERS: &[Example<'static>] = &[
    PRINTED,
    Example {
        name: "a program of no items is put as nothing",
        files: &[("", "r.txt", b" # none\n")],
        line: "",
        ..PRINTED
    },
    Example {
        name: "parentheses that aren't needed and comments are left out",
        files: &[(
            "",
            "r.txt",
            b"rule r # why\nfor f:field then ((f.access!=public)) end",
        )],
        line: "rule r\nfor f: field\nthen f.access != public\nend\n",
        ..PRINTED
    },
    Example {
        name: "a file without a reading names the line of the first token that can't go on",
        files: &[("", "r.txt", b"rule r\nfor t: type\nthen t.name = =\nend\n")],
        status: 6,
        line: "bad rules r.txt line 3 syntax\n",
        ..PRINTED
    },
    Example {
        name: "a file that ends too early names its last line",
        files: &[("", "r.txt", b"rule r\nfor t: type\n")],
        status: 6,
        line: "bad rules r.txt line 3 syntax\n",
        ..PRINTED
    },
    Example {
        name: "a kind fault names its rule, its line, what is found and what is wanted",
        files: &[("", "r.txt", b"rule r\nfor t: type\nthen t.owner = t\nend\n")],
        status: 6,
        line: "bad rules r.txt rule r line 3 found type wanted member\n",
        ..PRINTED
    },
    Example {
        name: "a rule file that isn't there is a read fault",
        files: &[],
        status: 7,
        line: "read fault\n",
        ..PRINTED
    },
    Example {
        name: "a rule file that can't be read is a read fault",
        failing: &[0],
        status: 7,
        line: "read fault\n",
        ..PRINTED
    },
    Example {
        name: "a put that fails is told by the status",
        failing_puts: &[0],
        status: 8,
        line: "",
        ..PRINTED
    },
    Example {
        name: "the built-in rules aren't there yet",
        words: &["rules", "-"],
        files: &[("", "-", FILE)],
        status: 12,
        line: "not yet\n",
        ..PRINTED
    },
    Example {
        name: "one word alone is no command",
        words: &["rules"],
        status: 3,
        line: "bad words\n",
        ..PRINTED
    },
    Example {
        name: "a word too many is no command",
        words: &["rules", "r.txt", "r.txt"],
        status: 3,
        line: "bad words\n",
        ..PRINTED
    },
    Example {
        name: "an empty word is no command",
        words: &["rules", ""],
        status: 3,
        line: "bad words\n",
        ..PRINTED
    },
];

#[test]
fn rule_files(rt: HostRuntime) -> Result<(), Fail> {
    check(&rt, ANSWERS)
}

/// Whether the run over a rule file of so many spaces ends with this status and puts this line.
fn blanks(alloc: Global, count: usize, status: u8, line: &[u8]) -> Result<bool, Memory> {
    let mut text = Vec::new(alloc);
    text.resize(count, b' ')?;
    let mut world = failing_world(alloc, &[])?;
    if world
        .put_file(alloc, b"", b"r.txt", text.as_slice())
        .is_err()
    {
        return Err(Memory);
    }
    let mut sink = failing_sink(alloc, &[])?;
    let ends = ends(alloc, RULES, &mut world, &mut sink, status)?;
    Ok(ends && sink.bytes().as_slice() == line)
}

#[test]
fn a_rule_file_has_at_most_65536_bytes(rt: HostRuntime) -> Result<(), Fail> {
    assert!(rt; matches!(blanks(rt.alloc(), 65_536, 0, b""), Ok(true)));
    assert!(rt;
        matches!(
            blanks(rt.alloc(), 65_537, 10, b"too large text 65537\n"),
            Ok(true)
        )
    );
    Ok(())
}
