use crate::example::{APPLY, Example, check, ends, failing_sink, failing_world, stands};
use rf_text::Memory;
use rf_world::{HonestSink, HonestWorld};
use std::alloc::Global;
use std::test::Fail;

const CLASS: &[u8] = b"class A{int f;int h=f;}";

const RENAMED: &[u8] = b"class A{int g;int h=g;}";

const TO_G: &[u8] = b"rename field A.f to g";

pub(crate) const ALONE: &[(&str, &str, &[u8])] = &[("src", "A.java", CLASS), ("", "req", TO_G)];

const RENAME: Example<'static> = Example {
    name: "a field is renamed where it is declared and where it is used",
    words: APPLY,
    files: ALONE,
    failing: &[],
    failing_puts: &[],
    status: 0,
    line: "ok 1\nname field A.f f g\n",
    written: Some(("out", "A.java", RENAMED)),
};

const ANSWERS: &[Example<'static>] = &[
    RENAME,
    Example {
        name: "the old name again changes nothing",
        files: &[
            ("src", "A.java", CLASS),
            ("", "req", b"rename field A.f to f"),
        ],
        line: "ok 0\n",
        written: Some(("out", "A.java", CLASS)),
        ..RENAME
    },
    Example {
        name: "the name of another field is refused",
        files: &[
            ("src", "A.java", b"class A{int f;int g;}"),
            ("", "req", TO_G),
        ],
        status: 1,
        line: "refused A.f A.g\n",
        written: None,
        ..RENAME
    },
    Example {
        name: "files that are no Java files don't count",
        files: &[
            ("src", "A.java", CLASS),
            ("src", "notes.txt", b"x"),
            ("src", "package-info.java", b"x"),
            ("lib", "B.java", b"x"),
            ("", "req", TO_G),
        ],
        ..RENAME
    },
];

#[test]
fn answers_of_the_first_form(rt: HostRuntime) -> Result<(), Fail> {
    check(&rt, ANSWERS)
}

const NO_COMMAND: Example<'static> = Example {
    name: "bad words",
    status: 3,
    line: "bad words\n",
    written: None,
    ..RENAME
};

const BAD_WORDS: &[Example<'static>] = &[
    Example {
        words: &[],
        ..NO_COMMAND
    },
    Example {
        words: &["apply", "src", "-", "src", "req"],
        ..NO_COMMAND
    },
    Example {
        words: &["apply", "src", "lib", "lib", "req"],
        ..NO_COMMAND
    },
    Example {
        words: &["apply", "src", "-", "-", "req"],
        ..NO_COMMAND
    },
    Example {
        words: &["apply", "src", "-", "out"],
        ..NO_COMMAND
    },
    Example {
        words: &["apply", "src", "-", "out", "req", "more"],
        ..NO_COMMAND
    },
    Example {
        words: &["apply", "src", "", "out", "req"],
        ..NO_COMMAND
    },
    Example {
        words: &["bind", "src", "-", "out", "req"],
        ..NO_COMMAND
    },
    Example {
        words: &["Apply", "src", "-", "out", "req"],
        ..NO_COMMAND
    },
];

#[test]
fn bad_words(rt: HostRuntime) -> Result<(), Fail> {
    check(&rt, BAD_WORDS)
}

const READ_FAULT: Example<'static> = Example {
    name: "a failing read",
    status: 7,
    line: "read fault\n",
    written: None,
    ..RENAME
};

const FAILING_CALLS: &[Example<'static>] = &[
    Example {
        failing: &[0],
        ..READ_FAULT
    },
    Example {
        failing: &[1],
        ..READ_FAULT
    },
    Example {
        failing: &[2],
        ..READ_FAULT
    },
    Example {
        name: "no request",
        files: &[("src", "A.java", CLASS)],
        ..READ_FAULT
    },
    Example {
        name: "a failing write leaves half of the bytes",
        failing: &[3],
        status: 8,
        line: "write fault\n",
        written: Some(("out", "A.java", b"class A{int")),
        ..RENAME
    },
    Example {
        name: "a failing put",
        failing_puts: &[0],
        status: 8,
        line: "",
        ..RENAME
    },
];

#[test]
fn failing_calls(rt: HostRuntime) -> Result<(), Fail> {
    check(&rt, FAILING_CALLS)
}

const LIBRARY: Example<'static> = Example {
    name: "a library",
    words: &["apply", "src", "lib", "out", "req"],
    status: 12,
    line: "not yet\n",
    written: None,
    ..RENAME
};

const NOT_OF_THE_FORM: Example<'static> = Example {
    name: "not of the first form",
    words: APPLY,
    ..LIBRARY
};

const NOT_YET: &[Example<'static>] = &[
    LIBRARY,
    Example {
        files: &[
            ("src", "A.java", b"class A{int f;int m(int g){return f;}}"),
            ("", "req", TO_G),
        ],
        ..NOT_OF_THE_FORM
    },
    Example {
        files: &[("src", "B.java", CLASS), ("", "req", TO_G)],
        ..NOT_OF_THE_FORM
    },
    Example {
        files: &[("src", "A.java", CLASS), ("", "req", b"")],
        ..NOT_OF_THE_FORM
    },
    Example {
        files: &[
            ("src", "A.java", CLASS),
            ("", "req", b"rename field A.f to \xff"),
        ],
        ..NOT_OF_THE_FORM
    },
    Example {
        files: &[("src", "A.java", b"class A{int f;}\xff"), ("", "req", TO_G)],
        ..NOT_OF_THE_FORM
    },
    Example {
        files: &[("src", "A.java", b""), ("", "req", TO_G)],
        ..NOT_OF_THE_FORM
    },
    Example {
        files: &[("", "req", TO_G)],
        ..NOT_OF_THE_FORM
    },
    Example {
        files: &[
            ("src", "A.java", CLASS),
            ("src", "B.java", b"class B{}"),
            ("", "req", TO_G),
        ],
        ..NOT_OF_THE_FORM
    },
    Example {
        files: &[
            ("src", "package-info.java", CLASS),
            ("src", "p/module-info.java", CLASS),
            ("", "req", TO_G),
        ],
        ..NOT_OF_THE_FORM
    },
];

#[test]
fn not_yet(rt: HostRuntime) -> Result<(), Fail> {
    check(&rt, NOT_YET)
}

/// A text with so many spaces before its last byte that it is `length` bytes long.
fn padded(alloc: Global, text: &[u8], length: usize) -> Result<Vec<u8>, Fail> {
    let mut padded = Vec::new(alloc);
    let (front, last) = text.split_at(text.len().saturating_sub(1));
    padded.extend_from_slice(front)?;
    for _ in text.len()..length {
        padded.push(b' ')?;
    }
    padded.extend_from_slice(last)?;
    Ok(padded)
}

/// Whether the run over one file `A.java` ends with this status, and makes this file, or none, under `out`.
fn gives(
    alloc: Global,
    class: &[u8],
    request: &[u8],
    status: u8,
    made: Option<&[u8]>,
) -> Result<bool, Memory> {
    let mut world = failing_world(alloc, &[])?;
    let class = world.put_file(alloc, b"src", b"A.java", class);
    let request = world.put_file(alloc, b"", b"req", request);
    if class.is_err() || request.is_err() {
        return Err(Memory);
    }
    let mut sink = failing_sink(alloc, &[])?;
    let ends = ends(alloc, APPLY, &mut world, &mut sink, status)?;
    match made {
        Some(bytes) => Ok(ends && stands(&world, "out", "A.java", bytes)),
        None => Ok(ends && world.files().len() == 2),
    }
}

#[test]
fn a_class_of_1048576_bytes_is_read(rt: HostRuntime) -> Result<(), Fail> {
    let within = padded(rt.alloc(), CLASS, 1_048_576)?;
    let renamed = padded(rt.alloc(), RENAMED, 1_048_576)?;
    let made = Some(renamed.as_slice());
    let gives = gives(rt.alloc(), within.as_slice(), TO_G, 0, made);
    assert!(rt; matches!(gives, Ok(true)));
    Ok(())
}

#[test]
fn a_longer_class_is_not_read(rt: HostRuntime) -> Result<(), Fail> {
    let over = padded(rt.alloc(), CLASS, 1_048_577)?;
    assert!(rt; matches!(gives(rt.alloc(), over.as_slice(), TO_G, 12, None), Ok(true)));
    Ok(())
}

#[test]
fn a_request_has_at_most_65536_bytes(rt: HostRuntime) -> Result<(), Fail> {
    let mut request = Vec::from_slice(rt.alloc(), TO_G)?;
    request.resize(65_537, b'g')?;
    assert!(rt;
        matches!(
            gives(rt.alloc(), CLASS, request.as_slice(), 12, None),
            Ok(true)
        )
    );
    Ok(())
}

fn is_filled(alloc: Global, world: &mut HonestWorld) -> bool {
    for (root, path, bytes) in ALONE {
        let put = world.put_file(alloc, root.as_bytes(), path.as_bytes(), bytes);
        if put.is_err() {
            return false;
        }
    }
    true
}

/// Whether the run over an honest world renames the field.
fn is_answered(alloc: Global, world: &mut HonestWorld) -> Result<bool, Memory> {
    let mut sink = HonestSink::new(alloc);
    let ends = ends(alloc, APPLY, world, &mut sink, 0)?;
    Ok(ends && sink.bytes().as_slice() == b"ok 1\nname field A.f f g\n".as_slice())
}

#[test]
fn an_honest_world_answers(rt: HostRuntime) -> Result<(), Fail> {
    let mut world = HonestWorld::new(rt.alloc());
    let filled = is_filled(rt.alloc(), &mut world);
    let answered = is_answered(rt.alloc(), &mut world)?;
    assert!(rt; filled && answered);
    Ok(())
}
