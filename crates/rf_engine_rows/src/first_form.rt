use rf_engine::{FirstPath, first_path};
use rf_text::Memory;
use std::alloc::Global;

/// Requests on the file `A.java`: its bytes, the request, and the bytes of the changed file with the lines to put.
const ANSWERED: &[(&[u8], &[u8], &[u8])] = &[
    (
        b"class A{int f;int h=f;}",
        b"rename field A.f to g",
        b"class A{int g;int h=g;}ok 1\nname field A.f f g\n",
    ),
    (
        b"class A{int f;int h=f;}",
        b"rename field A.f to f\n",
        b"class A{int f;int h=f;}ok 0\n",
    ),
    (
        b"class A{int f;int g;}",
        b"rename field A.f to g",
        b"refused A.f A.g\n",
    ),
    (
        b"\n class \n A { int  f\n; \n\nint h = f ; }\n",
        b"rename field A.f to g",
        b"\n class \n A { int  g\n; \n\nint h = g ; }\nok 1\nname field A.f f g\n",
    ),
];

/// The path, the bytes and the request of cases that are not of the first form.
const NOT_YET: &[(&[u8], &[u8], &[u8])] = &[
    (
        b"A.java",
        b"class A{int f;int m(int g){return f;}}",
        b"rename field A.f to h",
    ),
    (b"A.java", b"class A{int f;}", b"rename  field A.f to g"),
    (
        b"java.java",
        b"class java{int f;}",
        b"rename field java.f to g",
    ),
    (b"B.java", b"class A{int f;}", b"rename field A.f to g"),
    (
        b"A.java",
        b"class A{int f;int f;}",
        b"rename field A.f to g",
    ),
    (
        b"A.java",
        b"class A{int f;int h=x;}",
        b"rename field A.f to g",
    ),
    (b"A.java", b"class A{int f;}", b"rename field A.f to int"),
    (b"A.java", b"class A{int f;}", b"rename field A.f to true"),
    (b"A.java", b"class A{int f;}", b"rename field A.f to g\xff"),
    (
        b"A.java",
        b"class A{int \xff;}",
        b"rename field A.\xff to g",
    ),
    (b"A.java", b"class A{int f;}", b""),
    (b"A.java", b"class A{}", b"rename field A.f to g"),
];

/// Texts that are no class of the form.
const OTHER_TEXTS: &[&[u8]] = &[
    b"classA{}",
    b"class A{int f}",
    b"class A{int f;}x",
    b"class A{int f;int h=;}",
    b"class A{intf;}",
    b"class int{}",
    b"class\tA{int f;}",
    b"",
];

/// Whether the text is these two parts.
fn are_parts(text: &[u8], front: &[u8], end: &[u8]) -> bool {
    if text.len() < front.len() {
        return false;
    }
    let (first, second) = text.split_at(front.len());
    first == front && second == end
}

/// Whether the answer has these bytes for a changed file, with the lines to put behind them.
fn is_answered(alloc: Global, file: &[u8], request: &[u8], answer: &[u8]) -> Result<bool, Memory> {
    match first_path(alloc, b"A.java", file, request)? {
        FirstPath::Changed { bytes, report } => {
            Ok(are_parts(answer, bytes.as_slice(), report.as_slice()))
        }
        FirstPath::Refused { report } => Ok(report.as_slice() == answer),
        FirstPath::NotYet => Ok(false),
    }
}

fn is_not_yet(alloc: Global, path: &[u8], file: &[u8], request: &[u8]) -> Result<bool, Memory> {
    match first_path(alloc, path, file, request)? {
        FirstPath::NotYet => Ok(true),
        _ => Ok(false),
    }
}

/// The number of the first case that isn't answered so, or that of all cases.
fn first_unanswered(alloc: Global) -> usize {
    let mut number = 0usize;
    for (file, request, answer) in ANSWERED {
        match is_answered(alloc, file, request, answer) {
            Ok(true) => number = number.wrapping_add(1),
            _ => return number,
        }
    }
    number
}

/// The number of the first case that has an answer, or that of all cases.
fn first_answered(alloc: Global) -> usize {
    let mut number = 0usize;
    for (path, file, request) in NOT_YET {
        match is_not_yet(alloc, path, file, request) {
            Ok(true) => number = number.wrapping_add(1),
            _ => return number,
        }
    }
    number
}

/// The number of the first text that is a class of the form, or that of all texts.
fn first_of_the_form(alloc: Global) -> usize {
    let mut number = 0usize;
    for file in OTHER_TEXTS {
        match is_not_yet(alloc, b"A.java", file, b"rename field A.f to g") {
            Ok(true) => number = number.wrapping_add(1),
            _ => return number,
        }
    }
    number
}

#[test]
fn each_request_has_its_answer(rt: HostRuntime) {
    assert_eq!(rt; first_unanswered(rt.alloc()), ANSWERED.len());
    assert_eq!(rt; first_answered(rt.alloc()), NOT_YET.len());
}

#[test]
fn other_texts_are_no_class_of_the_form(rt: HostRuntime) {
    assert_eq!(rt; first_of_the_form(rt.alloc()), OTHER_TEXTS.len());
}

/// Whether a request of this length is of the first form; nothing where memory is wanted.
fn is_read(alloc: Global, length: usize) -> Option<bool> {
    let mut request = Vec::new(alloc);
    if request.extend_from_slice(b"rename field A.f to ").is_err() {
        return None;
    }
    if request.resize(length, b'g').is_err() {
        return None;
    }
    match is_not_yet(alloc, b"A.java", b"class A{int f;}", request.as_slice()) {
        Ok(not_yet) => Some(!not_yet),
        Err(_) => None,
    }
}

#[test]
fn a_request_has_at_most_65536_bytes(rt: HostRuntime) {
    assert!(rt; matches!(is_read(rt.alloc(), 65_536), Some(true)));
    assert!(rt; matches!(is_read(rt.alloc(), 65_537), Some(false)));
}
