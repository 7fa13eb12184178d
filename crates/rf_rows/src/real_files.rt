use crate::example::{ends, failing_sink};
use rf_text::Memory;
use rf_world::{RealWorld, World};
use std::alloc::Global;
use std::rt::Files;
use std::test::Fail;
use std::{fs, io};

const WORDS: &[&str] = &[
    "apply",
    "test_files/src",
    "-",
    "test_files/out",
    "test_files/req",
];

fn make_files<R: Files + Alloc>(rt: &R) -> io::Result<()> {
    let _ = fs::remove_dir_all(rt, "test_files");
    fs::create_dir_all(rt, "test_files/src")?;
    fs::write(rt, "test_files/src/A.java", "class A{int f;int h=f;}")?;
    fs::write(rt, "test_files/req", "rename field A.f to g\n")
}

fn is_answered<W: World>(alloc: Global, world: &mut W) -> Result<bool, Memory> {
    let mut sink = failing_sink(alloc, &[])?;
    let ends = ends(alloc, WORDS, world, &mut sink, 0)?;
    Ok(ends && sink.bytes().as_slice() == b"ok 1\nname field A.f f g\n".as_slice())
}

#[test]
fn a_field_is_renamed_in_real_files(rt: HostRuntime) -> Result<(), Fail> {
    make_files(&rt)?;
    assert!(rt; is_answered(rt.alloc(), &mut RealWorld::new(&rt))?);
    let written = fs::read_to_string(&rt, "test_files/out/A.java")?;
    assert!(rt; written.as_str() == "class A{int g;int h=g;}");
    fs::remove_dir_all(&rt, "test_files")?;
    Ok(())
}
