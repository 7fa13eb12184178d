use crate::in_memory::are_both;
use rf_world::{RealSink, RealWorld, Sink, SinkErr, World, WorldErr};
use std::fmt::Display;
use std::io::ErrorKind;
use std::os::unix::fs::symlink;
use std::test::Fail;
use std::{fs, io};

/// A standard output that takes nothing.
struct Full;

impl Print for Full {
    fn print<D: Display + Drop>(&self, _value: D) -> io::Result<()> {
        Err(io::Error::from(ErrorKind::StorageFull))
    }

    fn println<D: Display + Drop>(&self, _value: D) -> io::Result<()> {
        Err(io::Error::from(ErrorKind::StorageFull))
    }

    fn write_all(&self, _bytes: &[u8]) -> io::Result<()> {
        Err(io::Error::from(ErrorKind::StorageFull))
    }
}

#[test]
fn the_output_takes_bytes(rt: HostRuntime) -> Result<(), Fail> {
    RealSink::new(&rt).put(rt.alloc(), b"standard output\n")?;
    Ok(())
}

#[test]
fn a_full_output_is_a_fault(rt: HostRuntime) {
    let failed = RealSink::new(&Full).put(rt.alloc(), b"ok 1\n");
    assert_eq!(rt; failed.err(), Some(SinkErr::Failed));
}

#[test]
fn the_system_keeps_what_is_written(rt: HostRuntime) -> Result<(), Fail> {
    let alloc = rt.alloc();
    let _ = fs::remove_dir_all(&rt, "test_kept");
    let mut world = RealWorld::new(&rt);
    let long = vec![in alloc; 7u8; 200_000]?;
    world.write(alloc, b"test_kept", b"p/q/A.java", long.as_slice())?;
    world.write(alloc, b"test_kept/", b"B.java", b"class B{}")?;
    world.write(alloc, b"test_kept", b"B.java", b"class")?;

    assert!(rt; are_both(&world.list(alloc, b"test_kept")?, b"p/q/A.java", b"B.java"));
    let read = world.read(alloc, b"test_kept/p", b"q/A.java")?;
    assert_eq!(rt; read.as_slice(), long.as_slice());
    let read = world.read(alloc, b"", b"test_kept/B.java")?;
    assert_eq!(rt; read.as_slice(), b"class".as_slice());

    symlink(&rt, "..", "test_kept/p/up")?;
    symlink(&rt, "q/A.java", "test_kept/p/link")?;
    symlink(&rt, "gone", "test_kept/p/broken")?;
    assert!(rt; are_both(&world.list(alloc, b"test_kept/p")?, b"q/A.java", b"link"));
    fs::remove_dir_all(&rt, "test_kept")?;
    Ok(())
}

#[test]
fn the_system_refuses_what_is_not_there(rt: HostRuntime) -> Result<(), Fail> {
    let alloc = rt.alloc();
    let _ = fs::remove_dir_all(&rt, "test_refused");
    let mut world = RealWorld::new(&rt);
    for root in [b"test_refused".as_slice(), b"\xff".as_slice()] {
        assert_eq!(rt; world.list(alloc, root).err(), Some(WorldErr::Failed));
        let read = world.read(alloc, root, b"A.java");
        assert_eq!(rt; read.err(), Some(WorldErr::Failed));
    }
    let unnamed = world.write(alloc, b"test_refused", b"\xff", b"class A{}");
    assert_eq!(rt; unnamed.err(), Some(WorldErr::Failed));
    world.write(alloc, b"test_refused", b"A", b"class A{}")?;
    let below_a_file = world.write(alloc, b"test_refused", b"A/B", b"class B{}");
    assert_eq!(rt; below_a_file.err(), Some(WorldErr::Failed));
    fs::remove_dir_all(&rt, "test_refused")?;
    Ok(())
}
