use rf_text::{Bytes, List};
use rf_world::{HonestSink, HonestWorld, MemSink, MemWorld, Sink, SinkErr, World, WorldErr};
use std::test::Fail;

/// Whether the list has exactly these two paths, in either order.
pub(crate) fn are_both(paths: &List<Bytes>, one: &[u8], other: &[u8]) -> bool {
    match paths.as_slice() {
        [first, second] => {
            (first.as_slice() == one && second.as_slice() == other)
                || (first.as_slice() == other && second.as_slice() == one)
        }
        _ => false,
    }
}

#[test]
fn a_world_in_memory_holds_files(rt: HostRuntime) -> Result<(), Fail> {
    let alloc = rt.alloc();
    let mut world = MemWorld::new(alloc, List::new(alloc));
    world.put_file(alloc, b"src", b"a/A.java", b"class A{}")?;
    world.put_file(alloc, b"lib", b"B.java", b"class B{}")?;
    world.write(alloc, b"src", b"B.java", b"class B{int b;}")?;
    world.write(alloc, b"src", b"a/A.java", b"interface A{}")?;

    assert_eq!(rt; world.files().len(), 3);
    assert!(rt; are_both(&world.list(alloc, b"src")?, b"a/A.java", b"B.java"));
    let read = world.read(alloc, b"src", b"a/A.java")?;
    assert_eq!(rt; read.as_slice(), b"interface A{}".as_slice());
    let read = world.read(alloc, b"lib", b"B.java")?;
    assert_eq!(rt; read.as_slice(), b"class B{}".as_slice());
    let absent = world.read(alloc, b"lib", b"A.java");
    assert_eq!(rt; absent.err(), Some(WorldErr::Failed));
    Ok(())
}

#[test]
fn chosen_calls_of_a_world_fail(rt: HostRuntime) -> Result<(), Fail> {
    let alloc = rt.alloc();
    let mut world = MemWorld::new(alloc, List::from_vec([1, 2, 3].to_vec(alloc)?));
    world.put_file(alloc, b"src", b"A.java", b"class A{}")?;

    assert_eq!(rt; world.list(alloc, b"src")?.len(), 1);
    let list = world.list(alloc, b"src");
    assert_eq!(rt; list.err(), Some(WorldErr::Failed));
    let read = world.read(alloc, b"src", b"A.java");
    assert_eq!(rt; read.err(), Some(WorldErr::Failed));
    let half = world.write(alloc, b"out", b"A.java", b"1234567");
    assert_eq!(rt; half.err(), Some(WorldErr::Failed));
    let written = world.read(alloc, b"out", b"A.java")?;
    assert_eq!(rt; written.as_slice(), b"123".as_slice());
    assert_eq!(rt; world.files().len(), 2);
    Ok(())
}

#[test]
fn an_honest_world_misses_only_absent_files(rt: HostRuntime) -> Result<(), Fail> {
    let alloc = rt.alloc();
    let mut world = HonestWorld::new(alloc);
    world.put_file(alloc, b"src", b"A.java", b"class A{}")?;
    world.write(alloc, b"src", b"B.java", b"class B{}")?;

    assert!(rt; are_both(&world.list(alloc, b"src")?, b"A.java", b"B.java"));
    let read = world.read(alloc, b"src", b"B.java")?;
    assert_eq!(rt; read.as_slice(), b"class B{}".as_slice());
    let absent = world.read(alloc, b"lib", b"B.java");
    assert_eq!(rt; absent.err(), Some(WorldErr::Failed));
    assert_eq!(rt; world.files().len(), 2);
    Ok(())
}

#[test]
fn sinks_take_bytes_in_order(rt: HostRuntime) -> Result<(), Fail> {
    let alloc = rt.alloc();
    let mut sink = MemSink::new(alloc, List::from_vec([1].to_vec(alloc)?));
    sink.put(alloc, b"ok 1\n")?;
    let failed = sink.put(alloc, b"lost\n");
    assert_eq!(rt; failed.err(), Some(SinkErr::Failed));
    sink.put(alloc, b"ok 2\n")?;
    assert_eq!(rt; sink.bytes().as_slice(), b"ok 1\nok 2\n".as_slice());

    let mut sink = HonestSink::new(alloc);
    sink.put(alloc, b"ok 1\n")?;
    sink.put(alloc, b"ok 2\n")?;
    assert_eq!(rt; sink.bytes().as_slice(), b"ok 1\nok 2\n".as_slice());
    Ok(())
}
