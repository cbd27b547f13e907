//! What no clause says: that calls succeed with ample memory, and that a caller that is generic in its host can follow the
//! bytes.

ghost use Rattle.std.specs.Prelude.{◌≡◌, ◌≤◌, List, ℕ, Ok, IfOk, OnOk};
ghost use Rattle.ho_io.specs.Told.{Tells, behind};

use ho_io::{
    Host, MemHost, MemSink, MemSource, ReadError, Sink, Source, SystemHost, put_all, read_all,
    write_all,
};
use std::alloc::{AllocError, Global};
use std::fs;
use std::test::Fail;

fn bytes_of(alloc: Global, bytes: &[u8]) -> Result<Vec<u8>, AllocError> {
    Vec::from_slice(alloc, bytes)
}

fn pair_of(alloc: Global, name: &str, bytes: &[u8]) -> Result<(String, Vec<u8>), AllocError> {
    Ok((
        String::from_str(alloc, name)?,
        Vec::from_slice(alloc, bytes)?,
    ))
}

// What a generic caller can say: the text that it writes is what the host holds under the name.
fn copy_out<H: Host>(alloc: Global, host: &mut H, name: &str) -> Result<Vec<u8>, ()>
    ensures script { IfOk result (λ bytes. Tells (H.holds host.old name.now) bytes.items) }
    ensures out { IfOk result (λ bytes. H.out host.new ≡ behind (H.out host.old) bytes.items) }
    ensures counts { H.read_faults host.old ≤ H.read_faults host.new }
{
    let Ok(mut src) = host.open(name) else {
        return Err(());
    };
    let read = read_all(alloc, &mut src, 1000);
    host.shut_src(src);
    let Ok(bytes) = read else {
        return Err(());
    };
    match put_all(host, bytes.as_slice()) {
        Ok(()) => Ok(bytes),
        Err(_) => Err(()),
    }
}

#[test]
fn reads_whole_sources(rt: HostRuntime) -> Result<(), Fail> {
    let alloc = rt.alloc();
    let long = vec![in alloc; 7u8; 5000]?;
    for (limit, fails, want) in [(5000, 9, 0), (4999, 9, 1), (5000, 2, 2), (0, 9, 1)] {
        let plan = vec![in alloc; fails]?;
        let mut src = MemSource::new(bytes_of(alloc, &long)?, plan);
        let (outcome, count) = match read_all(alloc, &mut src, limit) {
            Ok(bytes) => (0, bytes.len()),
            Err(ReadError::TooLong(bytes)) => (1, bytes.len()),
            Err(ReadError::Fault) => (2, 5000),
            Err(ReadError::Memory) => (3, 0),
        };
        assert_eq!(rt; outcome, want, "at {limit}");
        assert_eq!(rt;
            count,
            if want == 1 { limit as usize + 1 } else { 5000 },
            "at {limit}"
        );
    }
    Ok(())
}

#[test]
fn writes_whole_sinks(rt: HostRuntime) -> Result<(), Fail> {
    let alloc = rt.alloc();
    let mut sink = MemSink::new(String::from_str(alloc, "s")?, vec![in alloc; 2u64]?);
    assert!(rt; write_all(&mut sink, b"one").is_ok());
    assert!(rt; write_all(&mut sink, b"two").is_err());
    assert!(rt; write_all(&mut sink, b"three").is_ok());
    // A host tells what a sink has that is given back to it, also in another one's place.
    let mut host = MemHost::new(Vec::new(alloc), Vec::new(alloc));
    let Ok(_other) = host.make("other") else {
        panic!(rt; "made")
    };
    host.shut_dst(sink);
    for (name, bytes) in host.made() {
        assert_eq!(rt; name.as_str(), "s");
        assert_eq!(rt; bytes.as_slice(), b"onethree".as_slice());
    }
    assert_eq!(rt; host.made().len(), 1);
    Ok(())
}

// Two pairs of the name `a`.
fn two_pairs_of(alloc: Global) -> Result<Vec<(String, Vec<u8>)>, AllocError> {
    let mut holds = Vec::new(alloc);
    holds.push(pair_of(alloc, "a", b"first")?)?;
    holds.push(pair_of(alloc, "a", b"second")?)?;
    Ok(holds)
}

#[test]
fn holds_bytes_in_memory(rt: HostRuntime) -> Result<(), Fail> {
    let alloc = rt.alloc();
    let mut host = MemHost::new(two_pairs_of(alloc)?, Vec::new(alloc));
    assert!(rt; copy_out(alloc, &mut host, "b").is_err());
    assert!(rt; copy_out(alloc, &mut host, "a").is_ok());
    assert_eq!(rt; host.out(), b"first".as_slice());
    Ok(())
}

#[test]
fn makes_sinks_in_memory(rt: HostRuntime) -> Result<(), Fail> {
    let alloc = rt.alloc();
    let fails = Vec::from_slice(alloc, [(0, 2), (1, 1)].as_slice())?;
    let mut host = MemHost::new(Vec::new(alloc), fails);
    let mut dst = host.make("m").ok().ok_or("made")?;
    assert!(rt; put_all(&mut host, b"lost").is_err());
    assert!(rt; write_all(&mut dst, b"x").is_err());
    assert!(rt; write_all(&mut dst, b"yz").is_ok());
    host.shut_dst(dst);
    for (name, bytes) in host.made() {
        assert_eq!(rt; name.as_str(), "m");
        assert_eq!(rt; bytes.as_slice(), b"yz".as_slice());
    }
    assert_eq!(rt; host.made().len(), 1);
    Ok(())
}

#[test]
fn reaches_files(rt: HostRuntime) -> Result<(), Fail> {
    let alloc = rt.alloc();
    let name = "ho_io_test_file";
    let mut host = SystemHost::new(&rt);
    let mut dst = host.make(name).ok().ok_or("made")?;
    assert!(rt; write_all(&mut dst, b"some bytes").is_ok());
    host.shut_dst(dst);
    let mut src = host.open(name).ok().ok_or("opened")?;
    let bytes = read_all(alloc, &mut src, 100).ok().ok_or("read")?;
    host.shut_src(src);
    fs::remove_file(&rt, name)?;
    assert_eq!(rt; bytes.as_slice(), b"some bytes".as_slice());
    assert!(rt; host.open(name).is_err());
    assert!(rt; put_all(&mut host, b"shown\n").is_ok());
    Ok(())
}
