use super::{FILE_0, P, POOL, REGISTRY, SLOT_0, add, bytes, name, runs};
use ho_base::name::Name;
use ho_base::numbers::{FileNo, Kind, Order, SlotNo, Token};
use ho_events::entry::{Entry, Place};
use ho_events::event::Event;
use ho_events::reply::Reply;
use ho_events::text::text;
use std::alloc::{AllocError, Global};
use std::test::Fail;

/// Adds the end of a command of agent 1 in kernel 0.
fn add_done(entries: &mut Vec<Entry>, stamp: u64, command: u32) -> Result<(), AllocError> {
    add(
        entries,
        stamp,
        command,
        Place::Own,
        Event::SelfDone,
        Reply::Ok,
    )
}

/// Adds the entries of a new memfd and a write of five bytes.
fn add_memfd_and_write(alloc: Global, entries: &mut Vec<Entry>) -> Result<(), AllocError> {
    let file = FileNo(0);
    let none = runs(alloc, &[])?;
    add(
        entries,
        1,
        1,
        REGISTRY,
        Event::RegNewFile,
        Reply::OkFile(file),
    )?;
    add(
        entries,
        2,
        1,
        FILE_0,
        Event::FileInit(Kind::Memfd, Order(0), 0, none),
        Reply::Ok,
    )?;
    add_done(entries, 3, 1)?;
    let got = runs(alloc, &P)?;
    add(
        entries,
        4,
        2,
        POOL,
        Event::PoolTake(Order(0), 1),
        Reply::Got(got),
    )?;
    let written = bytes(alloc, b"hello")?;
    let fills = runs(alloc, &P)?;
    add(
        entries,
        5,
        2,
        FILE_0,
        Event::FileWrite(0, written, fills),
        Reply::Ok,
    )?;
    add_done(entries, 6, 2)
}

/// Adds the entries of a new session and a preservation.
fn add_create_and_preserve(
    alloc: Global,
    entries: &mut Vec<Entry>,
    session: Name,
) -> Result<(), AllocError> {
    let slot = SlotNo(0);
    add(
        entries,
        7,
        3,
        REGISTRY,
        Event::RegCreate(session),
        Reply::OkSlot(slot),
    )?;
    add(
        entries,
        8,
        3,
        SLOT_0,
        Event::SessionBegin(session),
        Reply::Ok,
    )?;
    add_done(entries, 9, 3)?;
    add(
        entries,
        10,
        4,
        REGISTRY,
        Event::RegFindOut(session),
        Reply::OkSlot(slot),
    )?;
    let none = runs(alloc, &[])?;
    let pinned = runs(alloc, &P)?;
    add(
        entries,
        11,
        4,
        FILE_0,
        Event::FilePin(none),
        Reply::OkRuns(pinned),
    )?;
    let marked = runs(alloc, &P)?;
    add(
        entries,
        12,
        4,
        POOL,
        Event::PoolMark(Order(0), marked),
        Reply::Ok,
    )?;
    add(
        entries,
        13,
        4,
        SLOT_0,
        Event::SessionAdd(session, Token(7), FileNo(0), 0),
        Reply::Ok,
    )?;
    add_done(entries, 14, 4)
}

const PLAIN_PATH: &[u8] = b"0 1 1 1 reg new_file = Ok f0
0 2 1 1 f0 init memfd 0 0 [] = Ok
0 3 1 1 self done = Ok
0 4 1 2 pool take 0 1 = Got [9]
0 5 1 2 f0 write 0 68656c6c6f [9] = Ok
0 6 1 2 self done = Ok
0 7 1 3 reg create s = Ok s0
0 8 1 3 s0 begin s = Ok
0 9 1 3 self done = Ok
0 10 1 4 reg find_out s = Ok s0
0 11 1 4 f0 pin [] = Ok [9]
0 12 1 4 pool mark 0 [9] = Ok
0 13 1 4 s0 add s 7 f0 0 = Ok
0 14 1 4 self done = Ok
";

#[test]
fn the_plain_path_in_the_first_kernel(rt: HostRuntime) -> Result<(), Fail> {
    let session = name(&rt, b"s");
    let mut entries = Vec::new(rt.alloc());
    add_memfd_and_write(rt.alloc(), &mut entries)?;
    add_create_and_preserve(rt.alloc(), &mut entries, session)?;
    let written = text(rt.alloc(), entries.as_slice())
        .ok()
        .expect(&rt, "memory");
    assert_eq!(rt; written.as_slice(), PLAIN_PATH);
    Ok(())
}
