use ho_base::Items;
use ho_base::bound::Bound;
use ho_base::name::Name;
use ho_base::numbers::{AgentNo, FileNo, Kind, ObjectNo, Order, Pfn, SlotNo, Token};
use ho_events::entry::{Entry, Place};
use ho_events::event::Event;
use ho_events::reply::Reply;
use ho_events::text::text;
use std::alloc::{AllocError, Global};
use std::process::Abort;
use std::test::Fail;

mod plain_path;

/// A list of frames.
fn runs(alloc: Global, first: &[Pfn]) -> Result<Items<Pfn>, AllocError> {
    let items = Vec::from_slice(alloc, first)?;
    Ok(Items::from_vec(items))
}

/// A list of bytes.
fn bytes(alloc: Global, first: &[u8]) -> Result<Items<u8>, AllocError> {
    let items = Vec::from_slice(alloc, first)?;
    Ok(Items::from_vec(items))
}

/// The name of these bytes.
fn name(rt: &impl Abort, spelled: &[u8]) -> Name {
    Name::checked(spelled).expect(rt, "a name")
}

/// Adds an entry of agent 1 in kernel 0.
fn add(
    entries: &mut Vec<Entry>,
    stamp: u64,
    command: u32,
    object: Place,
    event: Event,
    reply: Reply,
) -> Result<(), AllocError> {
    entries.push(Entry {
        kernel: 0,
        stamp,
        agent: AgentNo(1),
        command,
        object,
        event,
        reply,
    })?;
    Ok(())
}

const POOL: Place = Place::Object(ObjectNo::POOL);

const REGISTRY: Place = Place::Object(ObjectNo::REGISTRY);

const DEV3: Place = Place::Object(ObjectNo(5));

const SLOT_0: Place = Place::Object(ObjectNo(6));

const SLOT_31: Place = Place::Object(ObjectNo(37));

const FILE_0: Place = Place::Object(ObjectNo(38));

const FILE_255: Place = Place::Object(ObjectNo(293));

const P: [Pfn; 1] = [Pfn(9)];

/// Adds an entry of agent 1 in kernel 0, of its first command.
fn put(
    entries: &mut Vec<Entry>,
    object: Place,
    event: Event,
    reply: Reply,
) -> Result<(), AllocError> {
    add(entries, 1, 1, object, event, reply)
}

/// Adds the end of a command with this reply.
fn put_done(entries: &mut Vec<Entry>, reply: Reply) -> Result<(), AllocError> {
    put(entries, Place::Own, Event::SelfDone, reply)
}

/// Adds an entry of each event of the pool and the registry.
fn put_pool_and_registry(
    alloc: Global,
    entries: &mut Vec<Entry>,
    n: Name,
) -> Result<(), AllocError> {
    let two = runs(alloc, &[Pfn(9), Pfn(16383)])?;
    put(entries, POOL, Event::PoolGive(Order(9), two), Reply::Ok)?;
    let three = runs(alloc, &[Pfn(1), Pfn(2), Pfn(3)])?;
    put(entries, POOL, Event::PoolUnmark(Order(0), three), Reply::Ok)?;
    put(
        entries,
        POOL,
        Event::PoolTake(Order(3), 4096),
        Reply::NoFrames,
    )?;
    put(entries, REGISTRY, Event::RegNewFile, Reply::FilesFull)?;
    put(
        entries,
        REGISTRY,
        Event::RegFreeFile(FileNo(255)),
        Reply::Ok,
    )?;
    put(entries, REGISTRY, Event::RegDropName(n), Reply::Ok)?;
    put(entries, REGISTRY, Event::RegDropIn(n), Reply::Ok)?;
    put(entries, REGISTRY, Event::RegCreate(n), Reply::NameTaken)?;
    put(entries, REGISTRY, Event::RegFindOut(n), Reply::NoSession)?;
    put(
        entries,
        REGISTRY,
        Event::RegFindIn(n),
        Reply::OkSlot(SlotNo(31)),
    )?;
    put(entries, REGISTRY, Event::RegOpen(n), Reply::AlreadyOpen)
}

const POOL_AND_REGISTRY: &[u8] = b"0 1 1 1 pool give 9 [9,16383] = Ok
0 1 1 1 pool unmark 0 [1,2,3] = Ok
0 1 1 1 pool take 3 4096 = NoFrames
0 1 1 1 reg new_file = FilesFull
0 1 1 1 reg free_file f255 = Ok
0 1 1 1 reg drop_name a.B_9- = Ok
0 1 1 1 reg drop_in a.B_9- = Ok
0 1 1 1 reg create a.B_9- = NameTaken
0 1 1 1 reg find_out a.B_9- = NoSession
0 1 1 1 reg find_in a.B_9- = Ok s31
0 1 1 1 reg open a.B_9- = AlreadyOpen
";

#[test]
fn lines_of_the_pool_and_the_registry(rt: HostRuntime) -> Result<(), Fail> {
    let mut entries = Vec::new(rt.alloc());
    put_pool_and_registry(rt.alloc(), &mut entries, name(&rt, b"a.B_9-"))?;
    let written = text(rt.alloc(), entries.as_slice())
        .ok()
        .expect(&rt, "memory");
    assert_eq!(rt; written.as_slice(), POOL_AND_REGISTRY);
    Ok(())
}

/// Adds entries of the events of a file that change what it holds.
fn put_contents(alloc: Global, entries: &mut Vec<Entry>) -> Result<(), AllocError> {
    let one = runs(alloc, &P)?;
    put(
        entries,
        FILE_255,
        Event::FileInit(Kind::Dev3, Order(0), 16, one),
        Reply::Ok,
    )?;
    let none = runs(alloc, &[])?;
    put(
        entries,
        FILE_255,
        Event::FileWrite(1, bytes(alloc, &[])?, none),
        Reply::NoFramesOf(2),
    )?;
    let one = runs(alloc, &P)?;
    put(
        entries,
        FILE_255,
        Event::FileFill(4096, 2, 255, one),
        Reply::Ok,
    )?;
    put(
        entries,
        FILE_255,
        Event::FileRead(0, 4),
        Reply::OkBytes(bytes(alloc, &[0, 10, 171, 255])?),
    )?;
    put(
        entries,
        FILE_255,
        Event::FileRead(7, 0),
        Reply::OkBytes(bytes(alloc, &[])?),
    )?;
    let given = runs(alloc, &P)?;
    put(
        entries,
        FILE_255,
        Event::FileTruncate(0),
        Reply::OkRuns(given),
    )?;
    put(entries, FILE_255, Event::FileSeek(5), Reply::PastEnd)?;
    put(entries, FILE_255, Event::FileTell, Reply::OkAt(4))
}

/// Adds entries of the events of a file that change what holds it.
fn put_holds(alloc: Global, entries: &mut Vec<Entry>) -> Result<(), AllocError> {
    put(entries, FILE_0, Event::FileCloseFd, Reply::Kept)?;
    let gone = runs(alloc, &P)?;
    put(entries, FILE_0, Event::FileFinish, Reply::Gone(gone))?;
    let kept = runs(alloc, &P)?;
    put(entries, FILE_0, Event::FileUnpin, Reply::KeptRuns(kept))?;
    put(entries, FILE_0, Event::FileOpenHeld, Reply::Ok)
}

const FILES: &[u8] = b"0 1 1 1 f255 init dev3 0 16 [9] = Ok
0 1 1 1 f255 write 1 - [] = NoFrames 2
0 1 1 1 f255 fill 4096 2 255 [9] = Ok
0 1 1 1 f255 read 0 4 = Ok 000aabff
0 1 1 1 f255 read 7 0 = Ok -
0 1 1 1 f255 truncate 0 = Ok [9]
0 1 1 1 f255 seek 5 = PastEnd
0 1 1 1 f255 tell = Ok @4
0 1 1 1 f0 close_fd = Kept
0 1 1 1 f0 finish = Gone [9]
0 1 1 1 f0 unpin = Kept [9]
0 1 1 1 f0 open_held = Ok
";

#[test]
fn lines_of_files(rt: HostRuntime) -> Result<(), Fail> {
    let mut entries = Vec::new(rt.alloc());
    put_contents(rt.alloc(), &mut entries)?;
    put_holds(rt.alloc(), &mut entries)?;
    let written = text(rt.alloc(), entries.as_slice())
        .ok()
        .expect(&rt, "memory");
    assert_eq!(rt; written.as_slice(), FILES);
    Ok(())
}

/// Adds entries of the events of a session.
fn put_session(entries: &mut Vec<Entry>, n: Name) -> Result<(), AllocError> {
    put(entries, SLOT_31, Event::SessionOpen(n), Reply::Ok)?;
    put(
        entries,
        SLOT_31,
        Event::SessionAdd(n, Token(u64::MAX), FileNo(2), 3),
        Reply::TokenTaken,
    )?;
    put(entries, SLOT_31, Event::SessionClose(n), Reply::NoSession)?;
    put(
        entries,
        SLOT_31,
        Event::SessionTake(n, Token(7)),
        Reply::OkFile(FileNo(1)),
    )?;
    put(
        entries,
        SLOT_31,
        Event::SessionFinish(n),
        Reply::HandlerFailed,
    )
}

/// Adds entries of the events of a handler.
fn put_handler(entries: &mut Vec<Entry>, bound: Bound, none: Bound) -> Result<(), AllocError> {
    let file = FileNo(2);
    put(
        entries,
        DEV3,
        Event::HandlerPreserve(file, Some(Pfn(9))),
        Reply::OkHandle(1, bound),
    )?;
    put(
        entries,
        DEV3,
        Event::HandlerPreserve(file, None),
        Reply::Failed(5),
    )?;
    put(
        entries,
        DEV3,
        Event::HandlerUnpreserve(file, 1),
        Reply::Last(Pfn(9)),
    )?;
    put(entries, DEV3, Event::HandlerFinish(file, 2), Reply::Kept)?;
    put(entries, DEV3, Event::HandlerFreeze(file, 3), Reply::Ok)?;
    put(entries, DEV3, Event::HandlerCanFinish(file, 4), Reply::Ok)?;
    put(entries, DEV3, Event::HandlerUnfreeze(file, 5), Reply::Ok)?;
    put(
        entries,
        DEV3,
        Event::HandlerRetrieve(file, 6),
        Reply::OkBound(none),
    )
}

const SESSIONS_AND_HANDLERS: &[u8] = b"0 1 1 1 s31 open s = Ok
0 1 1 1 s31 add s 18446744073709551615 f2 3 = TokenTaken
0 1 1 1 s31 close s = NoSession
0 1 1 1 s31 take s 7 = Ok f1
0 1 1 1 s31 finish s = HandlerFailed
0 1 1 1 dev3 preserve f2 [9] = Ok 1 6b306431
0 1 1 1 dev3 preserve f2 [] = Failed 5
0 1 1 1 dev3 unpreserve f2 1 = Last [9]
0 1 1 1 dev3 finish f2 2 = Kept
0 1 1 1 dev3 freeze f2 3 = Ok
0 1 1 1 dev3 can_finish f2 4 = Ok
0 1 1 1 dev3 unfreeze f2 5 = Ok
0 1 1 1 dev3 retrieve f2 6 = Ok -
";

#[test]
fn lines_of_sessions_and_handlers(rt: HostRuntime) -> Result<(), Fail> {
    let mut entries = Vec::new(rt.alloc());
    let bound = Bound::checked(b"k0d1".as_slice()).ok_or("refused")?;
    let none = Bound::checked(b"".as_slice()).ok_or("refused")?;
    put_session(&mut entries, name(&rt, b"s"))?;
    put_handler(&mut entries, bound, none)?;
    let written = text(rt.alloc(), entries.as_slice())
        .ok()
        .expect(&rt, "memory");
    assert_eq!(rt; written.as_slice(), SESSIONS_AND_HANDLERS);
    Ok(())
}

/// Adds ends of commands with the refusals that no line above has.
fn put_refusals(entries: &mut Vec<Entry>, n: Name) -> Result<(), AllocError> {
    put_done(entries, Reply::SessionsFull)?;
    put_done(entries, Reply::TooBig)?;
    put_done(entries, Reply::SizeFrozen)?;
    put_done(entries, Reply::NotFinished)?;
    put_done(entries, Reply::AlreadyPinned)?;
    put_done(entries, Reply::SessionFull)?;
    put_done(entries, Reply::NoToken)?;
    put_done(entries, Reply::AlreadyTaken)?;
    put_done(entries, Reply::BadFd)?;
    put_done(entries, Reply::ScratchSmall(9, 8))?;
    put_done(entries, Reply::FreezeFailed(n, Token(2)))
}

const REFUSALS: &[u8] = b"0 1 1 1 self done = SessionsFull
0 1 1 1 self done = TooBig
0 1 1 1 self done = SizeFrozen
0 1 1 1 self done = NotFinished
0 1 1 1 self done = AlreadyPinned
0 1 1 1 self done = SessionFull
0 1 1 1 self done = NoToken
0 1 1 1 self done = AlreadyTaken
0 1 1 1 self done = BadFd
0 1 1 1 self done = ScratchSmall 9 8
0 1 1 1 self done = FreezeFailed s 2
";

#[test]
fn lines_of_refusals(rt: HostRuntime) -> Result<(), Fail> {
    let mut entries = Vec::new(rt.alloc());
    put_refusals(&mut entries, name(&rt, b"s"))?;
    let written = text(rt.alloc(), entries.as_slice())
        .ok()
        .expect(&rt, "memory");
    assert_eq!(rt; written.as_slice(), REFUSALS);
    Ok(())
}
