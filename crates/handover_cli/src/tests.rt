//! Worked runs over a host in memory.

ghost use Rattle.std.specs.Prelude.{◌≡◌, ◌∷◌, [], IfOk, codes, map, string_bytes};

mod drip;
mod files;
mod frames;
mod images;
mod kernels;
mod pools;
mod resumes;
mod rows;

use crate::run::run;
use crate::status::Status;
use crate::tests::drip::{DROP_BYTES, Drip};
use ho_io::MemHost;
use std::alloc::{AllocError, Global};
use std::test::Fail;

// The first path: a file is made, written and preserved, and its session is closed.
const SCRIPT: &[u8] = b"machine 64\n\
scratch 1 8\n\
round\n\
agent a\n\
memfd m 0\n\
write m 0 68656c6c6f\n\
create s\n\
preserve s 7 m\n\
close s\n";

const HISTORY: &[u8] = b"0 1 1 1 reg new_file = Ok f0\n\
0 2 1 1 f0 init memfd 0 0 [] = Ok\n\
0 3 1 1 self done = Ok\n\
0 4 1 2 pool take 0 1 = Got [9]\n\
0 5 1 2 f0 write 0 68656c6c6f [9] = Ok\n\
0 6 1 2 self done = Ok\n\
0 7 1 3 reg create s = Ok s0\n\
0 8 1 3 s0 begin s = Ok\n\
0 9 1 3 self done = Ok\n\
0 10 1 4 reg find_out s = Ok s0\n\
0 11 1 4 f0 pin [] = Ok [9]\n\
0 12 1 4 pool mark 0 [9] = Ok\n\
0 13 1 4 s0 add s 7 f0 0 = Ok\n\
0 14 1 4 self done = Ok\n\
0 15 1 5 reg find_out s = Ok s0\n\
0 16 1 5 f0 unpin = Kept [9]\n\
0 17 1 5 pool unmark 0 [9] = Ok\n\
0 18 1 5 s0 close s = Ok\n\
0 19 1 5 reg drop_name s = Ok\n\
0 20 1 5 self done = Ok\n";

// The words of a run of `s`.
fn run_words(alloc: Global) -> Result<Vec<String>, AllocError>
    ensures { IfOk result (λ words. map string_bytes words.items ≡ codes "run" ∷ codes "s" ∷ []) }
{
    let mut words = Vec::new(alloc);
    words.push(String::from_str(alloc, "run")?)?;
    words.push(String::from_str(alloc, "s")?)?;
    Ok(words)
}

// A host that holds a script as `s`, and whose calls of these numbers fail.
fn host_of(alloc: Global, script: &[u8], fails: &[(u32, u64)]) -> Result<MemHost, AllocError>
    ensures holds { IfOk result (λ host. host.held ≡ (codes "s", script.now) ∷ []) }
    ensures out { IfOk result (λ host. host.out ≡ []) }
{
    let mut holds = Vec::new(alloc);
    holds.push((
        String::from_str(alloc, "s")?,
        Vec::from_slice(alloc, script)?,
    ))?;
    Ok(MemHost::new(holds, Vec::from_slice(alloc, fails)?))
}

// The script with other last words in its line of this number, from 1 on, or with a line behind it.
fn with_line(alloc: Global, number: usize, line: &[u8]) -> Result<Vec<u8>, AllocError> {
    let mut script = Vec::new(alloc);
    let mut at = 1;
    for byte in SCRIPT {
        if at != number {
            script.push(*byte)?;
        }
        if *byte == b'\n' {
            if at == number {
                script.extend_from_slice(line)?;
            }
            at = at.saturating_add(1);
        }
    }
    if at == number {
        script.extend_from_slice(line)?;
    }
    Ok(script)
}

#[test]
fn answers_with_a_status(rt: HostRuntime) -> Result<(), Fail> {
    let alloc = rt.alloc();
    let words = run_words(alloc)?;
    let device = with_line(alloc, 10, b"device d dev0 16\n")?;
    let cases: [(&[u8], Status, &[u8]); 3] = [
        (
            device.as_slice(),
            Status::Script,
            b"script refused: line 10: later\n",
        ),
        (b"", Status::Script, b"script refused: line 1: end\n"),
        (b"machine 64\nscratch 1 8\n", Status::Done, b""),
    ];
    for (script, status, out) in cases {
        let mut host = host_of(alloc, script, [].as_slice())?;
        assert_eq!(rt; run(alloc, words.as_slice(), &mut host), status);
        assert_eq!(rt; host.out(), out);
    }
    Ok(())
}

#[test]
fn answers_with_a_fault(rt: HostRuntime) -> Result<(), Fail> {
    let alloc = rt.alloc();
    let words = run_words(alloc)?;
    let mut unread = host_of(alloc, SCRIPT, [(0, 1)].as_slice())?;
    assert_eq!(rt;
        run(alloc, words.as_slice(), &mut unread),
        Status::ReadFault
    );
    assert_eq!(rt; unread.out().len(), 0);
    let mut unwritten = host_of(alloc, SCRIPT, [(0, 2)].as_slice())?;
    assert_eq!(rt;
        run(alloc, words.as_slice(), &mut unwritten),
        Status::WriteFault
    );
    assert!(rt; HISTORY.starts_with(unwritten.out()));
    Ok(())
}

#[test]
fn answers_words_that_fit_nothing(rt: HostRuntime) -> Result<(), Fail> {
    let alloc = rt.alloc();
    let mut host = host_of(alloc, SCRIPT, [].as_slice())?;
    assert_eq!(rt; run(alloc, &[], &mut host), Status::Usage);
    let words = run_words(alloc)?;
    for word in words.as_slice() {
        let mut alone = Vec::new(alloc);
        alone.push(word.clone()?)?;
        assert_eq!(rt; run(alloc, alone.as_slice(), &mut host), Status::Usage);
    }
    assert!(rt;
        host.out()
            .starts_with(b"usage: handover run SCRIPT".as_slice())
    );
    let mut unwritten = host_of(alloc, SCRIPT, [(0, 1)].as_slice())?;
    assert_eq!(rt; run(alloc, &[], &mut unwritten), Status::WriteFault);
    assert_eq!(rt; unwritten.out().len(), 0);
    Ok(())
}

#[test]
fn stops_where_a_later_write_fails(rt: HostRuntime) -> Result<(), Fail> {
    let alloc = rt.alloc();
    let words = run_words(alloc)?;
    // The first call opens the script, the next three write.
    let host = host_of(alloc, SCRIPT, [(0, 4)].as_slice())?;
    let mut drip = Drip { host };
    assert_eq!(rt; run(alloc, words.as_slice(), &mut drip), Status::WriteFault);
    assert_eq!(rt; drip.host.out(), &HISTORY[..2 * DROP_BYTES]);
    Ok(())
}
