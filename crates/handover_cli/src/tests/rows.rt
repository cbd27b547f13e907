//! Worked histories: the exact text, and that by the definitions it is the text of a legal history.

ghost use Rattle.std.specs.Prelude.{IfOk, IsTrue};
ghost use Rattle.handover_cli.specs.Shown.{IsHistoryOf};

use crate::run::run;
use crate::status::Status;
use crate::tests::{HISTORY, SCRIPT, host_of, run_words};
use std::alloc::{AllocError, Global};
use std::test::Fail;

// A second file under a token that the session lists already.
const TOKEN_TWICE: &[u8] = b"machine 64\n\
scratch 1 8\n\
round\n\
agent a\n\
memfd m 0\n\
memfd n 0\n\
create s\n\
preserve s 7 m\n\
preserve s 7 n\n";

const TOKEN_TAKEN: &[u8] = b"0 1 1 1 reg new_file = Ok f0\n\
0 2 1 1 f0 init memfd 0 0 [] = Ok\n\
0 3 1 1 self done = Ok\n\
0 4 1 2 reg new_file = Ok f1\n\
0 5 1 2 f1 init memfd 0 0 [] = Ok\n\
0 6 1 2 self done = Ok\n\
0 7 1 3 reg create s = Ok s0\n\
0 8 1 3 s0 begin s = Ok\n\
0 9 1 3 self done = Ok\n\
0 10 1 4 reg find_out s = Ok s0\n\
0 11 1 4 f0 pin [] = Ok []\n\
0 12 1 4 s0 add s 7 f0 0 = Ok\n\
0 13 1 4 self done = Ok\n\
0 14 1 5 reg find_out s = Ok s0\n\
0 15 1 5 s0 add s 7 f1 0 = TokenTaken\n\
0 16 1 5 self done = TokenTaken\n";

// The first path where no frame is free: all but frame 0 are scratch. The file has no bytes then.
const NO_FRAME: &[u8] = b"machine 64\n\
scratch 1 63\n\
round\n\
agent a\n\
memfd m 0\n\
write m 0 68656c6c6f\n\
create s\n\
preserve s 7 m\n\
close s\n";

const NO_FRAMES: &[u8] = b"0 1 1 1 reg new_file = Ok f0\n\
0 2 1 1 f0 init memfd 0 0 [] = Ok\n\
0 3 1 1 self done = Ok\n\
0 4 1 2 pool take 0 1 = NoFrames\n\
0 5 1 2 f0 write 0 68656c6c6f [] = NoFrames 1\n\
0 6 1 2 self done = NoFrames\n\
0 7 1 3 reg create s = Ok s0\n\
0 8 1 3 s0 begin s = Ok\n\
0 9 1 3 self done = Ok\n\
0 10 1 4 reg find_out s = Ok s0\n\
0 11 1 4 f0 pin [] = Ok []\n\
0 12 1 4 s0 add s 7 f0 0 = Ok\n\
0 13 1 4 self done = Ok\n\
0 14 1 5 reg find_out s = Ok s0\n\
0 15 1 5 f0 unpin = Kept []\n\
0 16 1 5 s0 close s = Ok\n\
0 17 1 5 reg drop_name s = Ok\n\
0 18 1 5 self done = Ok\n";

// A label ends while a session has its file; the session's end gives the file up then, and its name is free again.
const CLOSED_LABEL: &[u8] = b"machine 64\n\
scratch 1 8\n\
round\n\
agent a\n\
memfd m 0\n\
write m 0 68656c6c6f\n\
create s\n\
preserve s 7 m\n\
closefd m\n\
close s\n\
create s\n";

const LABEL_CLOSED: &[u8] = b"0 1 1 1 reg new_file = Ok f0\n\
0 2 1 1 f0 init memfd 0 0 [] = Ok\n\
0 3 1 1 self done = Ok\n\
0 4 1 2 pool take 0 1 = Got [9]\n\
0 5 1 2 f0 write 0 68656c6c6f [9] = Ok\n\
0 6 1 2 self done = Ok\n\
0 7 1 3 reg create s = Ok s0\n\
0 8 1 3 s0 begin s = Ok\n\
0 9 1 3 self done = Ok\n\
0 10 1 4 reg find_out s = Ok s0\n\
0 11 1 4 f0 pin [] = Ok [9]\n\
0 12 1 4 pool mark 0 [9] = Ok\n\
0 13 1 4 s0 add s 7 f0 0 = Ok\n\
0 14 1 4 self done = Ok\n\
0 15 1 5 f0 close_fd = Kept\n\
0 16 1 5 self done = Ok\n\
0 17 1 6 reg find_out s = Ok s0\n\
0 18 1 6 f0 unpin = Gone [9]\n\
0 19 1 6 pool unmark 0 [9] = Ok\n\
0 20 1 6 pool give 0 [9] = Ok\n\
0 21 1 6 reg free_file f0 = Ok\n\
0 22 1 6 s0 close s = Ok\n\
0 23 1 6 reg drop_name s = Ok\n\
0 24 1 6 self done = Ok\n\
0 25 1 7 reg create s = Ok s0\n\
0 26 1 7 s0 begin s = Ok\n\
0 27 1 7 self done = Ok\n";

// A file that outlives its kernel.
const KEXEC: &[u8] = b"machine 64\n\
scratch 1 8\n\
round\n\
agent a\n\
memfd m 0\n\
write m 0 68656c6c6f\n\
create s\n\
preserve s 7 m\n\
kexec 1 4\n\
round\n\
agent a\n\
open s\n\
retrieve s 7 r\n\
read r 0 5\n\
finish s\n";

const KERNELS: &[u8] = b"0 1 1 1 reg new_file = Ok f0\n\
0 2 1 1 f0 init memfd 0 0 [] = Ok\n\
0 3 1 1 self done = Ok\n\
0 4 1 2 pool take 0 1 = Got [9]\n\
0 5 1 2 f0 write 0 68656c6c6f [9] = Ok\n\
0 6 1 2 self done = Ok\n\
0 7 1 3 reg create s = Ok s0\n\
0 8 1 3 s0 begin s = Ok\n\
0 9 1 3 self done = Ok\n\
0 10 1 4 reg find_out s = Ok s0\n\
0 11 1 4 f0 pin [] = Ok [9]\n\
0 12 1 4 pool mark 0 [9] = Ok\n\
0 13 1 4 s0 add s 7 f0 0 = Ok\n\
0 14 1 4 self done = Ok\n\
0 15 0 1 pool take 0 6 = Got [10,11,12,13,14,15]\n\
0 16 0 1 self done = Ok\n\
1 1 1 5 reg open s = Ok s16\n\
1 2 1 5 s16 open s = Ok\n\
1 3 1 5 self done = Ok\n\
1 4 1 6 reg find_in s = Ok s16\n\
1 5 1 6 f0 open_held = Ok\n\
1 6 1 6 s16 take s 7 = Ok f0\n\
1 7 1 6 self done = Ok\n\
1 8 1 7 f0 read 0 5 = Ok 68656c6c6f\n\
1 9 1 7 self done = Ok 68656c6c6f\n\
1 10 1 8 reg find_in s = Ok s16\n\
1 11 1 8 f0 finish = Kept\n\
1 12 1 8 s16 finish s = Ok\n\
1 13 1 8 reg drop_in s = Ok\n\
1 14 1 8 self done = Ok\n";

// A file that is never retrieved, a program that is too large, and a kernel that carries nothing.
const NOT_RETRIEVED: &[u8] = b"machine 64\n\
scratch 1 8\n\
round\n\
agent a\n\
memfd m 0\n\
write m 0 68656c6c6f\n\
create s\n\
preserve s 7 m\n\
write m 0 4a\n\
kexec 1 4\n\
round\n\
agent a\n\
open s\n\
finish s\n\
kexec 2 9\n\
kexec 2 4\n\
round\n\
agent a\n\
open s\n";

const FINISHED: &[u8] = b"0 1 1 1 reg new_file = Ok f0\n\
0 2 1 1 f0 init memfd 0 0 [] = Ok\n\
0 3 1 1 self done = Ok\n\
0 4 1 2 pool take 0 1 = Got [9]\n\
0 5 1 2 f0 write 0 68656c6c6f [9] = Ok\n\
0 6 1 2 self done = Ok\n\
0 7 1 3 reg create s = Ok s0\n\
0 8 1 3 s0 begin s = Ok\n\
0 9 1 3 self done = Ok\n\
0 10 1 4 reg find_out s = Ok s0\n\
0 11 1 4 f0 pin [] = Ok [9]\n\
0 12 1 4 pool mark 0 [9] = Ok\n\
0 13 1 4 s0 add s 7 f0 0 = Ok\n\
0 14 1 4 self done = Ok\n\
0 15 1 5 f0 write 0 4a [] = Ok\n\
0 16 1 5 self done = Ok\n\
0 17 0 1 pool take 0 6 = Got [10,11,12,13,14,15]\n\
0 18 0 1 self done = Ok\n\
1 1 1 6 reg open s = Ok s16\n\
1 2 1 6 s16 open s = Ok\n\
1 3 1 6 self done = Ok\n\
1 4 1 7 reg find_in s = Ok s16\n\
1 5 1 7 f0 finish = Gone [9]\n\
1 6 1 7 pool give 0 [9] = Ok\n\
1 7 1 7 reg free_file f0 = Ok\n\
1 8 1 7 s16 finish s = Ok\n\
1 9 1 7 reg drop_in s = Ok\n\
1 10 1 7 self done = Ok\n\
1 11 0 2 self done = ScratchSmall 9 8\n\
1 12 0 3 pool take 0 4 = Got [9,10,11,12]\n\
1 13 0 3 self done = Ok\n\
2 1 1 8 reg open s = NoSession\n\
2 2 1 8 self done = NoSession\n";

// Whether a script, run in memory, has exactly this output. Where it has, the definitions say of this text that it is the
// text of a legal history of the script.
fn has_history(alloc: Global, script: &[u8], history: &[u8]) -> Result<bool, AllocError>
    ensures { IfOk result (λ has. IsTrue has → IsHistoryOf script.now history.now) }
{
    let words = run_words(alloc)?;
    let mut host = host_of(alloc, script, [].as_slice())?;
    match run(alloc, words.as_slice(), &mut host) {
        Status::Done => Ok(host.out() == history),
        _ => Ok(false),
    }
}

#[test]
fn the_first_path_is_legal(rt: HostRuntime) -> Result<(), Fail> {
    assert!(rt; has_history(rt.alloc(), SCRIPT, HISTORY)?);
    Ok(())
}

#[test]
fn the_first_path_without_a_free_frame_is_legal(rt: HostRuntime) -> Result<(), Fail> {
    assert!(rt; has_history(rt.alloc(), NO_FRAME, NO_FRAMES)?);
    Ok(())
}

#[test]
fn a_token_twice_is_legal(rt: HostRuntime) -> Result<(), Fail> {
    assert!(rt; has_history(rt.alloc(), TOKEN_TWICE, TOKEN_TAKEN)?);
    Ok(())
}

#[test]
fn a_closed_label_is_legal(rt: HostRuntime) -> Result<(), Fail> {
    assert!(rt; has_history(rt.alloc(), CLOSED_LABEL, LABEL_CLOSED)?);
    Ok(())
}

#[test]
fn a_file_that_outlives_its_kernel_is_legal(rt: HostRuntime) -> Result<(), Fail> {
    assert!(rt; has_history(rt.alloc(), KEXEC, KERNELS)?);
    Ok(())
}

#[test]
fn a_file_that_nobody_retrieves_is_legal(rt: HostRuntime) -> Result<(), Fail> {
    assert!(rt; has_history(rt.alloc(), NOT_RETRIEVED, FINISHED)?);
    Ok(())
}
