//! What is read of scripts.

use ho_base::name::Name;
use ho_base::numbers::{AgentNo, Blob};
use ho_events::command::Command;
use ho_events::script::Block;
use script_text::read;
use std::alloc::{AllocError, Global};
use std::test::Fail;

/// Whether a name is spelled so.
fn is_named(name: &Name, spelled: &[u8]) -> bool {
    name.as_bytes() == spelled
}

/// Whether a command writes these bytes at the front of the file of this label.
fn writes(command: &Command, bound: &[u8], written: &[u8]) -> bool {
    match command {
        Command::Write(label, offset, bytes) => {
            *offset == 0 && is_named(label, bound) && bytes.as_slice() == written
        }
        _ => false,
    }
}

/// How many commands of some blocks write these bytes at the front of the file of this label.
fn writes_in(blocks: &[Block], bound: &[u8], written: &[u8]) -> u32 {
    let mut count = 0u32;
    for block in blocks {
        if let Block::Round(works) = block {
            for work in works.as_slice() {
                for command in work.commands.as_slice() {
                    if writes(command, bound, written) {
                        count = count.saturating_add(1);
                    }
                }
            }
        }
    }
    count
}

#[test]
fn reads_the_first_path(rt: HostRuntime) -> Result<(), Fail> {
    let text =
        b"machine 64\nscratch 1 8\nround\nagent a\nmemfd m 0\nwrite m 0 68656c6c6f\ncreate s\npreserve s 7 m\nclose s";
    let Ok(script) = read(rt.alloc(), text, true) else {
        assert!(rt; false, "the first path is refused");
        return Ok(());
    };
    let frames = script.shape.as_ref().map(|shape| shape.frames());
    assert_eq!(rt; frames, Some(64));
    assert_eq!(rt; script.agents.len(), 1);
    let blocks = script.blocks.as_slice();
    assert_eq!(rt; blocks.len(), 1);
    let found = sections(rt.alloc(), blocks)?;
    assert_eq!(rt; found.as_slice(), [(AgentNo(1), 1, 5)].as_slice());
    let count = writes_in(blocks, b"m".as_slice(), b"hello".as_slice());
    assert_eq!(rt; count, 1);
    Ok(())
}

/// The agents and the numbers of the first commands and of all commands of the sections of some rounds.
fn sections(alloc: Global, blocks: &[Block]) -> Result<Vec<(AgentNo, u32, usize)>, AllocError> {
    let mut sections = Vec::new(alloc);
    for block in blocks {
        if let Block::Round(works) = block {
            for work in works.as_slice() {
                sections.push((work.agent, work.first, work.commands.len()))?;
            }
        }
    }
    Ok(sections)
}

#[test]
fn numbers_commands_over_rounds(rt: HostRuntime) -> Result<(), Fail> {
    let text =
        b"round\nagent a\nmemfd m 0\nclose s\nround\nagent b\nclose s\nround\nround\nagent a\nread m 0 4";
    let Ok(script) = read(rt.alloc(), text, false) else {
        assert!(rt; false, "the rounds are refused");
        return Ok(());
    };
    assert_eq!(rt; script.agents.len(), 2);
    assert_eq!(rt; script.blocks.len(), 4);
    let expected = [(AgentNo(1), 1, 2), (AgentNo(2), 1, 1), (AgentNo(1), 3, 1)];
    let found = sections(rt.alloc(), script.blocks.as_slice())?;
    assert_eq!(rt; found.as_slice(), expected.as_slice());
    Ok(())
}

/// The blobs of the kexecs among some blocks.
fn blobs(alloc: Global, blocks: &[Block]) -> Result<Vec<Blob>, AllocError> {
    let mut blobs = Vec::new(alloc);
    for block in blocks {
        if let Block::Kexec(blob) = block {
            blobs.push(*blob)?;
        }
    }
    Ok(blobs)
}

/// Whether a command opens the session of this name.
fn opens(command: Option<&Command>, session: &[u8]) -> bool {
    match command {
        Some(Command::Open(name)) => name.as_bytes() == session,
        _ => false,
    }
}

/// Whether a command takes the file of this token of a session and binds this label to it.
fn retrieves(command: Option<&Command>, session: &[u8], number: u64, bound: &[u8]) -> bool {
    match command {
        Some(Command::Retrieve(name, token, label)) => {
            token.0 == number && is_named(name, session) && is_named(label, bound)
        }
        _ => false,
    }
}

/// Whether a command ends the incoming session of this name.
fn finishes(command: Option<&Command>, session: &[u8]) -> bool {
    match command {
        Some(Command::Finish(name)) => name.as_bytes() == session,
        _ => false,
    }
}

#[test]
fn reads_kexecs_and_what_comes_after_one(rt: HostRuntime) -> Result<(), Fail> {
    let text =
        b"kexec 18446744073709551615 16384\nround\nagent a\nopen s\nretrieve t 7 m\nfinish u\nkexec 3 1";
    let Ok(script) = read(rt.alloc(), text, false) else {
        assert!(rt; false, "the kexecs are refused");
        return Ok(());
    };
    assert_eq!(rt; script.blocks.len(), 3);
    let expected = [
        Blob {
            version: u64::MAX,
            frames: 16384,
        },
        Blob {
            version: 3,
            frames: 1,
        },
    ];
    let found = blobs(rt.alloc(), script.blocks.as_slice())?;
    assert_eq!(rt; found.as_slice(), expected.as_slice());
    let found = sections(rt.alloc(), script.blocks.as_slice())?;
    assert_eq!(rt; found.as_slice(), [(AgentNo(1), 1, 3)].as_slice());
    for block in script.blocks.as_slice() {
        if let Block::Round(works) = block {
            for work in works.as_slice() {
                let commands = work.commands.as_slice();
                assert!(rt;
                    opens(commands.get(0), b"s".as_slice()),
                    "the first command isn't open s"
                );
                assert!(rt;
                    retrieves(commands.get(1), b"t".as_slice(), 7, b"m".as_slice()),
                    "the second command isn't retrieve t 7 m"
                );
                assert!(rt;
                    finishes(commands.get(2), b"u".as_slice()),
                    "the third command isn't finish u"
                );
            }
        }
    }
    Ok(())
}
