//! Why lines of a script are refused.

use script_text::{Reason, ScriptError, read};
use std::alloc::{AllocError, Global};
use std::test::Fail;

/// The head of a fresh script, up to its first agent: four lines.
const HEAD: &str = "machine 64\nscratch 1 8\nround\nagent a\n";

/// The first refused line of a text and why; none where it is read.
fn refusal(alloc: Global, text: &str, fresh: bool) -> Option<(u32, Reason)> {
    if text.len() >= u32::MAX as usize {
        return None;
    }
    match read(alloc, text.as_bytes(), fresh) {
        Err(ScriptError::Bad { line, reason }) => Some((line, reason)),
        Err(ScriptError::Memory) => Some((0, Reason::End)),
        Ok(_) => None,
    }
}

#[test]
fn gives_the_first_reason_of_a_head(rt: HostRuntime) -> Result<(), Fail> {
    let texts = [
        ("", Some((1, Reason::End))),
        ("# only\n\n# comments", Some((4, Reason::End))),
        ("machine 64", Some((2, Reason::End))),
        ("machine 32\nscratch 1 1", None),
        (
            "# first\n\n \t \n  machine\t\t00000000000000000064  \nscratch 1 8\nscratch 9 8\nround\n",
            None,
        ),
        ("# \x7f", Some((1, Reason::Byte))),
        ("machine 64\r\nscratch 1 8", Some((1, Reason::Byte))),
        ("Machine 64", Some((1, Reason::Word))),
        ("machine 64 64", Some((1, Reason::Count))),
        ("machine 31", Some((1, Reason::Number))),
        ("machine 000000000000000000064", Some((1, Reason::Number))),
        ("machine 18446744073709551648", Some((1, Reason::Number))),
        ("scratch 1 8", Some((1, Reason::Place))),
        ("machine 64\nmachine 64", Some((2, Reason::Place))),
        ("machine 64\nround", Some((2, Reason::Place))),
        (
            "machine 64\nscratch 1 1\nscratch 2 1\nscratch 3 1\nscratch 4 1\nscratch 5 1",
            Some((6, Reason::Place)),
        ),
        ("machine 64\nscratch 0 8", Some((2, Reason::Shape))),
        (
            "machine 64\nscratch 1 8\nscratch 8 8",
            Some((3, Reason::Shape)),
        ),
        ("machine 64\nscratch 1 8\nround\nround", None),
        ("machine 64\nkexec 1 4", Some((2, Reason::Place))),
        ("machine 64\nscratch 1 8\nkexec 1 4\nkexec 2 4", None),
        (
            "machine 64\nscratch 1 8\nkexec 1 4\nscratch 9 8",
            Some((4, Reason::Place)),
        ),
        (
            "machine 64\nscratch 1 8\nkexec 1 4\nclose s",
            Some((4, Reason::Place)),
        ),
        (
            "machine 64\nscratch 1 8\nfail 0 dev0 freeze",
            Some((3, Reason::Later)),
        ),
        (
            "machine 64\nscratch 1 8\nround\nagent a/b",
            Some((4, Reason::Name)),
        ),
        (
            "machine 64\nscratch 1 8\nround\nmemfd m 0",
            Some((4, Reason::Place)),
        ),
    ];
    for (text, expected) in texts {
        assert_eq!(rt; refusal(rt.alloc(), text, true), expected, "at {text}");
    }
    let resumed = [
        ("", None),
        ("round\nagent a\ncreate s", None),
        ("machine 64", Some((1, Reason::Place))),
        ("scratch 1 8", Some((1, Reason::Place))),
    ];
    for (text, expected) in resumed {
        assert_eq!(rt; refusal(rt.alloc(), text, false), expected, "at {text}");
    }
    Ok(())
}

#[test]
fn gives_the_first_reason_of_a_command(rt: HostRuntime) -> Result<(), Fail> {
    let texts = [
        (
            "memfd m 0\nwrite m 4094 fFaA\npreserve s 18446744073709551615 m\ncreate s\nclose s\nclose s",
            None,
        ),
        ("agent b", Some((5, Reason::Later))),
        ("agent a", Some((5, Reason::Place))),
        ("memfd m 9", None),
        ("memfd m 10", Some((5, Reason::Number))),
        ("memfd m/ 10", Some((5, Reason::Name))),
        ("memfd m", Some((5, Reason::Count))),
        ("memfd m 0\nmemfd n 0", None),
        ("memfd m 0\nmemfd m 1", Some((6, Reason::Label))),
        ("write m 0 68", None),
        ("memfd m 0\nwrite m 0 6", Some((6, Reason::Hex))),
        ("memfd m 0\nwrite m 0 6g", Some((6, Reason::Hex))),
        (
            "memfd m 0\nwrite m 4294967296 6g",
            Some((6, Reason::Number)),
        ),
        (
            "memfd m 0\nwrite m 4294967295 6868\nfill m 0 4294967295 255",
            None,
        ),
        ("fill m 0 0 1", Some((5, Reason::Number))),
        ("truncate m 4294967295\nseek m 0\ntell m", None),
        ("read m 4294967295 4096\nread m 0 0", None),
        ("read m 0 4097", Some((5, Reason::Number))),
        ("read m 0", Some((5, Reason::Count))),
        ("create s\ncreate t", None),
        ("preserve s 7 m", None),
        (
            "preserve s 18446744073709551616 m/",
            Some((5, Reason::Number)),
        ),
        (
            "preserve s 18446744073709551615 m/",
            Some((5, Reason::Name)),
        ),
        ("memfd m 0\npreserve s 7 m\nwrite m 0 68", None),
        ("memfd m 0\npreserve s 7 m\npreserve s 8 m", None),
        ("closefd m\nmemfd m 0\nclosefd m\nwrite m 0 68", None),
        ("memfd m 0\nclosefd m\nmemfd m 0", Some((7, Reason::Label))),
        ("closefd", Some((5, Reason::Count))),
        ("closefd m/", Some((5, Reason::Name))),
        ("tell", Some((5, Reason::Count))),
        ("device d dev0 16", Some((5, Reason::Later))),
        (
            "open s\nretrieve s 18446744073709551615 m\nfinish s\nfinish s",
            None,
        ),
        ("open", Some((5, Reason::Count))),
        ("open s/", Some((5, Reason::Name))),
        ("retrieve s 7", Some((5, Reason::Count))),
        ("retrieve s/ 7 m", Some((5, Reason::Name))),
        (
            "retrieve s 18446744073709551616 m/",
            Some((5, Reason::Number)),
        ),
        ("retrieve s 7 m/", Some((5, Reason::Name))),
        ("memfd m 0\nretrieve s 7 m", Some((6, Reason::Label))),
        ("retrieve s 7 m\nmemfd m 0", Some((6, Reason::Label))),
        ("finish s s", Some((5, Reason::Count))),
        ("finish s/", Some((5, Reason::Name))),
        (
            "create nnnnnnnnnnnnnnnnnnnnnnnnnnnnnnnnnnnnnnnnnnnnnnnnnnnnnnnnnnnnnnnn",
            Some((5, Reason::Name)),
        ),
    ];
    for (text, expected) in texts {
        let whole = format!(in rt.alloc(); "{HEAD}{text}")?;
        assert_eq!(rt;
            refusal(rt.alloc(), whole.as_str(), true),
            expected,
            "at {text}"
        );
    }
    Ok(())
}

#[test]
fn gives_the_first_reason_of_a_later_round(rt: HostRuntime) -> Result<(), Fail> {
    let texts = [
        ("round\nround\nagent b\nround\nagent a\nclose s", None),
        ("round\nagent b\nagent c", Some((7, Reason::Later))),
        ("round\nagent b\nagent b", Some((7, Reason::Place))),
        ("round\nclose s", Some((6, Reason::Place))),
        ("memfd m 0\nround\nagent b\nmemfd m 0", None),
        (
            "memfd m 0\nround\nagent a\nmemfd m 0",
            Some((8, Reason::Label)),
        ),
        ("round\nkexec 1 4", None),
        (
            "kexec 18446744073709551615 16384\nround\nagent a\nopen s",
            None,
        ),
        ("kexec 1 0", Some((5, Reason::Number))),
        ("kexec 1 16385", Some((5, Reason::Number))),
        ("kexec 18446744073709551616 1", Some((5, Reason::Number))),
        ("kexec 1", Some((5, Reason::Count))),
        ("kexec 1 4\nclose s", Some((6, Reason::Place))),
        ("kexec 1 4\nagent a", Some((6, Reason::Place))),
    ];
    for (text, expected) in texts {
        let whole = format!(in rt.alloc(); "{HEAD}{text}")?;
        assert_eq!(rt;
            refusal(rt.alloc(), whole.as_str(), true),
            expected,
            "at {text}"
        );
    }
    Ok(())
}

/// A head with a line, so many times.
fn with_lines(alloc: Global, line: &str, times: u32) -> Result<String, AllocError> {
    let mut text = String::from_str(alloc, HEAD)?;
    for _ in 0..times {
        text.push_str(line)?;
    }
    Ok(text)
}

#[test]
fn reads_4096_commands_64_rounds_and_8_kexecs_and_no_more(rt: HostRuntime) -> Result<(), Fail> {
    let cases = [
        ("close s\n", 4096, None),
        ("close s\n", 4097, Some((4101, Reason::Limit))),
        ("round\n", 63, None),
        ("round\n", 64, Some((68, Reason::Limit))),
        ("kexec 1 4\n", 8, None),
        ("kexec 1 4\n", 9, Some((13, Reason::Limit))),
    ];
    for (line, times, expected) in cases {
        let text = with_lines(rt.alloc(), line, times)?;
        assert_eq!(rt;
            refusal(rt.alloc(), text.as_str(), true),
            expected,
            "at {times} of {line}"
        );
    }
    Ok(())
}
