//! Tables of command lines: what each asks for.

use crate::words::{Request, asked};
use std::alloc::{AllocError, Global};

// The words of a line, which single spaces part.
fn words_of(alloc: Global, line: &str) -> Result<Vec<String>, AllocError> {
    let mut words = Vec::new(alloc);
    for word in line.split(' ') {
        words.push(String::from_str(alloc, word)?)?;
    }
    Ok(words)
}

// A run of a script.
fn run<'a>(script: &'a str, images: Option<&'a str>, summary: Option<&'a str>) -> Request<'a> {
    Request::Run {
        script,
        images,
        summary,
    }
}

// A run that goes on from an image.
fn resume<'a>(images: Option<&'a str>, summary: Option<&'a str>) -> Request<'a> {
    Request::Resume {
        image: "i",
        script: "s",
        images,
        summary,
    }
}

#[test]
fn lines_that_fit(rt: HostRuntime) -> Result<(), AllocError> {
    let both = resume(Some("f"), Some("t"));
    let cases = [
        ("run s", run("s", None, None)),
        ("run a/b.script", run("a/b.script", None, None)),
        ("run s --images f", run("s", Some("f"), None)),
        ("run s --images=f", run("s", Some("f"), None)),
        ("run --images f s", run("s", Some("f"), None)),
        ("run --images=f s", run("s", Some("f"), None)),
        ("run s --summary t", run("s", None, Some("t"))),
        ("run --summary=t s", run("s", None, Some("t"))),
        (
            "run --images f s --summary t",
            run("s", Some("f"), Some("t")),
        ),
        (
            "run --summary t --images=f s",
            run("s", Some("f"), Some("t")),
        ),
        ("run s --images run", run("s", Some("run"), None)),
        ("run s --images=a=b", run("s", Some("a=b"), None)),
        ("run -- s", run("s", None, None)),
        ("run s --", run("s", None, None)),
        ("run --images f -- s", run("s", Some("f"), None)),
        ("run run", run("run", None, None)),
        ("run =", run("=", None, None)),
        ("resume i s", resume(None, None)),
        ("resume i --images f s --summary=t", both),
        ("resume --summary t --images f i s", both),
        ("resume --images=f --summary=t -- i s", both),
        ("resume i -- s", resume(None, None)),
        (
            "audit s h",
            Request::Audit {
                script: "s",
                history: "h",
            },
        ),
        (
            "audit -- s h",
            Request::Audit {
                script: "s",
                history: "h",
            },
        ),
        ("inspect i", Request::Inspect { image: "i" }),
        ("inspect -- i", Request::Inspect { image: "i" }),
        ("gen 0", Request::Gen { number: 0 }),
        ("gen 7", Request::Gen { number: 7 }),
        ("gen 007", Request::Gen { number: 7 }),
        ("gen -- 7", Request::Gen { number: 7 }),
        ("gen 00000000000000000007", Request::Gen { number: 7 }),
        (
            "gen 18446744073709551615",
            Request::Gen {
                number: 18_446_744_073_709_551_615,
            },
        ),
    ];
    for (line, want) in cases {
        let words = words_of(rt.alloc(), line)?;
        assert!(rt; asked(words.as_slice()) == Some(want), "{line}");
    }
    Ok(())
}

#[test]
fn lines_that_fit_nothing(rt: HostRuntime) -> Result<(), AllocError> {
    assert!(rt; asked(&[]) == None);
    let lines = [
        // No command, and no name.
        "",
        "walk s",
        "Run s",
        "runs s",
        "-- run s",
        "--images f run s",
        "run",
        "run --",
        "resume",
        "resume i",
        "audit s",
        "inspect",
        "gen",
        // One name too many.
        "run s t",
        "run -- s t",
        "resume i s t",
        "audit s h x",
        "inspect i j",
        "gen 7 8",
        // Names that are empty or begin with `-`.
        "run ",
        "run -",
        "run -s",
        "run -- -s",
        "run -- --",
        "run -- --images f",
        "resume i -s",
        "audit s ",
        "inspect -i",
        "gen -7",
        // Options that are unknown, that stand twice or without a value, or whose value is empty or begins with `-`.
        "run s --help",
        "run s --image f",
        "run s --images",
        "run s --summary",
        "run s --images=",
        "run s --images ",
        "run s --images -f",
        "run s --images=--images=f",
        "run s --images=-f",
        "run s --images --",
        "run s --images --summary t",
        "run s --images f --images f",
        "run s --images=f --images f",
        "run s --summary t --summary=t",
        "run --images f",
        "run s --imagesf",
        "run s -images f",
        "resume i s --images",
        "audit s h --images f",
        "audit s h --summary=t",
        "inspect i --images=f",
        "gen 7 --summary t",
        // Words that are no numbers, or too large ones.
        "gen +7",
        "gen 7.",
        "gen 0x7",
        "gen seven",
        "gen 18446744073709551616",
        "gen 99999999999999999999",
        "gen 000000000000000000007",
    ];
    for line in lines {
        let words = words_of(rt.alloc(), line)?;
        assert!(rt; asked(words.as_slice()) == None, "{line}");
    }
    Ok(())
}
