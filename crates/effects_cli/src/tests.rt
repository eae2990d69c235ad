//! The top call, over files and sinks in memory.

ghost use Rattle.std.specs.Prelude.{◌≡◌, None, IfOk};

use crate::worked::{LARGE, WORKED, Worked};
use effects_top::{Outcome, check_file, compile_file, effects_main, run_file};
use fx_base::{MemFiles, MemSink, NamedFile, NoGate, Refusal, Settings, Turns, Written};
use rv_model::RunEnd;
use std::alloc::{AllocError, Global};
use std::sync::Wait;
use std::test::Fail;
use std::thread::Threads;

/// More bytes than a write or a line here has.
const AMPLE: usize = 16384;

const ANSWER: &str = "let () = print_int (6 * (3 + 4))\n";

// What fails: reads, writes and lines by their numbers; and how many bytes a write takes.
#[derive(Clone, Copy)]
struct Faults {
    reads: &'static [u64],
    writes: &'static [u64],
    most: usize,
    lines: &'static [u64],
}

const NONE: Faults = Faults {
    reads: &[],
    writes: &[],
    most: AMPLE,
    lines: &[],
};

// What a call leaves.
#[derive(Drop)]
struct Left {
    outcome: Outcome,
    out: MemSink,
    err: MemSink,
}

fn words_of(alloc: Global, words: &[&str]) -> Result<Vec<String>, AllocError> {
    let mut all = Vec::new(alloc);
    for word in words {
        all.push(String::from_str(alloc, word)?)?;
    }
    Ok(all)
}

fn one_file(alloc: Global, text: &[u8], failing: &[u64]) -> Result<MemFiles, AllocError>
    ensures { IfOk result (λ files. files.opened ≡ None) }
{
    let mut files = Vec::new(alloc);
    files.push(NamedFile {
        name: String::from_str(alloc, "a.ml")?,
        bytes: text.to_vec(alloc)?,
    })?;
    Ok(MemFiles::new(files, failing.to_vec(alloc)?))
}

fn sink(alloc: Global, failing: &[u64], most: usize) -> Result<MemSink, Refusal> {
    MemSink::new(alloc, failing.to_vec(alloc)?, most, AMPLE)
}

// A call with these words, where the one file, a.ml, has this text.
fn call<R: Threads + Wait>(
    rt: &R,
    alloc: Global,
    words: &[&str],
    text: &[u8],
    faults: Faults,
) -> Result<Left, Refusal> {
    let words = words_of(alloc, words)?;
    let mut files = one_file(alloc, text, faults.reads)?;
    let mut out = sink(alloc, faults.writes, faults.most)?;
    let mut err = sink(alloc, faults.lines, AMPLE)?;
    let outcome = effects_main(rt, alloc, &words, &mut files, &mut out, &mut err, &NoGate);
    Ok(Left { outcome, out, err })
}

#[test]
fn prints_one_number(rt: HostRuntime) -> Result<(), Fail> {
    for (text, printed) in [
        (ANSWER, "42"),
        ("let () = print_int (2 - 3 - 4)", "-5"),
        (
            "let () = print_int (4611686018427387903 + 1)",
            "-4611686018427387904",
        ),
        (
            "let () = print_int (4611686018427387903 * 4611686018427387903)",
            "1",
        ),
        ("let()=print_int 0", "0"),
    ] {
        let left = call(&rt, rt.alloc(), &["run", "a.ml"], text.as_bytes(), NONE)?;
        assert_eq!(rt; left.outcome.status.0, 0, "{text}");
        assert_eq!(rt; left.outcome.written, Some(Written::Whole), "{text}");
        assert!(rt;
            left.outcome.image.is_some() && left.outcome.report.is_some(),
            "{text}"
        );
        assert_eq!(rt; left.out.held(), printed.as_bytes(), "{text}");
        assert_eq!(rt; left.err.held(), b"".as_slice(), "{text}");
    }
    Ok(())
}

#[test]
fn lists_an_image(rt: HostRuntime) -> Result<(), Fail> {
    let head =
        b"image 1048576 131072 1048576 1073741824 4 133216\n00000000 00050463 beq x10, x0, 8\n";
    let last = b"word 7 0000000000100000\nword 10 0000000000000001\nword 11 0000000000000004\n";
    let left = call(&rt, rt.alloc(), &["asm", "a.ml"], ANSWER.as_bytes(), NONE)?;
    assert_eq!(rt; left.outcome.status.0, 0);
    assert_eq!(rt; left.outcome.written, Some(Written::Whole));
    assert!(rt; left.outcome.image.is_some() && left.outcome.report.is_none());
    assert!(rt; left.out.held().starts_with(head));
    assert!(rt; left.out.held().ends_with(last));
    assert_eq!(rt; left.err.held(), b"".as_slice());
    Ok(())
}

#[test]
fn checks_compiles_and_runs_a_file(rt: HostRuntime) -> Result<(), Fail> {
    let mut files = one_file(rt.alloc(), ANSWER.as_bytes(), &[])?;
    let typed = check_file(rt.alloc(), &mut files, "a.ml")?;
    assert_eq!(rt; typed.core().arena().file(), b"a.ml".as_slice());
    let settings = Settings::usual();
    let mut files = one_file(rt.alloc(), ANSWER.as_bytes(), &[])?;
    let image = compile_file(rt.alloc(), &mut files, "a.ml", &settings)?;
    assert_eq!(rt; image.size, 133_216);
    let mut files = one_file(rt.alloc(), ANSWER.as_bytes(), &[])?;
    let mut out = sink(rt.alloc(), &[], AMPLE)?;
    let turns = Turns::usual();
    let ran = run_file(rt.alloc(), &mut files, "a.ml", &settings, turns, &mut out)?;
    assert!(rt; matches!(ran.report.end, RunEnd::Exited(0)));
    assert_eq!(rt; ran.written, Written::Whole);
    assert_eq!(rt; out.held(), b"42".as_slice());
    Ok(())
}

#[test]
fn refuses_texts(rt: HostRuntime) -> Result<(), Fail> {
    for (words, text, (status, line)) in [
        (
            ["run", "a.ml"].as_slice(),
            "let () = print_int6",
            (65, "error: name at 1:10\n"),
        ),
        (
            ["run", "a.ml"].as_slice(),
            "let () = print_int 4611686018427387904",
            (65, "error: syntax at 1:20\n"),
        ),
        (
            ["asm", "a.ml"].as_slice(),
            "let () = print_int (1)) ",
            (65, "error: syntax at 1:23\n"),
        ),
        (
            ["run", "a.ml"].as_slice(),
            "let () = print_int \"a\"",
            (66, "error: type at 1:20\n"),
        ),
        (["run", "b.ml"].as_slice(), ANSWER, (68, "error: file\n")),
        (["check", "b.ml"].as_slice(), ANSWER, (68, "error: file\n")),
    ] {
        let left = call(&rt, rt.alloc(), words, text.as_bytes(), NONE)?;
        assert_eq!(rt; left.outcome.status.0, status, "{text}");
        assert_eq!(rt; left.outcome.written, None, "{text}");
        assert!(rt;
            left.outcome.image.is_none() && left.outcome.report.is_none(),
            "{text}"
        );
        assert_eq!(rt; left.out.held(), b"".as_slice(), "{text}");
        assert_eq!(rt; left.err.held(), line.as_bytes(), "{text}");
    }
    Ok(())
}

// `run a.ml` and further words.
fn run_words<'b>(alloc: Global, options: &[&'b str]) -> Result<Vec<&'b str>, AllocError> {
    let mut words = Vec::new(alloc);
    words.push("run")?;
    words.push("a.ml")?;
    words.extend_from_slice(options)?;
    Ok(words)
}

fn run_worked<R: Threads + Wait>(rt: &R, alloc: Global, worked: &Worked) -> Result<Left, Refusal> {
    let words = run_words(alloc, worked.options)?;
    call(rt, alloc, &words, worked.text.as_bytes(), NONE)
}

// Whether a call left what the program has.
fn is_as_worked(left: &Left, worked: &Worked) -> bool {
    left.outcome.status.0 == worked.status
        && left.out.held() == worked.printed.as_bytes()
        && left.err.held() == worked.line.as_bytes()
}

// The text of the first program of which something else becomes.
fn first_miss<R: Threads + Wait>(
    rt: &R,
    alloc: Global,
    programs: &[Worked],
) -> Result<Option<&'static str>, Refusal> {
    for worked in programs {
        let left = run_worked(rt, alloc, worked)?;
        if !is_as_worked(&left, worked) {
            return Ok(Some(worked.text));
        }
    }
    Ok(None)
}

#[test]
fn runs_worked_programs(rt: HostRuntime) -> Result<(), Fail> {
    assert_eq!(rt; first_miss(&rt, rt.alloc(), WORKED)?, None);
    Ok(())
}

#[test]
fn runs_large_programs(rt: HostRuntime) -> Result<(), Fail> {
    assert_eq!(rt; first_miss(&rt, rt.alloc(), LARGE)?, None);
    Ok(())
}

// What becomes of `demo 2`, and of a file of 1,048,576 blanks: the status, and what is written to the
// output and to standard error.
const DEMO: (u8, &str, &str) = (0, "8", "");

const BLANKS: (u8, &str, &str) = (0, "", "");

const MADE_TWO: &str = "let f0 x = x\nlet f1 x = (2 * f0 x + 1) mod 1000000\n\
                        let f2 x = (2 * f1 x + 2) mod 1000000\nlet () = print_int (f2 1)\n";

#[test]
fn makes_programs(rt: HostRuntime) -> Result<(), Fail> {
    for (words, faults, (status, out, line)) in [
        (["make", "2"], NONE, (0, MADE_TWO, "")),
        (["make", "0000000002"], NONE, (0, MADE_TWO, "")),
        (
            ["make", "2"],
            writing(&[1], 7),
            (69, "let f0 ", "error: output\n"),
        ),
        (["demo", "2"], NONE, DEMO),
    ] {
        let left = call(&rt, rt.alloc(), words.as_slice(), b"", faults)?;
        assert_eq!(rt; left.outcome.status.0, status, "{out}{line}");
        assert_eq!(rt; left.out.held(), out.as_bytes(), "{out}{line}");
        assert_eq!(rt; left.err.held(), line.as_bytes(), "{out}{line}");
    }
    Ok(())
}

#[test]
fn checks_texts(rt: HostRuntime) -> Result<(), Fail> {
    let ok = (0, "ok\n", "");
    for (text, (status, out, line)) in [
        ("", ok),
        (ANSWER, ok),
        (
            "let f x = print_int x; x\nlet () = print_int (f 1 + f 2)\n",
            ok,
        ),
        ("let f0 x = x\n", ok),
        ("let f (a, a) = a", (65, "", "error: name at 1:11\n")),
        ("let () = print_int y", (65, "", "error: name at 1:20\n")),
        ("(* (* *) let () = ()", (65, "", "error: syntax at 1:1\n")),
        ("let x =", (65, "", "error: syntax at 1:8\n")),
        (
            "let x = 4611686018427387904",
            (65, "", "error: syntax at 1:9\n"),
        ),
        (
            "let () = print_int \"a\"",
            (66, "", "error: type at 1:20\n"),
        ),
        ("let f x = x x", (66, "", "error: type at 1:11\n")),
        ("let eq a b = a = b", (66, "", "error: type at 1:16\n")),
    ] {
        let left = call(&rt, rt.alloc(), &["check", "a.ml"], text.as_bytes(), NONE)?;
        assert_eq!(rt; left.outcome.status.0, status, "{text}");
        assert!(rt;
            left.outcome.image.is_none() && left.outcome.report.is_none(),
            "{text}"
        );
        assert_eq!(rt; left.out.held(), out.as_bytes(), "{text}");
        assert_eq!(rt; left.err.held(), line.as_bytes(), "{text}");
    }
    Ok(())
}

// The words of a text that has blanks between them.
fn split<'a>(alloc: Global, line: &'a str) -> Result<Vec<&'a str>, AllocError> {
    let mut words = Vec::new(alloc);
    for word in line.split_whitespace() {
        words.push(word)?;
    }
    Ok(words)
}

#[test]
fn refuses_words(rt: HostRuntime) -> Result<(), Fail> {
    for line in [
        "",
        "run",
        "asm",
        "walk a.ml",
        "run -a.ml",
        "run -- a.ml",
        "run a.ml a.ml",
        "run a.ml --heap",
        "run a.ml --heap x",
        "run a.ml --heap=",
        "run a.ml --heap=+20000",
        "run a.ml --heap 00000020000",
        "run a.ml --heap 16383",
        "run a.ml --heap 16777217",
        "run a.ml --stack 255",
        "run a.ml --stack 1048577",
        "run a.ml --out 1023",
        "run a.ml --out 67108865",
        "run a.ml --budget 0",
        "run a.ml --budget 4294967296",
        "run a.ml --domains 0",
        "run a.ml --domains 9",
        "run a.ml --turns 0",
        "run a.ml --turns 1000001",
        "run a.ml --turn 5",
        "run a.ml --heap 20000 --heap 20000",
        "run a.ml --heap 20000 --heap=20000",
        "asm a.ml --turns 5",
        "check",
        "check -a.ml",
        "check a.ml b.ml",
        "check a.ml --heap 20000",
        "make",
        "make 0",
        "make 501",
        "make 00000000001",
        "make -1",
        "make 1 2",
        "make a.ml",
        "demo",
        "demo 0",
        "demo 501",
        "demo 1 --heap 20000",
    ] {
        let words = split(rt.alloc(), line)?;
        let left = call(&rt, rt.alloc(), &words, ANSWER.as_bytes(), NONE)?;
        assert_eq!(rt; left.outcome.status.0, 64, "{line}");
        assert_eq!(rt; left.out.held(), b"".as_slice(), "{line}");
        assert_eq!(rt; left.err.held(), b"error: usage\n".as_slice(), "{line}");
    }
    Ok(())
}

#[test]
fn takes_options(rt: HostRuntime) -> Result<(), Fail> {
    for (line, status, printed, told) in [
        ("run --heap=16384 a.ml --stack 256", 0, "42", ""),
        ("run a.ml --out 1024 --domains=8 --turns 1", 0, "42", ""),
        ("run a.ml --budget 4294967295 --turns=1000000", 0, "42", ""),
        ("run a.ml --heap 0000016384 --domains 1", 0, "42", ""),
        ("run a.ml --budget 1", 74, "", "error: budget spent 0 1\n"),
    ] {
        let words = split(rt.alloc(), line)?;
        let left = call(&rt, rt.alloc(), &words, ANSWER.as_bytes(), NONE)?;
        assert_eq!(rt; left.outcome.status.0, status, "{line}");
        assert_eq!(rt; left.out.held(), printed.as_bytes(), "{line}");
        assert_eq!(rt; left.err.held(), told.as_bytes(), "{line}");
    }
    Ok(())
}

#[test]
fn refuses_long_files(rt: HostRuntime) -> Result<(), Fail> {
    let long = (67, "", "error: limit source 1048577 1048576\n");
    for (count, (status, out, line)) in [(1_048_576usize, BLANKS), (1_048_577, long)] {
        let blanks = vec![in rt.alloc(); b' '; count]?;
        let left = call(&rt, rt.alloc(), &["run", "a.ml"], &blanks, NONE)?;
        assert_eq!(rt; left.outcome.status.0, status);
        assert_eq!(rt; left.out.held(), out.as_bytes());
        assert_eq!(rt; left.err.held(), line.as_bytes());
    }
    Ok(())
}

fn reading(failing: &'static [u64]) -> Faults {
    Faults {
        reads: failing,
        ..NONE
    }
}

fn writing(failing: &'static [u64], most: usize) -> Faults {
    Faults {
        writes: failing,
        most,
        ..NONE
    }
}

#[test]
fn names_each_fault(rt: HostRuntime) -> Result<(), Fail> {
    let file = (68, "", "error: file\n");
    let output = "error: output\n";
    let answer = (0, "42", "");
    let untold = Faults {
        lines: &[0],
        ..reading(&[0])
    };
    for (faults, (status, printed, line)) in [
        (reading(&[0]), file),
        (reading(&[1]), file),
        (reading(&[2]), answer),
        (writing(&[], 1), answer),
        (writing(&[], 0), (69, "", output)),
        (writing(&[0], AMPLE), (69, "", output)),
        (writing(&[1], 1), (69, "4", output)),
        (writing(&[1], AMPLE), answer),
        (untold, (68, "", "")),
    ] {
        let left = call(&rt, rt.alloc(), &["run", "a.ml"], ANSWER.as_bytes(), faults)?;
        assert_eq!(rt; left.outcome.status.0, status, "{printed}{line}");
        assert_eq!(rt; left.out.held(), printed.as_bytes(), "{printed}{line}");
        assert_eq!(rt; left.err.held(), line.as_bytes(), "{printed}{line}");
    }
    Ok(())
}
