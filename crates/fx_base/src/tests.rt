//! The adapters over the host, and each call on files and sinks in memory once.

ghost use Rattle.std.specs.Prelude.{◌≡◌, None, IfOk};

use crate::{
    Failed, Files, Gate, HostFiles, HostSink, MemFiles, MemSink, NamedFile, NoGate, Settings, Sink,
    Turns,
};
use std::alloc::{AllocError, Global};
use std::test::Fail;
use std::{env, fs, io, process};

// A path of this process alone.
fn path_of(rt: &HostRuntime, name: &str) -> io::Result<String> {
    let folder = env::temp_dir(rt)?;
    let folder = folder.to_str().unwrap_or("/tmp");
    let number = process::id(rt.process());
    Ok(format!(in rt.alloc(); "{folder}/fx_base_{number}_{name}")?)
}

#[test]
fn reads_host_files(rt: HostRuntime) -> Result<(), Fail> {
    let path = path_of(&rt, "read")?;
    fs::write(&rt, path.as_str(), "abcde")?;
    let mut files = HostFiles::new(&rt);
    files.open(path.clone()?);
    let mut buf = [0u8; 3];
    assert_eq!(rt; files.read(&mut buf), Ok(3));
    assert_eq!(rt; buf, *b"abc");
    assert_eq!(rt; files.read(&mut buf), Ok(2));
    assert_eq!(rt; [buf[0], buf[1]], *b"de");
    assert_eq!(rt; files.read(&mut buf), Ok(0));
    fs::remove_file(&rt, path.as_str())?;
    let mut files = HostFiles::new(&rt);
    files.open(path);
    assert_eq!(rt; files.read(&mut buf), Err(Failed));
    Ok(())
}

#[test]
fn writes_host_streams(rt: HostRuntime) -> Result<(), Fail> {
    let path = path_of(&rt, "written")?;
    {
        let mut sink = HostSink::new(fs::create(&rt, path.as_str())?);
        assert_eq!(rt; sink.write(b"abc"), Ok(3));
        assert_eq!(rt; sink.write(b""), Ok(0));
        assert_eq!(rt; sink.write(b"de"), Ok(2));
        assert_eq!(rt; sink.flush(), Ok(()));
    }
    let text = fs::read_to_string(&rt, path.as_str())?;
    assert_eq!(rt; text.as_str(), "abcde");
    let mut sink = HostSink::new(fs::open(&rt, path.as_str())?);
    assert_eq!(rt; sink.write(b"f"), Err(Failed));
    fs::remove_file(&rt, path.as_str())?;
    Ok(())
}

fn two_files(alloc: Global) -> Result<MemFiles, AllocError>
    ensures { IfOk result (λ files. files.opened ≡ None) }
{
    let mut files = Vec::new(alloc);
    for bytes in [b"abcd".as_slice(), b"later".as_slice()] {
        files.push(NamedFile {
            name: String::from_str(alloc, "a")?,
            bytes: bytes.to_vec(alloc)?,
        })?;
    }
    Ok(MemFiles::new(files, [1].to_vec(alloc)?))
}

#[test]
fn reads_files_in_memory(rt: HostRuntime) -> Result<(), Fail> {
    let mut files = two_files(rt.alloc())?;
    files.open(String::from_str(rt.alloc(), "a")?);
    let mut buf = [0u8; 3];
    assert_eq!(rt; files.read(&mut buf), Ok(3));
    assert_eq!(rt; buf, *b"abc");
    assert_eq!(rt; files.read(&mut buf), Err(Failed), "the second read fails");
    assert_eq!(rt; files.read(&mut buf), Ok(1));
    assert_eq!(rt; buf[0], b'd');
    assert_eq!(rt; files.read(&mut buf), Ok(0));
    Ok(())
}

#[test]
fn writes_in_memory(rt: HostRuntime) -> Result<(), Fail> {
    let failing = [2].to_vec(rt.alloc())?;
    let mut sink = MemSink::new(rt.alloc(), failing, 2, 4)?;
    assert_eq!(rt; sink.write(b"abc"), Ok(2));
    assert_eq!(rt; sink.write(b""), Ok(0));
    assert_eq!(rt; sink.write(b"c"), Err(Failed), "the third write fails");
    assert_eq!(rt; sink.write(b"cde"), Ok(2));
    assert_eq!(rt; sink.write(b"e"), Err(Failed), "the room is full");
    assert_eq!(rt; sink.flush(), Ok(()));
    assert_eq!(rt; sink.held(), b"abcd".as_slice());
    Ok(())
}

#[test]
fn has_usual_settings(rt: HostRuntime) {
    NoGate.before(0, 0);
    assert_eq!(rt; Settings::usual().domains, 4);
    assert_eq!(rt; Turns::usual().count, 1000);
}
