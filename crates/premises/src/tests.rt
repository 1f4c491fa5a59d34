//! Runs on the system's files and streams, each compared with its exit status.
use crate::{exit_code, run};
use std::alloc::{AllocError, Global};
use std::process::ExitCode;
use std::test::Fail;
use std::{env, fs, process};
use tp_io::{HostFiles, HostSink};

fn strings(alloc: Global, words: &[&str]) -> Result<Vec<String>, AllocError> {
    let mut strings = Vec::new(alloc);
    for word in words {
        strings.push(String::from_str(alloc, word)?)?;
    }
    Ok(strings)
}

#[test]
fn ends_with_the_status(rt: HostRuntime) -> Result<(), Fail> {
    let alloc = rt.alloc();
    let mut path = env::temp_dir(&rt)?;
    path.push(format!(in alloc; "premises-{}", process::id(rt.process()))?.as_str())?;
    // One file is the page, in which nothing is found, and the sheet, which has a list with a part that isn't judged.
    fs::write(&rt, path.as_path(), b"<!doctype html>a, b:c{}")?;
    let mut out = HostSink::output(rt.stdout());
    let mut err = HostSink::error(rt.stderr());
    let mut files = HostFiles::new(alloc, &rt);
    let words = strings(alloc, &[path.as_str(), path.as_str()])?;
    let found = exit_code(run(alloc, &words, &mut files, &mut out, &mut err));
    let words = strings(
        alloc,
        &["--except=unknown to some", path.as_str(), path.as_str()],
    )?;
    let clear = exit_code(run(alloc, &words, &mut files, &mut out, &mut err));
    let refused = exit_code(run(alloc, &[], &mut files, &mut out, &mut err));
    let words = strings(alloc, &["/dev/null", "/dev/null/none"])?;
    let unread = exit_code(run(alloc, &words, &mut files, &mut out, &mut err));
    fs::remove_file(&rt, path.as_path())?;
    assert!(rt; found == ExitCode::from(1));
    assert!(rt; clear == ExitCode::from(0));
    assert!(rt; refused == ExitCode::from(2));
    assert!(rt; unread == ExitCode::from(4));
    Ok(())
}
