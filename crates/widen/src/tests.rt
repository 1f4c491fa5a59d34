//! Runs over the system's files and streams, each with the status that the process would end with.
use crate::{exit_code, run};
use std::alloc::{AllocError, Global};
use std::process::ExitCode;
use std::test::Fail;
use std::{env, fs, process};
use tp_io::{HostFiles, HostSink};

fn strings(alloc: Global, words: &[&str]) -> Result<Vec<String>, AllocError> {
    let mut strings = Vec::new(alloc);
    for word in words {
        strings.push(String::from_str(alloc, word)?)?;
    }
    Ok(strings)
}

#[test]
fn ends_with_the_status(rt: HostRuntime) -> Result<(), Fail> {
    let alloc = rt.alloc();
    let mut path = env::temp_dir(&rt)?;
    path.push(format!(in alloc; "widen-{}", process::id(rt.process()))?.as_str())?;
    fs::write(&rt, path.as_path(), b".a:not(.b){}")?;
    let mut out = HostSink::output(rt.stdout());
    let mut err = HostSink::error(rt.stderr());
    let mut files = HostFiles::new(alloc, &rt);
    let found = strings(alloc, &[path.as_str()])?;
    let changed = exit_code(run(alloc, &found, &mut files, &mut out, &mut err));
    let found = strings(alloc, &["--back", path.as_str()])?;
    let same = exit_code(run(alloc, &found, &mut files, &mut out, &mut err));
    let refused = exit_code(run(alloc, &[], &mut files, &mut out, &mut err));
    let missing = strings(alloc, &["/dev/null/none"])?;
    let unread = exit_code(run(alloc, &missing, &mut files, &mut out, &mut err));
    fs::remove_file(&rt, path.as_path())?;
    assert!(rt; changed == ExitCode::from(1));
    assert!(rt; same == ExitCode::from(0));
    assert!(rt; refused == ExitCode::from(2));
    assert!(rt; unread == ExitCode::from(4));
    Ok(())
}
