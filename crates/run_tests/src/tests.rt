//! Runs over each ring, a run in which nothing can fail, and runs whose standard error has its room from the start.
use crate::room_sink::ROOM;
use crate::sure_runs::{errors_of, sure_run};
use std::alloc::{AllocError, Global};
use std::test::Fail;
use tp_io::{MemFiles, MemSink, SureFiles, SureSink};
use treeped_app::treeped;

const NAMES: [&str; 3] = ["page", "sheet", "script"];

fn strings(alloc: Global, texts: &[&str]) -> Result<Vec<String>, AllocError> {
    let mut strings = Vec::new(alloc);
    for text in texts {
        strings.push(String::from_str(alloc, text)?)?;
    }
    Ok(strings)
}

fn entries(alloc: Global, texts: &[&[u8]; 3]) -> Result<Vec<(String, Vec<u8>)>, AllocError> {
    let mut entries = Vec::new(alloc);
    for (name, text) in NAMES.iter().zip(texts) {
        entries.push((
            String::from_str(alloc, name)?,
            Vec::from_slice(alloc, text)?,
        ))?;
    }
    Ok(entries)
}

// Each ring that can be asked for is read, and then there isn't room enough to judge it, unless it is empty.
#[test]
fn each_ring_is_read(rt: HostRuntime) -> Result<(), Fail> {
    let alloc = rt.alloc();
    let mut are_read = true;
    for n in 0..=200u32 {
        let mut words = strings(alloc, &["--nodes=1", "--gen"])?;
        words.push(n.to_string(alloc)?)?;
        let mut files = MemFiles::new(alloc, Vec::new(alloc), Vec::new(alloc));
        let mut out = SureSink::new(alloc);
        let mut err = SureSink::new(alloc);
        let status = treeped(alloc, &words, &mut files, &mut out, &mut err);
        are_read &= status.code() == if n == 0 { 0 } else { 7 };
    }
    assert!(rt; are_read);
    Ok(())
}

// A page whose element has the sheet's class.
const OWN: [&[u8]; 3] = [b"<p class=\"a\"></p>", b".a{}", b""];

const OWN_REPORT: &[u8] = b"treeped 2\n1:1 used 0 .a\n  match /1/0\n";

#[test]
fn runs_where_nothing_fails(rt: HostRuntime) -> Result<(), Fail> {
    let alloc = rt.alloc();
    let words = strings(alloc, &NAMES)?;
    let mut files = SureFiles::new(alloc, entries(alloc, &OWN)?);
    let mut out = SureSink::new(alloc);
    let mut err = SureSink::new(alloc);
    let status = sure_run(alloc, &words, &mut files, &mut out, &mut err);
    assert!(rt; status.code() == 0, "status {status:?}");
    assert!(rt; out.bytes() == OWN_REPORT);
    assert!(rt; err.bytes().is_empty());
    Ok(())
}

// Standard output takes nothing of the report.
#[test]
fn a_failed_write_is_heard(rt: HostRuntime) -> Result<(), Fail> {
    let alloc = rt.alloc();
    let words = strings(alloc, &NAMES)?;
    let mut files = SureFiles::new(alloc, entries(alloc, &OWN)?);
    let mut out = MemSink::new(alloc, Vec::from_slice(alloc, &[1])?, 100);
    let (status, errors) = errors_of(alloc, &words, &mut files, &mut out)?;
    assert!(rt; status.code() == 5, "status {status:?}");
    assert!(rt; errors.as_slice() == b"treeped: write fault\n".as_slice());
    Ok(())
}

// The line would name a call whose name is longer than the room.
#[test]
fn a_full_sink_takes_no_more(rt: HostRuntime) -> Result<(), Fail> {
    let alloc = rt.alloc();
    let words = strings(alloc, &NAMES)?;
    let mut script = Vec::from_slice(alloc, b"$('p').")?;
    for _ in 0..ROOM {
        script.push(b'a')?;
    }
    script.extend_from_slice(b"();")?;
    let texts: [&[u8]; 3] = [b"<p>", b"p{}", script.as_slice()];
    let mut files = SureFiles::new(alloc, entries(alloc, &texts)?);
    let mut out = SureSink::new(alloc);
    let (status, errors) = errors_of(alloc, &words, &mut files, &mut out)?;
    assert!(rt; status.code() == 5, "status {status:?}");
    assert!(rt; errors.len() == ROOM);
    assert!(rt; errors.starts_with(b"treeped: script: unknown call aaa"));
    Ok(())
}
