//! Calls with ample memory, and the system's files and streams once.
use std::alloc::{AllocError, Global};
use std::path::{Path, PathBuf};
use std::test::Fail;
use std::{env, fs, process};
use tp_base::MOST_BYTES;
use tp_io::{
    Files, HostFiles, HostSink, LoadFault, MemFiles, MemSink, Sink, SinkFault, SureFiles, SureSink,
    put_all,
};

// Two entries have one name: the first counts.
static ENTRIES: [(&str, &[u8]); 3] = [("page", b"<p></p>"), ("sheet", b""), ("page", b"<a></a>")];

// Loads one after the other: a name, the answer where the third load fails, the bytes then, and those where none fails.
static LOADS: [(&str, Result<(), LoadFault>, &[u8], &[u8]); 5] = [
    ("page", Ok(()), b"<p></p>", b"<p></p>"),
    ("script", Err(LoadFault::Failed), b"", b""),
    ("page", Err(LoadFault::Failed), b"", b"<p></p>"),
    ("sheet", Ok(()), b"", b""),
    ("page", Ok(()), b"<p></p>", b"<p></p>"),
];

// The put that fails, how many bytes one takes, a piece, the answer, and the bytes that are kept.
static PUTS: [(u64, usize, &[u8], Result<(), SinkFault>, &[u8]); 7] = [
    (0, 1, b"treeped", Ok(()), b"treeped"),
    (0, 3, b"treeped", Ok(()), b"treeped"),
    (0, 100, b"treeped", Ok(()), b"treeped"),
    (0, 0, b"treeped", Err(SinkFault::Failed), b""),
    (2, 3, b"treeped", Err(SinkFault::Failed), b"tre"),
    (2, 100, b"treeped", Ok(()), b"treeped"),
    (1, 0, b"", Ok(()), b""),
];

fn entry(alloc: Global, name: &str, bytes: &[u8]) -> Result<(String, Vec<u8>), AllocError> {
    Ok((
        String::from_str(alloc, name)?,
        Vec::from_slice(alloc, bytes)?,
    ))
}

fn entries(alloc: Global) -> Result<Vec<(String, Vec<u8>)>, AllocError> {
    let mut entries = Vec::new(alloc);
    for (name, bytes) in &ENTRIES {
        entries.push(entry(alloc, name, bytes)?)?;
    }
    Ok(entries)
}

fn answer_of<F: Files>(files: &mut F, alloc: Global, name: &str) -> Result<(), LoadFault> {
    let mut into = Vec::new(alloc);
    files.load(name, &mut into)
}

// Whether a load has this answer, and loads these bytes.
fn loads<F: Files>(
    files: &mut F,
    alloc: Global,
    name: &str,
    answer: Result<(), LoadFault>,
    bytes: &[u8],
) -> bool {
    let mut into = Vec::new(alloc);
    files.load(name, &mut into) == answer && into.as_slice() == bytes
}

fn other_load(files: &mut MemFiles, alloc: Global) -> Option<&'static str> {
    for (name, answer, bytes, _) in &LOADS {
        if !loads(files, alloc, name, *answer, bytes) {
            return Some(*name);
        }
    }
    None
}

fn other_sure_load(files: &mut SureFiles, alloc: Global) -> Option<&'static str> {
    for (name, _, _, bytes) in &LOADS {
        if !loads(files, alloc, name, Ok(()), bytes) {
            return Some(*name);
        }
    }
    None
}

fn files_in_memory(alloc: Global) -> Result<MemFiles, AllocError> {
    let third = Vec::from_slice(alloc, &[3])?;
    Ok(MemFiles::new(alloc, entries(alloc)?, third))
}

// The first name whose load goes otherwise.
fn other_name(alloc: Global) -> Result<Option<&'static str>, AllocError> {
    let mut files = files_in_memory(alloc)?;
    Ok(other_load(&mut files, alloc))
}

fn other_sure_name(alloc: Global) -> Result<Option<&'static str>, AllocError> {
    let mut files = SureFiles::new(alloc, entries(alloc)?);
    Ok(other_sure_load(&mut files, alloc))
}

fn puts(
    alloc: Global,
    fail: u64,
    most: usize,
    piece: &[u8],
    answer: Result<(), SinkFault>,
    kept: &[u8],
) -> Result<bool, AllocError> {
    let fails = Vec::from_slice(alloc, &[fail])?;
    let mut sink = MemSink::new(alloc, fails, most);
    Ok(put_all(&mut sink, piece) == answer && sink.bytes() == kept)
}

// The first put that goes otherwise.
fn other_put(alloc: Global) -> Result<Option<(u64, usize)>, AllocError> {
    for (fail, most, piece, answer, kept) in &PUTS {
        if !puts(alloc, *fail, *most, piece, *answer, kept)? {
            return Ok(Some((*fail, *most)));
        }
    }
    Ok(None)
}

fn puts_surely(alloc: Global) -> bool {
    let mut sink = SureSink::new(alloc);
    put_all(&mut sink, b"treeped") == Ok(())
        && sink.put(b"!") == Ok(1)
        && sink.bytes() == b"treeped!".as_slice()
}

#[test]
fn in_memory(rt: HostRuntime) -> Result<(), Fail> {
    let other = other_name(rt.alloc())?;
    assert!(rt; other.is_none(), "at {other:?}");
    let other = other_sure_name(rt.alloc())?;
    assert!(rt; other.is_none(), "surely at {other:?}");
    let other = other_put(rt.alloc())?;
    assert!(rt; other.is_none(), "at {other:?}");
    assert!(rt; puts_surely(rt.alloc()));
    Ok(())
}

fn file_name(rt: &HostRuntime) -> Result<String, AllocError> {
    format!(in rt.alloc(); "tp_io-{}", process::id(rt.process()))
}

fn file_path(rt: &HostRuntime) -> Result<PathBuf, Fail> {
    let mut path = env::temp_dir(rt)?;
    path.push(file_name(rt)?.as_str())?;
    Ok(path)
}

// Writes so many bytes to a file.
fn file_of(rt: &HostRuntime, path: Path<'_>, count: usize) -> Result<Vec<u8>, Fail> {
    let bytes = vec![in rt.alloc(); b'a'; count]?;
    fs::write(rt, path, bytes.as_slice())?;
    Ok(bytes)
}

fn loads_most<F: Files>(rt: &HostRuntime, files: &mut F, path: Path<'_>) -> Result<bool, Fail> {
    let bytes = file_of(rt, path, MOST_BYTES as usize)?;
    Ok(loads(files, rt.alloc(), path.as_str(), Ok(()), &bytes))
}

fn refuses_more<F: Files>(rt: &HostRuntime, files: &mut F, path: Path<'_>) -> Result<bool, Fail> {
    file_of(rt, path, MOST_BYTES as usize + 1)?;
    Ok(answer_of(files, rt.alloc(), path.as_str()) == Err(LoadFault::TooLarge))
}

fn refuses_gone<F: Files>(rt: &HostRuntime, files: &mut F, path: Path<'_>) -> Result<bool, Fail> {
    fs::remove_file(rt, path)?;
    Ok(answer_of(files, rt.alloc(), path.as_str()) == Err(LoadFault::Failed))
}

// A folder opens, and then can't be read.
fn refuses_folder<F: Files>(rt: &HostRuntime, files: &mut F) -> Result<bool, Fail> {
    let folder = env::temp_dir(rt)?;
    Ok(loads(
        files,
        rt.alloc(),
        folder.as_str(),
        Err(LoadFault::Failed),
        b"",
    ))
}

// A file of the most bytes, of one more, and one that is gone.
fn file_answers<F: Files>(rt: &HostRuntime, files: &mut F) -> Result<(bool, bool, bool), Fail> {
    let path = file_path(rt)?;
    let most = loads_most(rt, files, path.as_path())?;
    let more = refuses_more(rt, files, path.as_path())?;
    let gone = refuses_gone(rt, files, path.as_path())?;
    Ok((most, more, gone))
}

// A file without an end, and a folder.
fn other_answers<F: Files>(rt: &HostRuntime, files: &mut F) -> Result<(bool, bool), Fail> {
    let endless = answer_of(files, rt.alloc(), "/dev/zero") == Err(LoadFault::TooLarge);
    let folder = refuses_folder(rt, files)?;
    Ok((endless, folder))
}

#[test]
fn of_the_system(rt: HostRuntime) -> Result<(), Fail> {
    let mut files = HostFiles::new(rt.alloc(), &rt);
    let answers = file_answers(&rt, &mut files)?;
    assert!(rt; answers == (true, true, true), "{answers:?}");
    let answers = other_answers(&rt, &mut files)?;
    assert!(rt; answers == (true, true), "{answers:?}");
    Ok(())
}

#[test]
fn to_the_streams(rt: HostRuntime) -> Result<(), Fail> {
    assert!(rt; put_all(&mut HostSink::error(rt.stderr()), b"to the error stream\n") == Ok(()));
    assert!(rt;
        put_all(
            &mut HostSink::output(rt.stdout()),
            b"to the output stream\n"
        ) == Ok(())
    );
    Ok(())
}
