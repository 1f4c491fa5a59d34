//! The files of an example, and which of its loads and puts fail.
use row_text::bytes_of;
use std::alloc::{AllocError, Global};

/// How many bytes a put on `err` takes, and one on `out` where nothing else is said.
pub(crate) const MOST: usize = 100;

/// The files and faults of a run.
#[derive(Drop)]
pub(crate) struct Example {
    alloc: Global,
    pub(crate) files: Vec<(String, Vec<u8>)>,
    pub(crate) loads: Vec<u64>,
    pub(crate) puts: Vec<u64>,
    pub(crate) errors: Vec<u64>,
    pub(crate) most: usize,
    // Whether a file's lines follow, and whether it has one.
    in_file: bool,
    has_line: bool,
}

impl Example {
    pub(crate) fn new(alloc: Global) -> Example {
        Example {
            alloc,
            files: Vec::new(alloc),
            loads: Vec::new(alloc),
            puts: Vec::new(alloc),
            errors: Vec::new(alloc),
            most: MOST,
            in_file: false,
            has_line: false,
        }
    }

    /// Takes a line that runs nothing, and says whether it is to be printed.
    pub(crate) fn take(&mut self, line: &str) -> Result<bool, AllocError> {
        if line.starts_with("== ") {
            self.begin();
            return Ok(true);
        }
        match line.strip_prefix("-- ") {
            Some(said) => self.take_said(said),
            None => self.take_text(line),
        }
    }

    fn begin(&mut self) {
        self.files.clear();
        self.loads.clear();
        self.puts.clear();
        self.errors.clear();
        self.most = MOST;
        self.in_file = false;
    }

    fn take_said(&mut self, said: &str) -> Result<bool, AllocError> {
        self.end_file();
        match said.split_once(' ') {
            Some(("file", name)) => {
                self.begin_file(name)?;
                Ok(false)
            }
            Some((what, numbers)) => {
                self.fail(what, numbers)?;
                Ok(true)
            }
            None => Ok(true),
        }
    }

    /// Ends the lines of a file.
    pub(crate) fn end_file(&mut self) {
        self.in_file = false;
    }

    // Of two files with one name the later one counts.
    fn begin_file(&mut self, name: &str) -> Result<(), AllocError> {
        let name = String::from_str(self.alloc, name)?;
        self.files.insert(0, (name, Vec::new(self.alloc)))?;
        self.in_file = true;
        self.has_line = false;
        Ok(())
    }

    fn fail(&mut self, what: &str, numbers: &str) -> Result<(), AllocError> {
        match what {
            "loads" => self.loads = numbers_of(self.alloc, numbers)?,
            "puts" => self.puts = numbers_of(self.alloc, numbers)?,
            "errors" => self.errors = numbers_of(self.alloc, numbers)?,
            "most" => self.most = numbers.parse().unwrap_or(MOST),
            _ => {}
        }
        Ok(())
    }

    // A line of a file; line feeds stand between lines.
    fn take_text(&mut self, line: &str) -> Result<bool, AllocError> {
        if !self.in_file {
            return Ok(line.is_empty());
        }
        let bytes = bytes_of(self.alloc, line)?;
        let is_behind = self.has_line;
        self.has_line = true;
        if let Some((_, text)) = self.files.first_mut() {
            push_line(text, is_behind, &bytes)?;
        }
        Ok(false)
    }
}

fn push_line(text: &mut Vec<u8>, is_behind: bool, line: &[u8]) -> Result<(), AllocError> {
    if is_behind {
        text.push(b'\n')?;
    }
    text.extend_from_slice(line)
}

fn numbers_of(alloc: Global, words: &str) -> Result<Vec<u64>, AllocError> {
    let mut numbers = Vec::new(alloc);
    for word in words.split_whitespace() {
        numbers.push(word.parse().unwrap_or(0))?;
    }
    Ok(numbers)
}
