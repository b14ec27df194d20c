//! Files that are read.
use std::fs::File;
use std::io;
use std::io::Read;

/// The file at a path. It is opened at the first read, so that a file whose turn never comes is not opened at all. One
/// that can't be opened fails at that read.
#[derive(Drop)]
pub struct FileReader<'a> {
    rt: &'a HostRuntime,
    path: String,
    file: Option<File>,
}

impl<'a> FileReader<'a> {
    pub fn new(rt: &'a HostRuntime, path: String) -> FileReader<'a> {
        FileReader {
            rt,
            path,
            file: None,
        }
    }
}

impl Read for FileReader<'_> {
    fn read(&mut self, buf: &mut [u8]) -> io::Result<usize> {
        if let Some(file) = &mut self.file {
            return file.read(buf);
        }
        let mut file = File::open(self.rt, &self.path)?;
        let count = file.read(buf);
        self.file = Some(file);
        count
    }
}
