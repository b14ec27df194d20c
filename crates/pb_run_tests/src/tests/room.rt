//! Folders of files for tests.
use std::test::Fail;
use std::{env, fs, process};

/// A folder of one test, which goes with all that is in it once the test is over.
pub struct Room<'a> {
    rt: &'a HostRuntime,
    path: String,
}

impl Drop for Room<'_> {
    fn drop(self) {
        let Room { rt, path } = self;
        let _ = fs::remove_dir_all(rt, &path);
    }
}

impl<'a> Room<'a> {
    /// An empty folder, whose name has this one in it.
    pub fn new(rt: &'a HostRuntime, name: &str) -> Result<Room<'a>, Fail> {
        let all = env::temp_dir(rt)?;
        let number = process::id(rt.process());
        let path = format!(in rt.alloc(); "{}/pbaudit.{name}.{number}", all.as_path().as_str())?;
        fs::create_dir(rt, &path)?;
        Ok(Room { rt, path })
    }

    /// The folder's own path.
    pub fn path(&self) -> Result<String, Fail> {
        Ok(self.path.clone()?)
    }

    /// Writes a file of this name, and gives its path.
    pub fn write(&self, name: &str, bytes: &[u8]) -> Result<String, Fail> {
        let path = format!(in self.rt.alloc(); "{}/{name}", self.path)?;
        fs::write(self.rt, &path, bytes)?;
        Ok(path)
    }
}
