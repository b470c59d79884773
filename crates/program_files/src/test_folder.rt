use sdc_base::Text;
use std::test::Fail;
use std::{fs, process};

/// A folder of one test under `/tmp`, made new, with the number of the process in its name.
#[derive(Drop)]
pub struct TestFolder {
    path: String,
}

impl TestFolder {
    pub fn make(rt: &HostRuntime, word: &str) -> Result<TestFolder, Fail> {
        let number = process::id(rt.process());
        let path = format!(in rt.alloc(); "/tmp/program_files_test_{word}_{number}")?;
        fs::create_dir(rt, path.as_str())?;
        Ok(TestFolder { path })
    }

    /// The path of a file in it.
    pub fn path(&self, rt: &HostRuntime, file: &str) -> Result<String, Fail> {
        let path = self.path.as_str();
        Ok(format!(in rt.alloc(); "{path}/{file}")?)
    }

    /// The same as a name for a shelf or a tray.
    pub fn name(&self, rt: &HostRuntime, file: &str) -> Result<Text, Fail> {
        Ok(Text::new(self.path(rt, file)?.into_bytes()))
    }

    pub fn remove(self, rt: &HostRuntime) -> Result<(), Fail> {
        Ok(fs::remove_dir_all(rt, self.path.as_str())?)
    }
}
