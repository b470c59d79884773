//! The program `argus`: it does what its words say with the files of the current folder, prints
//! one line and ends with a status.
#![tactic(auto)]

mod answer;

use crate::answer::{ended_by, without_words};
use job_run::run;
use program_files::{FileShelf, FolderTray, RealFiles, words_of};
use std::process::ExitCode;

fn main(rt: HostRuntime) -> ExitCode {
    let Ok(words) = words_of(&rt, rt.alloc()) else {
        return without_words();
    };
    let files = RealFiles::new(&rt, "argus");
    let mut shelf = FileShelf::new(&files);
    let mut tray = FolderTray::new(&files);
    let report = run(rt.alloc(), words.as_slice(), &mut shelf, &mut tray);
    ended_by(&rt, rt.alloc(), &report)
}
