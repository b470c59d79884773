//! The program `cells`: it writes the listing of the cells of a job, or of its release, to standard output, and ends
//! with a status.
#![tactic(auto)]

mod answer;
mod output;

use crate::answer::{ended_by, without_words};
use crate::output::StandardOutput;
use cell_listing::list_asked;
use program_files::{FileShelf, RealFiles, words_of};
use std::process::ExitCode;

fn main(rt: HostRuntime) -> ExitCode {
    let Ok(words) = words_of(&rt, rt.alloc()) else {
        return without_words();
    };
    let files = RealFiles::new(&rt, "cells");
    let mut shelf = FileShelf::new(&files);
    let answer = list_asked(rt.alloc(), words.as_slice(), &mut shelf);
    let mut output = StandardOutput::new(&rt);
    ended_by(&rt, &mut output, rt.alloc(), answer)
}
