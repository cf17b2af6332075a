//! `cfbook`: works on the parts of a workbook file. Each task is a module; nothing but input and output is here.

#![tactic(auto)]

use crate::scripts::each_line;
use anyhow::anyhow;
use drawer::Drawer;
use std::process::ExitCode;
use std::{env, fs, io};
use workbook::Workbook;

#[cfg(test)]
mod book_tests;
mod books;
mod chains;
mod minis;
mod scripts;
mod table;
#[cfg(test)]
mod tests;

const USAGE: &str =
    "usage: cfbook TASK [FILE TASK FILE ..], TASK being links, drawer, mini or edit (standard input without FILE)";

// One task, on its whole input.
fn task(rt: &HostRuntime, name: &str, text: &str) -> anyhow::Result<()> {
    match name {
        "links" => table::run(rt, text),
        "drawer" => each_line(rt, &mut Drawer::new(), text),
        "mini" => each_line(rt, &mut minis::fresh(), text),
        "edit" => each_line(rt, &mut Workbook::new(Drawer::new()), text),
        _ => Err(anyhow!(USAGE)),
    }
}

fn run(rt: &HostRuntime) -> anyhow::Result<()> {
    let all: Vec<String> = env::args(rt)?.collect(rt.alloc())?;
    match all.as_slice() {
        [] | [_] => Err(anyhow!(USAGE)),
        [_, name] => task(
            rt,
            name.as_str(),
            io::read_to_string(rt.alloc(), rt.stdin())?.as_str(),
        ),
        [_, tasks @ ..] => {
            for pair in tasks.chunks(2) {
                let [name, path] = pair else {
                    return Err(anyhow!(USAGE));
                };
                task(
                    rt,
                    name.as_str(),
                    fs::read_to_string(rt, path.as_str())?.as_str(),
                )?;
            }
            Ok(())
        }
    }
}

// Tells an error in one line, and ends with status 1.
fn main(rt: HostRuntime) -> ExitCode {
    match run(&rt) {
        Ok(()) => ExitCode::SUCCESS,
        Err(error) => {
            // Where this line cannot be written either, the status alone tells.
            let _ = eprintln!(rt; "cfbook: {error}");
            ExitCode::FAILURE
        }
    }
}
