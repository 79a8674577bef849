//! The command `tw`.
#![tactic(auto)]

mod asked;
mod bare_input;
mod colours;
mod exit;
mod file_parts;
mod hints;
mod noted_reader;
mod output;
mod progress_printer;
mod symbolic;
mod system_files;
mod tool;
mod typed;

use crate::exit::Exit;
use crate::tool::{Settings, Streams, Tool};
use std::io::ErrorKind;
use std::rt::Env;
use std::{env, io};
use tw_session::without_words;
use tw_visible::{Kind, visible};

/// Returns the arguments of the process, without the program's own name.
fn own_words(rt: &(impl Env + AllocGlobal)) -> io::Result<Vec<String>> {
    Ok(env::args(rt)?.skip(1).collect(rt.alloc())?)
}

/// Returns how messages name the command: as the script `tw`, which sets this variable, was called.
fn own_name(rt: &(impl Env + AllocGlobal)) -> Option<String> {
    let name = env::var(rt, "TW_NAME").ok()?;
    visible(rt.alloc(), Kind::Lines, name.as_bytes()).ok()
}

/// Returns whether lines on a terminal have colours: not if `NO_COLOR` has a text, nor if the terminal is dumb.
fn has_colours(rt: &(impl Env + AllocGlobal)) -> bool {
    let is_off = env::var(rt, "NO_COLOR").is_ok_and(|text| !text.is_empty());
    let is_dumb = env::var(rt, "TERM").is_ok_and(|text| text.as_str() == "dumb");
    !is_off && !is_dumb
}

/// Returns the name, or `tw` for none.
fn named(name: &str) -> &str {
    if name.is_empty() { "tw" } else { name }
}

/// Returns the path, if it isn't empty.
fn path_of(path: &str) -> Option<&str> {
    if path.is_empty() { None } else { Some(path) }
}

/// Ends the command, since an allocation failed, or an argument isn't UTF-8.
fn without_own_words(streams: Streams, kind: ErrorKind) -> Exit {
    let mut stdout = streams.stdout;
    let status = without_words(kind, &mut stdout);
    if kind != ErrorKind::OutOfMemory {
        let stderr = &streams.stderr;
        let _printed = eprintln!(stderr; "tw: an argument isn't UTF-8");
    }
    Exit::Session(status)
}

/// Runs the command `tw` with the arguments and streams of the process.
fn main(rt: HostRuntime) -> Exit {
    let streams = Streams {
        stdin: rt.stdin(),
        stdout: rt.stdout(),
        stderr: rt.stderr(),
    };
    match own_words(&rt) {
        Ok(words) => {
            let name = own_name(&rt).unwrap_or(String::new(rt.alloc()));
            let stop = env::var(&rt, "TW_STOP").unwrap_or(String::new(rt.alloc()));
            let settings = Settings {
                files: &rt,
                name: named(name.as_str()),
                stop: path_of(stop.as_str()),
                has_colours: has_colours(&rt),
            };
            Tool::new(&rt, streams, settings).answer(&words)
        }
        Err(error) => without_own_words(streams, error.kind()),
    }
}
