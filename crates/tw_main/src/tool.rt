//! Answers the arguments of the command.

use crate::asked::{Asked, asked_if};
use crate::exit::Exit;
use crate::file_parts::inputs_and_trace;
use crate::hints::{
    Answered, complain_misfit, complain_missing, complain_unread, print_hints, print_notice,
};
use crate::noted_reader::NotedReader;
use crate::output::Output;
use crate::progress_printer::ProgressPrinter;
use crate::symbolic::{Misnamed, find_misnamed};
use crate::system_files::SystemFiles;
use crate::typed::{CommandWords, rewritten, takes_file, takes_inputs};
use std::alloc::AllocError;
use std::io::{ErrorKind, IsTerminal, Read, Write};
use std::rt::{Files, Stderr, Stdin, Stdout};
use std::sync::Wait;
use std::thread::Threads;
use std::time::Clock;
use std::{fs, io};
use tw_cli::{Complaint, NoOrder, reads_program};
use tw_files::{Contents, Naming, NoInput, SessionInput, naming_of, session_input};
use tw_order::Order;
use tw_session::{
    Given, InStream, Status, each_session, given_session, session, unordered_session, without_words,
};
use tw_visible::Kind;

/// The standard streams.
#[derive(Clone, Copy)]
pub struct Streams {
    pub stdin: Stdin,
    pub stdout: Stdout,
    pub stderr: Stderr,
}

/// The settings of the environment.
#[derive(Clone, Copy)]
pub struct Settings<'a> {
    /// Where the file is looked for at whose sight a run is stopped.
    pub files: &'a HostRuntime,
    /// Messages name the command so.
    pub name: &'a str,
    /// That file.
    pub stop: Option<&'a str>,
    /// Whether lines on a terminal have colours.
    pub has_colours: bool,
}

/// Returns whether a word is among the arguments of a session.
fn has_word(words: &[String], sought: &str) -> bool {
    words.iter().any(|word| word.as_str() == sought)
}

/// Returns whether arguments request JSON.
fn writes_json(words: &[String]) -> bool {
    has_word(words, "--json") || has_word(words, "--each")
}

/// Returns whether a word may be meant as an input: the command takes inputs, none has a file, and the word looks like no file's name.
fn is_bare_word(command: &str, others: &[String], word: &str) -> bool {
    let has_files = others.iter().any(|other| takes_file(other.as_str()));
    takes_inputs(command) && !has_files && !word.contains('.') && !word.contains('/')
}

/// The command, with the system that it is run on.
#[derive(Drop)]
pub struct Tool<'a, H> {
    rt: &'a H,
    streams: Streams,
    settings: Settings<'a>,
}

impl<'a, H: AllocGlobal + Files + Threads + Wait + Clock + Sync> Tool<'a, H> {
    /// Makes the command `tw` on a runtime and its streams.
    pub fn new(rt: &'a H, streams: Streams, settings: Settings<'a>) -> Tool<'a, H> {
        Tool {
            rt,
            streams,
            settings,
        }
    }

    /// Returns standard output: without hidden characters if it is a terminal, or JSON.
    fn output(&self, words: &[String]) -> Output<Stdout> {
        let stdout = self.streams.stdout;
        let kind = if writes_json(words) {
            Some(Kind::Json)
        } else if stdout.is_terminal() {
            Some(Kind::Lines)
        } else {
            None
        };
        let has_colours = kind == Some(Kind::Lines) && self.settings.has_colours;
        Output::new(self.rt.alloc(), stdout, kind, has_colours)
    }

    /// Prints why a file can't be read.
    fn unread(&self, path: &str, error: &io::Error) -> Exit {
        let _printed = complain_unread(self.rt.alloc(), &self.streams.stderr, path, error);
        Exit::Unread
    }

    /// Prints hints about an answer.
    fn advise(
        &self,
        words: &[String],
        status: Status,
        is_each: bool,
        misnamed: Option<Misnamed<'_>>,
        reads_input: bool,
    ) {
        let answered = Answered {
            name: self.settings.name,
            status,
            words,
            is_each,
            misnamed,
            reads_input,
        };
        let stderr = self.streams.stderr;
        let _printed = print_hints(self.rt.alloc(), &stderr, &answered);
    }

    /// Ends the command after a session. Hints are printed, unless nobody reads the output. If memory was short for what is printed, that is the answer.
    fn ended(
        &self,
        words: &[String],
        status: Status,
        is_each: bool,
        misnamed: Option<Misnamed<'_>>,
        reads_input: bool,
        output: &Output<Stdout>,
    ) -> Exit {
        match output.failure {
            Some(ErrorKind::BrokenPipe) => Exit::Abandoned,
            Some(ErrorKind::OutOfMemory) => self.without_memory(),
            _ => {
                self.advise(words, status, is_each, misnamed, reads_input);
                Exit::Session(status)
            }
        }
    }

    /// Returns the observer of runs that prints their progress, and stops them.
    fn reporter(&self, words: &[String]) -> ProgressPrinter<'a> {
        let is_quiet = has_word(words, "--quiet");
        ProgressPrinter::new(
            self.settings.files,
            self.streams.stderr,
            is_quiet,
            self.settings.stop,
        )
    }

    /// Returns an order whose run is watched if the observer can stop it, or shows its turns.
    fn watched(&self, order: Order, reporter: &ProgressPrinter<'a>) -> Order {
        match order {
            Order::Run(source, mut options, inputs) => {
                let shows_turns = options.in_turn && reporter.shows();
                options.is_watched = self.settings.stop.is_some() || shows_turns;
                Order::Run(source, options, inputs)
            }
            other => other,
        }
    }

    /// Prints why arguments are rejected.
    fn complain(&self, complaint: &Complaint) {
        let stderr = self.streams.stderr;
        let has_colours = stderr.is_terminal() && self.settings.has_colours;
        let mut errors = Output::new(self.rt.alloc(), stderr, Some(Kind::Lines), has_colours);
        let _printed = errors.write_all(complaint.line().as_bytes());
    }

    /// Answers arguments that give no order.
    fn answer_unordered(&self, words: &[String], why: NoOrder) -> Exit {
        let mut writer = self.output(words);
        let status = match why {
            NoOrder::Refused(complaint) => {
                let status = without_words(ErrorKind::InvalidInput, &mut writer);
                self.complain(&complaint);
                status
            }
            other => unordered_session(self.rt.alloc(), other, &mut writer),
        };
        self.ended(words, status, false, None, false, &writer)
    }

    /// Ends the command, since an allocation failed.
    fn without_memory(&self) -> Exit {
        let mut stdout = self.streams.stdout;
        Exit::Session(without_words(ErrorKind::OutOfMemory, &mut stdout))
    }

    /// Holds a session of the command `tw`, and prints hints about its answer.
    fn hold<R: InStream>(&self, asked: Asked, reader: &mut R, reads_input: bool) -> Exit {
        let Asked { words, order } = asked;
        let order = match order {
            Ok(order) => order,
            Err(why) => return self.answer_unordered(&words, why),
        };
        let is_each = matches!(order, Order::Each(..));
        let mut writer = self.output(&words);
        let reporter = self.reporter(&words);
        let order = self.watched(order, &reporter);
        let status = session(self.rt, &reporter, order, reader, &mut writer);
        self.ended(&words, status, is_each, None, reads_input, &writer)
    }

    /// Holds a session over standard input, and says so if that is a terminal.
    fn hold_over_input(&self, asked: Asked) -> Exit {
        let mut stdin = self.streams.stdin;
        if stdin.is_terminal() {
            let _printed = print_notice(&self.streams.stderr);
        }
        self.hold(asked, &mut stdin, true)
    }

    /// Holds a session over what files hold.
    fn hold_over_files(&self, typed: &CommandWords, asked: Asked, files: &Contents) -> Exit {
        let Asked { words, order } = asked;
        let order = match order {
            Ok(order) => order,
            Err(why) => return self.answer_unordered(&words, why),
        };
        let is_each = matches!(order, Order::Each(..));
        let (inputs, trace) = inputs_and_trace(files);
        let given = Given {
            program: &files.program,
            inputs,
            trace,
        };
        let misnamed = find_misnamed(typed.program_path(), given.program);
        let mut writer = self.output(&words);
        let reporter = self.reporter(&words);
        let order = self.watched(order, &reporter);
        let status = given_session(self.rt, &reporter, order, given, &mut writer);
        self.ended(&words, status, is_each, misnamed, false, &writer)
    }

    /// Holds a session over a program and lines of this file, which are read one after the other.
    fn answer_lines<R: Read + Drop>(
        &self,
        typed: &CommandWords,
        asked: Asked,
        program: Vec<u8>,
        path: &str,
        lines: R,
    ) -> Exit {
        let Asked { words, order } = asked;
        let order = match order {
            Ok(order) => order,
            Err(why) => return self.answer_unordered(&words, why),
        };
        let misnamed = find_misnamed(typed.program_path(), &program);
        let mut reader = NotedReader::new(lines);
        let mut writer = self.output(&words);
        let reporter = self.reporter(&words);
        let status = each_session(self.rt, &reporter, order, program, &mut reader, &mut writer);
        match &reader.error {
            Some(error) if path != "-" => self.unread(path, error),
            _ => self.ended(&words, status, true, misnamed, false, &writer),
        }
    }

    /// Holds a session over a program and the file of the lines of `--each`; `-` is standard input.
    fn hold_over_lines(
        &self,
        typed: &CommandWords,
        asked: Asked,
        program: Vec<u8>,
        path: &str,
    ) -> Exit {
        if path == "-" {
            return self.answer_lines(typed, asked, program, path, self.streams.stdin);
        }
        match fs::open(self.rt, path) {
            Ok(file) => self.answer_lines(typed, asked, program, path, file),
            Err(error) => self.unread(path, &error),
        }
    }

    /// Holds a session over what `session_input` returned for the arguments after a command.
    fn hold_over(&self, typed: &CommandWords, asked: Asked, made: SessionInput<'_>) -> Exit {
        let asked = asked.of_format(made.is_text);
        match (made.contents, made.lines) {
            (None, _) => self.hold_over_input(asked),
            (Some(files), Some(path)) => self.hold_over_lines(typed, asked, files.program, path),
            (Some(files), None) => self.hold_over_files(typed, asked, &files),
        }
    }

    /// Answers a command whose file of this name can't be read. A bare word is taken for an input if there is no such file.
    fn answer_unread(
        &self,
        command: &str,
        others: &[String],
        path: &str,
        error: &io::Error,
    ) -> Exit {
        if error.kind() != ErrorKind::NotFound || !is_bare_word(command, others, path) {
            return self.unread(path, error);
        }
        let Ok(asked) = Asked::new(self.rt.alloc(), &[command], others) else {
            return self.without_memory();
        };
        let _printed = complain_missing(self.rt.alloc(), &self.streams.stderr, path);
        self.hold(asked, &mut { self.streams.stdin }, false)
    }

    /// Answers a command that reads a program. Without a trace `picture` draws a run, for which the arguments are read as `drawn`.
    fn answer_command(
        &self,
        command: &str,
        typed: &CommandWords,
        named: &Naming<'_>,
        asked: Asked,
        drawn: Option<Asked>,
    ) -> Exit {
        let files = SystemFiles::new(self.rt, self.streams.stdin, self.streams.stderr);
        match session_input(&files, self.rt.alloc(), command, named) {
            Ok(made) => {
                let asked = asked_if(made.draws_run, asked, drawn);
                self.hold_over(typed, asked, made)
            }
            Err(NoInput::Unread(path, error)) => {
                self.answer_unread(command, &typed.others, path, &error)
            }
            Err(NoInput::Misfit(path, why)) => {
                let mut stdout = self.streams.stdout;
                let _printed = complain_misfit(self.rt.alloc(), &self.streams.stderr, path, why);
                Exit::Session(without_words(ErrorKind::InvalidInput, &mut stdout))
            }
            Err(NoInput::NoMemory) => self.without_memory(),
        }
    }

    /// Reads the arguments of a command that reads a program, and answers it. Rejected arguments are answered before a file is opened.
    fn read_command(&self, command: &str, others: &[String]) -> Result<Exit, AllocError> {
        let alloc = self.rt.alloc();
        let typed = rewritten(alloc, command, others)?;
        let named = naming_of(alloc, &typed.others)?;
        let asked = Asked::new(alloc, &[command], &named.others)?;
        let drawn = match command {
            "picture" => Some(Asked::new(alloc, &["run", "--picture"], &named.others)?),
            _ => None,
        };
        let may_draw = drawn.as_ref().is_some_and(|drawn| drawn.order.is_ok());
        if asked.order.is_err() && !may_draw {
            return Ok(self.hold(asked, &mut { self.streams.stdin }, false));
        }
        Ok(self.answer_command(command, &typed, &named, asked, drawn))
    }

    /// Answers arguments, without the program's own name, unless an allocation fails.
    fn try_answer(&self, words: &[String]) -> Result<Exit, AllocError> {
        match words {
            [command, others @ ..] if reads_program(command.as_str()) => {
                self.read_command(command.as_str(), others)
            }
            _ => {
                let asked = Asked::new(self.rt.alloc(), &[], words)?;
                Ok(self.hold(asked, &mut { self.streams.stdin }, false))
            }
        }
    }

    /// Answers the arguments of the command `tw`, without the program's own name.
    pub fn answer(&self, words: &[String]) -> Exit {
        match self.try_answer(words) {
            Ok(exit) => exit,
            Err(_) => self.without_memory(),
        }
    }
}
