//! Which of the named files are opened.

ghost use Rattle.std.specs.Prelude.{◌≡◌, MatchOption};
ghost use Rattle.std.specs.Option.{option_map};
ghost use Rattle.tw_files.specs.Input.{HasEventsTwice, HasInputsTwice, IsTwice, draws_run as draws_run_is, events_name as events_name_is, file_beside as file_beside_is, follows_inputs as follows_inputs_is, has_lines as has_lines_is, joined_inputs as joined_inputs_is, opens_files as opens_files_is, program_path as program_path_is, separate_events as separate_events_is, separate_inputs as separate_inputs_is, separate_lines as separate_lines_is, takes_input as takes_input_is, takes_program as takes_program_is};
ghost use Rattle.tw_files.specs.Seen.{seen};

use crate::arguments::{has_word, reads_trace, requests_help};
use crate::naming::Naming;
use crate::opening::Misfit;
use crate::sections::has_inputs;

/// The name of standard input.
const STANDARD_INPUT: &str = "-";

/// Returns the file that arguments name beside the program, unless it is standard input, and something else is there too.
fn file_beside(is_taken: bool, path: Option<&str>) -> Option<&str>
    ensures { option_map (λ path. path.now) result ≡ file_beside_is is_taken (option_map (λ path. path.now) path.entry) }
{
    match path {
        Some(path) if path == STANDARD_INPUT && is_taken => None,
        other => other,
    }
}

impl<'a> Naming<'a> {
    /// Returns the file of the program that arguments name; standard input if they name none.
    pub fn program_path(&self) -> &'a str
        ensures { result.now ≡ program_path_is (seen self.now) }
    {
        match self.program {
            Some(path) => path,
            None => STANDARD_INPUT,
        }
    }

    /// Returns whether the program is read from standard input.
    fn takes_program(&self) -> bool
        ensures { result ≡ takes_program_is (seen self.now) }
    {
        self.program_path() == STANDARD_INPUT
    }

    /// Returns whether the program or the inputs are read from standard input.
    fn takes_input(&self) -> bool
        ensures { result ≡ takes_input_is (seen self.now) }
    {
        let has_inputs = match self.inputs {
            Some(path) => path == STANDARD_INPUT,
            None => false,
        };
        self.takes_program() || has_inputs
    }

    /// Returns the file of inputs that arguments name, unless they follow the program.
    fn separate_inputs(&self) -> Option<&'a str>
        ensures { option_map (λ path. path.now) result ≡ separate_inputs_is (seen self.now) }
    {
        file_beside(self.takes_program(), self.inputs)
    }

    /// Returns whether lines of inputs are to be answered, by `--each`.
    fn has_lines(&self) -> bool
        ensures { result ≡ has_lines_is (seen self.now) }
    {
        has_word("--each", &self.others)
    }

    /// Returns the file of inputs if a session reads it with the program.
    pub fn joined_inputs(&self) -> Option<&'a str>
        ensures { option_map (λ path. path.now) result ≡ joined_inputs_is (seen self.now) }
    {
        if self.has_lines() {
            None
        } else {
            self.separate_inputs()
        }
    }

    /// Returns the file of inputs if a session reads it line by line.
    pub fn separate_lines(&self) -> Option<&'a str>
        ensures { option_map (λ path. path.now) result ≡ separate_lines_is (seen self.now) }
    {
        if self.has_lines() {
            self.separate_inputs()
        } else {
            None
        }
    }

    /// Returns the file of the trace, for a command that reads one: the named one, or standard input.
    fn events_name(&self, command: &str, is_untraced: bool) -> Option<&'a str>
        ensures { option_map (λ path. path.now) result ≡ events_name_is command.now is_untraced (seen self.now) }
    {
        if !reads_trace(command) {
            None
        } else if self.events.is_some() {
            self.events
        } else if is_untraced && (command == "replay" || has_word("--events", &self.others)) {
            Some(STANDARD_INPUT)
        } else {
            None
        }
    }

    /// Returns the file of the trace, unless it follows the program or the inputs. `is_untraced` is whether the program's file has no trace.
    pub fn separate_events(&self, command: &str, is_untraced: bool) -> Option<&'a str>
        ensures { option_map (λ path. path.now) result ≡ separate_events_is command.now is_untraced (seen self.now) }
    {
        file_beside(self.takes_input(), self.events_name(command, is_untraced))
    }

    /// Returns whether the trace follows the inputs in their file.
    pub fn follows_inputs(&self, command: &str, is_untraced: bool) -> bool
        ensures { result ≡ follows_inputs_is command.now is_untraced (seen self.now) }
    {
        self.joined_inputs().is_some()
            && (self.events_name(command, is_untraced).is_some()
                && self.separate_events(command, is_untraced).is_none())
    }

    /// Returns whether the arguments that name files say that a run is drawn in place of a trace.
    pub fn draws_run(&self, command: &str, is_untraced: bool) -> bool
        ensures { result ≡ draws_run_is command.now is_untraced (seen self.now) }
    {
        self.program.is_some()
            && (command == "picture"
                && (is_untraced && self.separate_events(command, is_untraced).is_none()))
    }

    /// Returns whether the arguments name any file that is to be opened.
    pub fn opens_files(&self, command: &str) -> bool
        ensures { result ≡ opens_files_is command.now (seen self.now) }
    {
        (self.program.is_some()
            || (self.separate_inputs().is_some() || self.separate_events(command, false).is_some()))
            && !requests_help(&self.others)
    }

    /// Returns which file that arguments name doesn't fit the program's, and why.
    pub fn misfit(
        &self,
        command: &str,
        is_untraced: bool,
        program: &[u8],
    ) -> Option<(&'a str, Misfit)>
        ensures { MatchOption result
            ((HasInputsTwice (seen self.now) program.now → ⊥) × (HasEventsTwice command.now is_untraced (seen self.now) → ⊥))
            (λ found. IsTwice command.now is_untraced (seen self.now) program.now found.1) }
    {
        match self.separate_inputs() {
            Some(path) if has_inputs(program) => Some((path, Misfit::InputsTwice)),
            _ => match self.separate_events(command, is_untraced) {
                Some(path) if !is_untraced => Some((path, Misfit::EventsTwice)),
                _ => None,
            },
        }
    }
}
