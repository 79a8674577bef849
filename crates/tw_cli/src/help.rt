//! The help texts.

/// The help of a command.
pub(crate) struct CommandHelp<'a> {
    /// One line, which is also in the list of commands.
    pub about: &'a str,
    /// The usage line: what the user writes, also files, which the program opens before.
    pub usage: &'a str,
    /// The text after the options in the command's own help.
    pub whole: &'a str,
}

/// The program's version, which the newest section of CHANGELOG.md names.
pub(crate) const VERSION: &str = "0.34";

pub(crate) const ABOUT: &str =
    "Yuglemit assembles, checks and runs dataflow programs on a proved task host. Its manual is `man tw`.";

pub(crate) const ASM: CommandHelp<'static> = CommandHelp {
    about: "Turns assembly text into hex text of a program",
    usage: "tw asm [FILE] [OPTIONS]",
    whole: "Reads assembly text from a FILE or from standard input and writes its program as hex text, two digits a byte, in one line,
which the other commands read. A text that is no program is rejected with the code and the line of its first error.
With --names the text may be symbolic assembly: its first line with a word is `names` then. An error is followed by a diagnostic.
A FILE is read so without it.
With --plain the assembly text is written to which symbolic assembly expands, line by line.
Exit status: 0 assembled, 1 rejected, 2 command line rejected, 5 out of memory, 7 a read or write failed, 66 a FILE can't be read.",
};

pub(crate) const DISASM: CommandHelp<'static> = CommandHelp {
    about: "Writes a program as assembly text",
    usage: "tw disasm [FILE] [OPTIONS]",
    whole: "Reads a program from a FILE, which is an argument, or from standard input as hex text: two digits a byte; spaces, tabs
and line ends are skipped. A FILE may also hold assembly text.
With --text it reads assembly text, or symbolic assembly as `tw asm --names` does.
The program needn't be one that `tw check` accepts. `tw asm` makes the same program of the output.
With --places a line `procedure` and its number precedes each procedure, and its place each instruction; `tw asm` doesn't
read this form.
Exit status: 0 written, 1 rejected, 2 command line rejected, 5 out of memory, 7 a read or write failed, 66 a FILE can't be read.",
};

pub(crate) const CHECK: CommandHelp<'static> = CommandHelp {
    about: "Verifies a program and prints its budgets",
    usage: "tw check [FILE] [OPTIONS]",
    whole: "Reads a program from a FILE, which is an argument, or from standard input as hex text: two digits a byte; spaces, tabs
and line ends are skipped. A FILE may also hold assembly text.
With --text it reads assembly text, or symbolic assembly as `tw asm --names` does. An error is then followed by the rejected
line, such as `at line 17: STORE d0 v0`, and by a diagnostic: the word, what was expected and what was found; or the
register, what it holds and what is required.
If the program is accepted, a line for each procedure says how many instructions a task of it executes at most, and a last
line how many engines and workers its targets need.
With --bounds, more lines bound what a whole run does, whatever its inputs and actors: `bound tasks 9`, and likewise
instructions, data, members, rules, bytes and events; `over` is more than 1,000,000,000,000. Members and bytes are those that
containers, maps and texts hold at any time, beyond the inputs. Such a run ends within its bound of events. If calls lead back to
their procedure there are no bounds, and a line names one such call. With --bounds=all, a line for each procedure bounds what a
task of it does with all tasks that it leads to. With --limit, lines such as `limited tasks 100` bound what a run with at most
that number of events does; they also hold if there are no other bounds.
With --most-tasks, --most-instructions, --most-data, --most-bytes, --most-budget or --most-members, a program is rejected as O07
if its bound is larger, or that by --limit if it is smaller; a line for each names the bound. No bound, or `over`, is larger than
any number but the last.
With --order a last line is `order same` if the text rules out that outputs depend on the order of events, or else names the
first insertion that may show the order, such as `order may show in procedure 1 at place 3`.
With --places a listing of the program precedes these lines. It is that of `tw disasm --places`, or for text input has the
text's own lines. After each instruction it has what the right registers hold before it, such as `d0 write int`; in a rejected
program, up to the rejected place.
Exit status: 0 accepted, 1 rejected, 2 command line rejected, 5 out of memory, 7 a read or write failed, 66 a FILE can't be read.",
};

pub(crate) const RUN: CommandHelp<'static> = CommandHelp {
    about: "Runs a program and reports its outputs",
    usage: "tw run [FILE] [OPTIONS] [INPUT]...",
    whole: "Reads a program from a FILE, which is an argument, or from standard input as hex text: two digits a byte; spaces, tabs
and line ends are skipped. A FILE may also hold assembly text.
With --text it reads assembly text, or symbolic assembly as `tw asm --names` does. An error is then followed by the rejected
line, such as `at line 17: STORE d0 v0`, and by a diagnostic: the word, what was expected and what was found; or the
register, what it holds and what is required; or how many inputs are required, or which one doesn't fit its parameter. A
circle of rules that wait for one another is followed by the lines that made them.
The inputs are the arguments after the command, one for each input of main, in order. Examples: int:-7, text:abc,
ints:1=7,5=-3, texts:1=\"abc\",2=\"\", tints:\"a\"=1 and ttexts:\"a\"=\"b\". The subscripts of a container or a map rise, and it may
be empty. Between quotes \\\", \\\\, \\n and \\x with two hex digits are escapes.
With --each the lines after the line `inputs` are JSON arrays, and the program, read once, runs in one thread on each. An input
is a number, a string or an object of members by subscript: [39, \"abc\", {\"1\": 7}]; a map may be an array, too. Each line that isn't blank is answered
by one line, in order: the object of --json, with the line's number as `line`. A line may also be {\"id\": 7, \"inputs\": [39]}; its
answer has the id, a number or a text. With --jobs N, N threads answer parts of the lines.
With --inputs-json all that follows the line `inputs` is one such array, which may have several lines, with the inputs of one run.
With --inputs the inputs are read instead: after the program a line `inputs`, then one input a line, up to a line `end` or the
end. An input is its whole line; empty lines are skipped. No input is an argument then. With --inputs DATA, --inputs-json DATA
and --each DATA the lines after `inputs` are those of a file; - is standard input.
Options may come before, after or between the inputs. --trace, --in-turn, --stats, --picture, --quiet, --text, --inputs,
--inputs-json and --each take no value; the others take a number in decimal digits, --seconds also with up to three decimals.
With --most-tasks, --most-instructions, --most-data, --most-bytes, --most-budget or --most-members, a program is rejected before
it runs, as O07, if its bound and that by --limit are larger; see `tw check --help`. So a run that begins stays below.
The report has a line for each output, then one for each member of a container or value of a map, and ends with how the run ended.
With --trace the trace precedes the report: a line `events`, a line for each event, in order, and a line `end`. The program's
hex text, a line end and this output can be piped into `tw replay`, with the same inputs, engines, servers and workers.
Each engine, server and worker is a thread. With --in-turn there is one thread, in which the engines, then the servers, then
the workers take turns, again and again. The same command makes the same trace each time. With --in-turn --seed N the
number N decides who takes the next turn; the same N gives the same trace, another N may give another. What depends on
the order of events shows so. --each is excluded then.
With --seconds N a run is stopped once N seconds have passed, and its report ends with `stopped`; with --each the run of
each line. N may have up to three decimals. A task that works then is cut off, without an event.
A run of more than two seconds prints once a second on standard error, if that is a terminal, how many events there are so
far; with --in-turn how many turns, and with --each how many lines are answered, and how many that is a second. With --quiet
nothing is printed. Ctrl-C at such a terminal stops a run of ./tw without --each likewise, with status 130; a second one ends it.
With --stats statistics of the run's own events follow the report, as `tw replay --stats` prints them. With --picture an SVG
timeline of the events replaces the report, as `tw picture` draws it; --trace and --stats are excluded then. --from and --to
need --picture: the timeline shows the events from one number to the other, counted from 1.
--stats, --picture and the lines of a stuck run of a text execute every event again, in one thread, after the run; this takes
as long as all local instructions of the run together.
Exit status: 0 quiet, 1 rejected, 2 command line or input rejected, 3 stuck, 4 event limit or stopped,
5 out of memory, 7 a read or write failed, 66 a FILE can't be read. With --each it is 0 if all lines end quiet, 1 if one is
rejected, else 4 if one ended by the limit or was stopped, else 3 if one is stuck.",
};

pub(crate) const REPLAY: CommandHelp<'static> = CommandHelp {
    about: "Executes the events of a trace and reports the state",
    usage: "tw replay [FILE] [OPTIONS] [INPUT]...",
    whole: "Executes the events of a trace on the reference machine and reports the resulting state.
A FILE, which is an argument, or standard input has a program as hex text, or with --text as assembly text, a line `events`,
a line for each event, and a line `end` or the end. Without a line `events` there are no events; anything after `end` is ignored,
except that it must be UTF-8. With --events TRACE the trace is in a file of its own; - is standard input, where it is also read
from if the FILE has none.
A trace is what `tw run --trace` writes, or any other events: take w0, local w0 3, call w0, end w0, ask e0 1 0,
deliver s0 2 1 0, release e0 1.
The program isn't verified first. Its inputs are arguments, like those of `tw run`, or with --inputs lines after the program,
as there, before the line `events`.
The report ends with how the run ended, or with `running`.
With --stats statistics follow it: a line `numbers`; how many events there are, and how many of each kind; for each
procedure its tasks, their instructions, the most of one task, and its budget if the program is accepted; for each actor its
events; and how many steps there are, and how many in the longest chain of events that wait for one another.
Exit status: 0 quiet or still running, 1 rejected or an event that isn't enabled, 2 command line or input rejected,
3 stuck, 5 out of memory, 6 trap, 7 a read or write failed, 66 a FILE can't be read.",
};

pub(crate) const PICTURE: CommandHelp<'static> = CommandHelp {
    about: "Draws the events of a trace as an SVG timeline",
    usage: "tw picture [FILE] [OPTIONS] [INPUT]...",
    whole: "Executes the events of a trace on the reference machine and draws them as one SVG timeline.
It takes what `tw replay` takes except --stats and --json, and rejects what that rejects, with the same line and status. Otherwise its
output can be opened in a browser. Each actor has a row, with its events from left to right by their numbers. An event has a
marker, whose line is shown while the pointer rests on it; a task has a bar from its `take` to its `end`, and a line from
the event that made it to its `take`. The heading says how the run ended. If it is stuck in a circle of rules, the circle is
drawn below: a box for each rule, and an arrow with the datum that it waits for to the rule that may write it.
With --from and --to it shows the events from one number to the other, and its heading says of how many. Events count from
1, as in `not enabled at event 3`; past the last event there are none. Bars and lines that begin or end outside the range stick
out to the left or to the right.
Exit status: 0 quiet or still running, 1 rejected or an event that isn't enabled, 2 command line or input rejected,
3 stuck, 5 out of memory, 6 trap, 7 a read or write failed, 66 a FILE can't be read.",
};

pub(crate) const EXPLAIN: CommandHelp<'static> = CommandHelp {
    about: "Explains the code of an error or a trap",
    usage: "tw explain [OPTIONS] [CODE]",
    whole: "A code is what an error line of another command names: H01 to H03, A01 to A07, N01 to N08, F01 to F09, V01 to V18, O01 to O07,
E01, X01 or C1 to C15. Small letters are accepted, and V4 for V04. The output says what the code means, what is required, the
usual mistake and its correction. Without a code all are listed, each with what it means.
Exit status: 0 explained, 2 command line rejected or no such code, 5 out of memory, 7 a write failed.",
};

/// The headings of options.
pub(crate) const INPUT_GROUP: &str = "Input";

pub(crate) const RUN_GROUP: &str = "Run";

pub(crate) const LIMIT_GROUP: &str = "Limits";

pub(crate) const OUTPUT_GROUP: &str = "Output";

pub(crate) const ENGINES_HELP: &str = "How many engines: 1 to 4 (default: 1)";

pub(crate) const SERVERS_HELP: &str = "How many servers: 1 to 4 (default: 1)";

pub(crate) const WORKERS_HELP: &str = "How many workers: 1 to 16 (default: 1)";

pub(crate) const LIMIT_HELP: &str =
    "The maximum number of events: 1 to 1000000 (default of run: 1000000)";

pub(crate) const MOST_TASKS_HELP: &str =
    "Reject a program whose run may take more tasks: 1 to 18446744073709551615";

pub(crate) const MOST_INSTRUCTIONS_HELP: &str =
    "Reject a program whose run may execute more instructions";

pub(crate) const MOST_DATA_HELP: &str = "Reject a program whose run may make more data by NEW";

pub(crate) const MOST_BYTES_HELP: &str =
    "Reject a program whose run may hold texts of more bytes, beyond inputs and outputs";

pub(crate) const MOST_BUDGET_HELP: &str = "Reject a program with a larger budget of one task";

pub(crate) const MOST_MEMBERS_HELP: &str =
    "Reject a program whose run may hold more members and values of maps, beyond the inputs";

pub(crate) const INPUT_HELP: &str =
    "An input: int:, text:, ints:, texts:, tints: or ttexts:, and its value";

pub(crate) const INPUTS_HELP: &str =
    "Read the inputs, one a line: they follow the program and a line `inputs`, or are in a file DATA";

pub(crate) const JSON_HELP: &str = "Write a JSON object on one line in place of the output";

pub(crate) const EVENTS_HELP: &str =
    "Read the trace from a file TRACE: the line `events` and those after it";

pub(crate) const STATS_HELP: &str =
    "Write statistics after the report: events by kind, procedure and actor, and the longest chain";

pub(crate) const FROM_HELP: &str =
    "The number of the first event in the timeline: 1 to 4294967295 (default: 1)";

pub(crate) const TO_HELP: &str =
    "The number of the last event in the timeline: 1 to 4294967295 (default: the last of all)";

pub(crate) const TEXT_HELP: &str =
    "Read the program as assembly text or symbolic assembly instead of hex text";

pub(crate) const ORDER_HELP: &str =
    "Say whether outputs are the same in every order of events, or which insertion may show it";

pub(crate) const PLACES_HELP: &str = "List the instructions, each with its place";
