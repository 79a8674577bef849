//! The commands of `tw`, and the arguments of each.

use crate::help::{
    ASM, CHECK, CommandHelp, DISASM, ENGINES_HELP, EVENTS_HELP, EXPLAIN, FROM_HELP, INPUT_GROUP,
    INPUT_HELP, INPUTS_HELP, JSON_HELP, LIMIT_GROUP, LIMIT_HELP, MOST_BUDGET_HELP, MOST_BYTES_HELP,
    MOST_DATA_HELP, MOST_INSTRUCTIONS_HELP, MOST_MEMBERS_HELP, MOST_TASKS_HELP, ORDER_HELP,
    OUTPUT_GROUP, PICTURE, PLACES_HELP, REPLAY, RUN, RUN_GROUP, SERVERS_HELP, STATS_HELP,
    TEXT_HELP, TO_HELP, WORKERS_HELP,
};

/// How an argument is given.
#[derive(Clone, Copy)]
pub enum ArgumentForm {
    /// As an option without a value.
    Flag,
    /// As an option with a value.
    Value,
    /// As an option whose value may be left out; it is `main` then.
    ValueOrMain,
    /// As an option without a value, after which `tw` takes the name of the file of inputs.
    Inputs,
    /// As an option without a value, after which `tw` takes the name of the file of the trace.
    Trace,
    /// By its position.
    Position,
    /// By its position, any number of times.
    Positions,
}

/// An argument of a command.
pub struct ArgumentRow<'a> {
    pub form: ArgumentForm,
    pub name: &'a str,
    pub help: &'a str,
    /// The heading above it, if it is an option.
    pub group: &'a str,
}

/// A command, and its arguments in the order of its help.
pub struct CommandRow<'a> {
    pub name: &'a str,
    /// Whether `tw` takes the name of the program's file among the arguments.
    pub reads_program: bool,
    pub help: CommandHelp<'a>,
    pub arguments: &'a [ArgumentRow<'a>],
}

/// The commands, in the order of the program's help.
#[rattlefmt::skip]
pub const COMMANDS: [CommandRow<'static>; 7] = [
    CommandRow { name: "asm", reads_program: true, help: ASM, arguments: &[
        ArgumentRow { form: ArgumentForm::Flag, name: "names", help: "Read symbolic assembly, whose first line with a word is `names`, or assembly text", group: INPUT_GROUP },
        ArgumentRow { form: ArgumentForm::Flag, name: "plain", help: "Write the assembly text to which symbolic assembly expands instead of hex text", group: OUTPUT_GROUP },
        ArgumentRow { form: ArgumentForm::Flag, name: "json", help: JSON_HELP, group: OUTPUT_GROUP },
    ] },
    CommandRow { name: "disasm", reads_program: true, help: DISASM, arguments: &[
        ArgumentRow { form: ArgumentForm::Flag, name: "text", help: TEXT_HELP, group: INPUT_GROUP },
        ArgumentRow { form: ArgumentForm::Flag, name: "places", help: PLACES_HELP, group: OUTPUT_GROUP },
        ArgumentRow { form: ArgumentForm::Flag, name: "json", help: JSON_HELP, group: OUTPUT_GROUP },
    ] },
    CommandRow { name: "check", reads_program: true, help: CHECK, arguments: &[
        ArgumentRow { form: ArgumentForm::Flag, name: "text", help: TEXT_HELP, group: INPUT_GROUP },
        ArgumentRow { form: ArgumentForm::Value, name: "limit", help: LIMIT_HELP, group: LIMIT_GROUP },
        ArgumentRow { form: ArgumentForm::Value, name: "most-tasks", help: MOST_TASKS_HELP, group: LIMIT_GROUP },
        ArgumentRow { form: ArgumentForm::Value, name: "most-instructions", help: MOST_INSTRUCTIONS_HELP, group: LIMIT_GROUP },
        ArgumentRow { form: ArgumentForm::Value, name: "most-data", help: MOST_DATA_HELP, group: LIMIT_GROUP },
        ArgumentRow { form: ArgumentForm::Value, name: "most-bytes", help: MOST_BYTES_HELP, group: LIMIT_GROUP },
        ArgumentRow { form: ArgumentForm::Value, name: "most-budget", help: MOST_BUDGET_HELP, group: LIMIT_GROUP },
        ArgumentRow { form: ArgumentForm::Value, name: "most-members", help: MOST_MEMBERS_HELP, group: LIMIT_GROUP },
        ArgumentRow { form: ArgumentForm::Flag, name: "places", help: PLACES_HELP, group: OUTPUT_GROUP },
        ArgumentRow { form: ArgumentForm::ValueOrMain, name: "bounds", help: "Print bounds of whole runs: tasks, instructions, data, members, rules, bytes and events; with =all, of each procedure", group: OUTPUT_GROUP },
        ArgumentRow { form: ArgumentForm::Flag, name: "order", help: ORDER_HELP, group: OUTPUT_GROUP },
        ArgumentRow { form: ArgumentForm::Flag, name: "json", help: JSON_HELP, group: OUTPUT_GROUP },
    ] },
    CommandRow { name: "run", reads_program: true, help: RUN, arguments: &[
        ArgumentRow { form: ArgumentForm::Flag, name: "text", help: TEXT_HELP, group: INPUT_GROUP },
        ArgumentRow { form: ArgumentForm::Inputs, name: "inputs", help: INPUTS_HELP, group: INPUT_GROUP },
        ArgumentRow { form: ArgumentForm::Inputs, name: "inputs-json", help: "Read the inputs as one JSON array: it follows the program and a line `inputs`, or is in a file DATA", group: INPUT_GROUP },
        ArgumentRow { form: ArgumentForm::Inputs, name: "each", help: "Run each line of inputs, a JSON array, after the program or in a file DATA, and write a JSON line for each", group: INPUT_GROUP },
        ArgumentRow { form: ArgumentForm::Value, name: "engines", help: ENGINES_HELP, group: RUN_GROUP },
        ArgumentRow { form: ArgumentForm::Value, name: "servers", help: SERVERS_HELP, group: RUN_GROUP },
        ArgumentRow { form: ArgumentForm::Value, name: "workers", help: WORKERS_HELP, group: RUN_GROUP },
        ArgumentRow { form: ArgumentForm::Flag, name: "in-turn", help: "Run in one thread, in which the actors take turns in a fixed order", group: RUN_GROUP },
        ArgumentRow { form: ArgumentForm::Value, name: "seed", help: "With --in-turn: another order of the turns, which this number decides, from 1 to 18446744073709551615", group: RUN_GROUP },
        ArgumentRow { form: ArgumentForm::Value, name: "jobs", help: "With --each: answer lines in so many threads, 1 to 64; 1 by default", group: RUN_GROUP },
        ArgumentRow { form: ArgumentForm::Value, name: "limit", help: LIMIT_HELP, group: LIMIT_GROUP },
        ArgumentRow { form: ArgumentForm::Value, name: "seconds", help: "Stop the run after so many seconds: 0.001 to 4294967295; with --each the run of each line", group: LIMIT_GROUP },
        ArgumentRow { form: ArgumentForm::Value, name: "most-tasks", help: MOST_TASKS_HELP, group: LIMIT_GROUP },
        ArgumentRow { form: ArgumentForm::Value, name: "most-instructions", help: MOST_INSTRUCTIONS_HELP, group: LIMIT_GROUP },
        ArgumentRow { form: ArgumentForm::Value, name: "most-data", help: MOST_DATA_HELP, group: LIMIT_GROUP },
        ArgumentRow { form: ArgumentForm::Value, name: "most-bytes", help: MOST_BYTES_HELP, group: LIMIT_GROUP },
        ArgumentRow { form: ArgumentForm::Value, name: "most-budget", help: MOST_BUDGET_HELP, group: LIMIT_GROUP },
        ArgumentRow { form: ArgumentForm::Value, name: "most-members", help: MOST_MEMBERS_HELP, group: LIMIT_GROUP },
        ArgumentRow { form: ArgumentForm::Flag, name: "order", help: ORDER_HELP, group: OUTPUT_GROUP },
        ArgumentRow { form: ArgumentForm::Flag, name: "trace", help: "Write the trace before the report: a line `events`, a line for each event, a line `end`", group: OUTPUT_GROUP },
        ArgumentRow { form: ArgumentForm::Flag, name: "stats", help: STATS_HELP, group: OUTPUT_GROUP },
        ArgumentRow { form: ArgumentForm::Flag, name: "json", help: JSON_HELP, group: OUTPUT_GROUP },
        ArgumentRow { form: ArgumentForm::Flag, name: "picture", help: "Write an SVG timeline of the events instead of the report", group: OUTPUT_GROUP },
        ArgumentRow { form: ArgumentForm::Value, name: "from", help: FROM_HELP, group: OUTPUT_GROUP },
        ArgumentRow { form: ArgumentForm::Value, name: "to", help: TO_HELP, group: OUTPUT_GROUP },
        ArgumentRow { form: ArgumentForm::Flag, name: "quiet", help: "Don't print on standard error how many events there are so far, or how many lines of --each are answered", group: OUTPUT_GROUP },
        ArgumentRow { form: ArgumentForm::Positions, name: "input", help: INPUT_HELP, group: INPUT_GROUP },
    ] },
    CommandRow { name: "replay", reads_program: true, help: REPLAY, arguments: &[
        ArgumentRow { form: ArgumentForm::Flag, name: "text", help: TEXT_HELP, group: INPUT_GROUP },
        ArgumentRow { form: ArgumentForm::Trace, name: "events", help: EVENTS_HELP, group: INPUT_GROUP },
        ArgumentRow { form: ArgumentForm::Inputs, name: "inputs", help: INPUTS_HELP, group: INPUT_GROUP },
        ArgumentRow { form: ArgumentForm::Value, name: "engines", help: ENGINES_HELP, group: RUN_GROUP },
        ArgumentRow { form: ArgumentForm::Value, name: "servers", help: SERVERS_HELP, group: RUN_GROUP },
        ArgumentRow { form: ArgumentForm::Value, name: "workers", help: WORKERS_HELP, group: RUN_GROUP },
        ArgumentRow { form: ArgumentForm::Flag, name: "stats", help: STATS_HELP, group: OUTPUT_GROUP },
        ArgumentRow { form: ArgumentForm::Flag, name: "json", help: JSON_HELP, group: OUTPUT_GROUP },
        ArgumentRow { form: ArgumentForm::Positions, name: "input", help: INPUT_HELP, group: INPUT_GROUP },
    ] },
    CommandRow { name: "picture", reads_program: true, help: PICTURE, arguments: &[
        ArgumentRow { form: ArgumentForm::Flag, name: "text", help: TEXT_HELP, group: INPUT_GROUP },
        ArgumentRow { form: ArgumentForm::Trace, name: "events", help: EVENTS_HELP, group: INPUT_GROUP },
        ArgumentRow { form: ArgumentForm::Inputs, name: "inputs", help: INPUTS_HELP, group: INPUT_GROUP },
        ArgumentRow { form: ArgumentForm::Value, name: "engines", help: ENGINES_HELP, group: RUN_GROUP },
        ArgumentRow { form: ArgumentForm::Value, name: "servers", help: SERVERS_HELP, group: RUN_GROUP },
        ArgumentRow { form: ArgumentForm::Value, name: "workers", help: WORKERS_HELP, group: RUN_GROUP },
        ArgumentRow { form: ArgumentForm::Value, name: "from", help: FROM_HELP, group: OUTPUT_GROUP },
        ArgumentRow { form: ArgumentForm::Value, name: "to", help: TO_HELP, group: OUTPUT_GROUP },
        ArgumentRow { form: ArgumentForm::Positions, name: "input", help: INPUT_HELP, group: INPUT_GROUP },
    ] },
    CommandRow { name: "explain", reads_program: false, help: EXPLAIN, arguments: &[
        ArgumentRow { form: ArgumentForm::Flag, name: "json", help: JSON_HELP, group: OUTPUT_GROUP },
        ArgumentRow { form: ArgumentForm::Position, name: "number", help: "The code, such as A02, V04 or C5; without it all are listed", group: INPUT_GROUP },
    ] },
];
