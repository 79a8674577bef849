//! Orders to run a program, and to replay a trace.

ghost use Rattle.std.specs.Prelude.{◌≡◌};
ghost use Rattle.tw_order.specs.Orders.{may_be_stopped};

use crate::caps::Caps;
use crate::limit::EventLimit;
use crate::range::EventRange;
use std::time::Duration;
use tw_types::{Input, Items, Layout};

/// The output of a run.
#[derive(Clone, Copy, PartialEq, Eq)]
pub enum RunAnswer {
    /// The report.
    Report,
    /// The report, followed by statistics.
    Numbers,
    /// The report, followed by whether the order of events may show in outputs.
    Order,
    /// The run as a JSON object on one line.
    Json,
    /// Like `Json`, with a member that says whether the order may show.
    OrderJson,
    /// The timeline of these events.
    Picture(EventRange),
}

/// How a program is run.
#[derive(Clone, Copy)]
pub struct RunOptions {
    /// The output of the run.
    pub answer: RunAnswer,
    /// The actors.
    pub layout: Layout,
    /// The maximum number of events.
    pub limit: EventLimit,
    /// The caps above which the program isn't admitted.
    pub caps: Caps,
    /// Whether the trace is written before the report.
    pub trace: bool,
    /// Whether all actors run in one thread.
    pub in_turn: bool,
    /// The seed of another order of their steps in one thread, if there is one.
    pub seed: Option<u64>,
    /// After how many seconds the run is stopped, if its time is limited.
    pub seconds: Option<Duration>,
    /// Whether an observer watches the run, and may stop it.
    pub is_watched: bool,
}

impl RunOptions {
    /// Returns whether something may stop the run before its end.
    pub fn may_be_stopped(&self) -> bool
        ensures { result ≡ may_be_stopped self.now }
    {
        self.is_watched || self.seconds.is_some()
    }
}

/// Where main's inputs are: one for each word or item, in their order.
#[derive(Drop)]
pub enum RunInputs {
    /// They were input arguments.
    Given(Items<Input>),
    /// Words in the lines after the program encode them.
    Words,
    /// They are the items of a JSON array after the program.
    Json,
}

/// The order to run a program with these inputs of main.
#[derive(Drop)]
pub struct RunOrder {
    pub options: RunOptions,
    pub inputs: Items<Input>,
}

/// How a program is run on each line of inputs that follows it. The runs are single-threaded.
#[derive(Clone, Copy)]
pub struct EachOrder {
    /// The actors.
    pub layout: Layout,
    /// The maximum number of events of each run.
    pub limit: EventLimit,
    /// How many threads answer the lines, from 1 to 64. The answers are the same.
    pub jobs: usize,
    /// After how many seconds each run is stopped, if its time is limited.
    pub seconds: Option<Duration>,
    /// The caps above which the program isn't admitted.
    pub caps: Caps,
}

/// The output of a trace whose events all succeed.
#[derive(Clone, Copy, PartialEq, Eq)]
pub enum Answer {
    /// The report of the state to which the events lead.
    Report,
    /// The report, followed by the statistics of the events.
    Numbers,
    /// The state as a JSON object on one line.
    Json,
    /// The timeline of the events in this range.
    Picture(EventRange),
}

/// The order to replay a trace.
#[derive(Drop)]
pub struct ReplayOrder {
    /// The output of the replay.
    pub answer: Answer,
    /// The actors.
    pub layout: Layout,
    /// Main's inputs, one for each input argument, in their order.
    pub inputs: Items<Input>,
}
