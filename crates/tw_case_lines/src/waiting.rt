//! Waiting tasks, rules and notices of the reference machine, as a text.

use crate::state::put_value;
use crate::text::Text;
use tw_machine::{Arg, State};
use tw_types::Stage;

/// Adds the waiting tasks, such as `t2 procedure 1 priority 0 any d2 7`, by number. Then adds the rules, such as `r1 e0 procedure 1 priority 0 target
/// 3 d2 unasked d1 free`, by number, and the notices in their order, such as `n2 r1 0`.
pub fn put_waiting(text: &mut Text, state: &State) {
    for (number, task) in state.tasks() {
        text.number("t", *number);
        put_action(text, task.procedure(), task.priority(), task.target());
        for arg in task.args() {
            put_arg(text, arg);
        }
        text.put("\n");
    }
    put_rules(text, state);
    for key in state.notices() {
        let notice = key.notice();
        text.number("n", notice.datum.number());
        text.number(" r", notice.rule.number());
        text.number(" ", u64::from(notice.parameter));
        text.put("\n");
    }
}

/// Adds a line to a case's output for each pending rule, with the stages of its parameters.
fn put_rules(text: &mut Text, state: &State) {
    for (number, rule) in state.rules() {
        text.number("r", *number);
        text.number(" e", u64::from(rule.engine()));
        put_action(text, rule.procedure(), rule.priority(), rule.target());
        for (arg, stage) in rule.args().iter().zip(rule.stages()) {
            put_arg(text, arg);
            text.put(match *stage {
                Stage::Free => " free",
                Stage::Unasked => " unasked",
                Stage::Waiting => " waiting",
                Stage::Ready => " ready",
            });
        }
        text.put("\n");
    }
}

/// Adds the procedure, priority and target of a waiting task or a rule to a case's output.
fn put_action(text: &mut Text, procedure: u8, priority: i64, target: Option<u8>) {
    text.number(" procedure ", u64::from(procedure));
    text.put(" priority ");
    text.display(&priority);
    match target {
        Some(target) => text.number(" target ", u64::from(target)),
        None => text.put(" any"),
    }
}

/// Adds an argument of a waiting task or a rule to a case's output: a value, or a datum's id.
fn put_arg(text: &mut Text, arg: &Arg) {
    match arg {
        Arg::Value(value) => put_value(text, value),
        Arg::Right(datum) => text.number(" d", datum.number()),
    }
}
