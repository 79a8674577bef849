//! The events of rules and notices.

ghost use Rattle.std.specs.Prelude.{◌≡◌, ◌<◌, ◌^◌, ◌==◌, ◌&&◌, nat_lt, Err};
ghost use Rattle.std.specs.Option.{option_copied};
ghost use Rattle.tw_types.specs.Outcome.{enabled};
ghost use Rattle.tw_types.specs.Store.{server_of};
ghost use Rattle.tw_code.specs.machine.Machine.{ask_event, deliver_event, own_rule, release_event};
ghost use Rattle.tw_code.specs.machine.State.{State as Meaning};
ghost use Rattle.tw_instr.specs.Attempts.{Changes, unless_barred};
ghost use Rattle.tw_machine.specs.Events.{TablesChange, with_frames, with_tables};
ghost use Rattle.tw_machine.specs.Memory.{IsAskOfOpen, Succeeds};
ghost use Rattle.tw_machine.specs.Parts.{frames_of};

use crate::rule::Rule;
use crate::tables::Tables;
use std::alloc::Global;
use std::collections::BTreeMap;
use tw_code::Procedure;
use tw_instr::{Barred, Frame, Notices, Stopped, procedure_of};
use tw_types::{Actor, Cause, DatumId, Layout, Notice, RuleNo, Stage, Subscriber};

/// Returns the rule of the number for an event Ask or Release, if the engine holds it and runs no task.
fn own_rule<'a>(
    tables: &'a Tables,
    frames: &BTreeMap<Actor, Frame>,
    engine: u8,
    number: RuleNo,
) -> Option<&'a Rule>
    ensures { (s : Meaning) → own_rule engine number (with_frames (with_tables s tables.now) (frames_of frames.now.entries)) ≡ enabled (option_copied result) }
{
    if frames.contains_key(&Actor::Engine(engine)) {
        return None;
    }
    let Some(rule) = tables.rules.get(number) else {
        return None;
    };
    if rule.engine() != engine {
        return None;
    }
    Some(rule)
}

/// Makes the reference machine's event Ask: a parameter of a rule becomes ready if its datum is closed, else it waits.
pub fn ask(
    tables: &mut Tables,
    frames: &BTreeMap<Actor, Frame>,
    engine: u8,
    number: RuleNo,
    parameter: u8,
) -> Result<(), Stopped>
    ensures asks { TablesChange (ask_event engine number parameter) (frames_of frames.now.entries) tables.old result tables.new }
    ensures memory { result ≡ Err Stopped.NoMemory → (s : Meaning) → IsAskOfOpen engine number parameter (with_frames (with_tables s tables.old) (frames_of frames.now.entries)) }
{
    let Some(rule) = own_rule(tables, frames, engine, number) else {
        return Err(Stopped::NotEnabled);
    };
    let Some(id) = rule.unasked_id(parameter) else {
        return Err(Stopped::NotEnabled);
    };
    let Some(datum) = tables.store.datum(id) else {
        return Err(Stopped::Trap(Cause::FreedDatum));
    };
    if datum.closed() {
        tables.rules.set_stage(number, parameter, Stage::Ready);
    } else {
        let subscriber = Subscriber {
            rule: number,
            parameter,
        };
        tables.store.subscribe(id, subscriber)?;
        tables.rules.set_stage(number, parameter, Stage::Waiting);
    }
    Ok(())
}

/// Returns whether the server is in the layout and delivers the notices of a datum, for an event Deliver.
fn is_of_server(layout: Layout, server: u8, id: DatumId) -> bool
    ensures { result ≡ (nat_lt server layout.servers && (server_of layout.servers id == server)) }
{
    let servers = layout.servers();
    server < servers && id.number() % u64::from(servers) == u64::from(server)
}

/// Makes the reference machine's event Deliver: the notice's parameter becomes ready, if the rule is still pending.
pub fn deliver(
    layout: Layout,
    tables: &mut Tables,
    server: u8,
    notice: &Notice,
) -> Result<(), Barred>
    ensures { (s : Meaning) → Changes (deliver_event layout server notice.now (with_tables s tables.old)) (with_tables s tables.old) (unless_barred result) (with_tables s tables.new) }
{
    if !is_of_server(layout, server, notice.datum) {
        return Err(Barred::NotEnabled);
    }
    if !tables.notices.remove(notice) {
        return Err(Barred::NotEnabled);
    }
    tables
        .rules
        .set_stage(notice.rule, notice.parameter, Stage::Ready);
    Ok(())
}

/// Makes the reference machine's event Release: a rule becomes a waiting task.
pub fn release(
    alloc: Global,
    program: &[Procedure],
    tables: &mut Tables,
    frames: &BTreeMap<Actor, Frame>,
    engine: u8,
    number: RuleNo,
) -> Result<(), Stopped>
    requires { tables.old.tasks.next < 2 ^ 63 }
    ensures releases { TablesChange (release_event program.now engine number) (frames_of frames.now.entries) tables.old result tables.new }
    ensures memory { result ≡ Err Stopped.NoMemory → (s : Meaning) → Succeeds (release_event program.now engine number (with_frames (with_tables s tables.old) (frames_of frames.now.entries))) }
{
    let Some(rule) = own_rule(tables, frames, engine, number) else {
        return Err(Stopped::NotEnabled);
    };
    if !rule.is_releasable() {
        return Err(Stopped::NotEnabled);
    }
    let procedure = procedure_of(program, rule.procedure())?;
    let task = rule.task(alloc, procedure.kind)?;
    tables.tasks.put(alloc, task)?;
    tables.rules.remove(number);
    Ok(())
}
