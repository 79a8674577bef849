//! The reference machine's instructions, one function each. An instruction changes a running task and live data.
//!
//! * `Data` is the live data by bare ids. Before a call, its check is called: `may_store`, `may_insert` and so on.
//! * `Position` is the place, the values and the loops of a task, which is all that a local instruction changes.
//! * `Frame` is a running task. An instruction on data (`data_instr`) also changes its right registers, the data and the
//! notices.
//!
//! Each instruction succeeds, or fails with a cause of the machine or a failed allocation. Only an event can also be not
//! enabled.
#![tactic(auto)]

mod arguments;
mod changes;
mod code;
mod containers;
mod data;
mod datum;
mod failure;
mod frame;
mod freeing;
mod local;
mod map_calls;
mod maps;
mod notice_key;
mod notices;
mod on_data;
mod on_texts;
mod position;
mod right_registers;
mod rights;
mod scalars;
mod stopped;
mod task;
mod value_registers;

pub use arguments::{Arg, Named, called, put_called};
pub use code::{instr_at, procedure_of};
pub use data::Data;
pub use datum::Datum;
pub use failure::{Failure, must};
pub use frame::Frame;
pub use local::{count_local, local_steps};
pub use notice_key::NoticeKey;
pub use notices::Notices;
pub use on_data::data_instr;
pub use position::Position;
pub use stopped::{Barred, Stopped};
pub use task::Task;
pub use tw_datum::{Content, RankedMap};
pub use value_registers::value_at;
