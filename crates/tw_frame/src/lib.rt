//! Frames and jobs. A frame is a running task, as the pool stores it. A job is its work up to its next instruction that isn't
//! local, which runs on registers without tags.
#![tactic(auto)]

mod arithmetic;
mod context;
mod dispatch;
mod draft;
mod frame;
mod frame_buffers;
mod job;
mod job_buffer;
mod loops;
mod registers;
mod rights;
mod run;
mod start;
mod step;
mod text_step;
mod texts;

pub use draft::Draft;
pub use frame::Frame;
pub use frame_buffers::FrameBuffers;
pub use job::{Cut, Done, Job, JobState};
pub use start::Start;
