//! The events, each as a function on the parts of the state that it changes.

pub mod calls;
pub mod rules;
pub mod tasks;
