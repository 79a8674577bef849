//! The runs of a case, made from its words.

use crate::tables::Order;
use std::alloc::Global;
use tw_case_lines::{Complaint, read_inputs, read_layout};
use tw_types::{Input, Layout};

/// The inputs, the layout and the limit of a run. `others` are the inputs of a second run.
#[derive(Drop)]
pub struct Given {
    pub inputs: Vec<Input>,
    pub others: Vec<Input>,
    pub layout: Layout,
    pub limit: usize,
    pub order: Order,
}

/// Reads what a case of hosts is given: a layout, then ` reversed` or ` shuffled`, ` limit N`, ` with INPUTS` and ` and INPUTS`,
/// if they are there.
pub fn read_given(alloc: Global, words: &str) -> Result<Given, Complaint> {
    let (words, inputs) = words.split_once(" with ").unwrap_or((words, ""));
    let (inputs, others) = inputs.split_once(" and ").unwrap_or((inputs, inputs));
    let (words, limit) = words.split_once(" limit ").unwrap_or((words, "100"));
    let (layout, order) = match words.rsplit_once(' ') {
        Some((layout, "reversed")) => (layout, Order::Reversed),
        Some((layout, "shuffled")) => (layout, Order::Shuffled),
        _ => (words, Order::Kept),
    };
    Ok(Given {
        inputs: read_inputs(alloc, inputs)?,
        others: read_inputs(alloc, others)?,
        layout: read_layout(layout)?,
        limit: limit.parse::<usize>()?,
        order,
    })
}
