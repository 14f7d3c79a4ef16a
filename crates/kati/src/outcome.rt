//! The result of translating a makefile.
use kt_eval::Fault;
use kt_list::Sequence;
use kt_ninja::Plan;

/// A translation that came to its end: its messages, and the plan or the fault that ended the reading.
#[derive(Debug, Drop)]
pub struct Outcome {
    /// In order of evaluation, each without its newline.
    pub messages: Sequence<Sequence<u8>>,
    pub result: Result<Plan, Fault>,
}
