// Lines of a run.
use machine::Answer;

// One line for each command: it holds the command's answer. C lends it to `finaruvom_run` and `finaruvom_collect`.
#[repr(C)]
#[derive(Clone, Copy)]
pub struct Line {
    pub answer: Answer,
}
