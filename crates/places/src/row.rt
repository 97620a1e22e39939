// Where the words of a row's step and of its report hold what.

// In a step: the handler that asks.
pub const STEP_HANDLER: usize = 0;

// In a step: its code.
pub const STEP_CODE: usize = 1;

// In a step: its value, where it is a write.
pub const STEP_VALUE: usize = 2;

// In a report: the handler, as it was given.
pub const REPORT_HANDLER: usize = 0;

// In a report: the code, as it was given.
pub const REPORT_CODE: usize = 1;

// In a report: the kind of reply.
pub const REPORT_KIND: usize = 2;

// In a report: the reply's value or number.
pub const REPORT_DETAIL: usize = 3;

// In a report: the cell that the reply names.
pub const REPORT_CELL: usize = 4;
