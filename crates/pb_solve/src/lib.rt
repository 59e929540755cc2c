//! The run of the optimiser, from the bytes that are read to the report that is written.
#![tactic(auto)]

mod laws;
mod options;
mod prepare;
mod whole_run;

pub use laws::report_laws;
pub use options::{Options, Ran};
pub use pb_read::Format;
pub use pb_report::{
    Device, RunFault, Status, report_attained, report_infeasible, report_memory, report_optimum,
    report_satisfiable, report_unknown,
};
pub use pb_workers::{Answer, Gate, OpenGate, Part, SolveFault, gather, solve, work};
pub use whole_run::{report_found, run, run_without_threads};
