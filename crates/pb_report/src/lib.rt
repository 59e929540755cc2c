//! The reports of solvers: how one is written to a device, and what one that is read claims of an instance.
#![tactic(auto)]

mod claims;
mod device;
mod draft;
mod ends;
mod faults;
mod keys;
mod laws;
mod numbers;
mod reading;
mod statuses;
mod values;
mod words;
mod writing;

pub use claims::{Claim, Witness};
pub use device::Device;
pub use ends::{Refusal, RunFault};
pub use faults::{ReportFault, ReportKind};
pub use laws::reading_laws;
pub use reading::read_report;
pub use statuses::Status;
pub use writing::{
    report_attained, report_infeasible, report_memory, report_optimum, report_refusal,
    report_satisfiable, report_unknown,
};
