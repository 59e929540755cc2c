//! Runs over devices in memory, and workers on one board.

mod alone;
mod cases;
mod devices;
mod failing_devices;
mod gates;
mod limits;
mod runs;
mod turns;
mod workers;
