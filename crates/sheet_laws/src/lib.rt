//! Laws of stylesheets that were compiled: functions without code whose contracts say what holds of each.
#![tactic(auto)]

mod running;

pub use running::compiled_sheets_can_run;
