//! A run of a script: reads a script from any reader, executes it in a mode, and writes its text to any writer.
#![tactic(auto)]

mod by_workers;
mod fault;
mod input;
mod output;
mod runs;
mod serial;
mod watched;

pub use by_workers::{ServedText, workers_text};
pub use fault::RunFault;
pub use input::{ReadFault, read_input};
pub use output::{WriteFault, write_text};
pub use runs::{Mode, run};
pub use watched::Watched;
