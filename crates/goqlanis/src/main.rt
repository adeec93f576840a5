//! The program `goqlanis`: makes and reads QR and Micro QR codes. `goqlanis --help` says how.
#![tactic(auto)]

mod tasks;

use std::process::ExitCode;

fn main(rt: HostRuntime) -> ExitCode {
    tasks::run(&rt)
}
