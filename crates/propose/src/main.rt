// Reads the three tables of a text from standard input and writes an answer for each call as it is read.
#![tactic(auto)]

use std::env::{Env, FillError};

fn main(rt: HostRuntime) {
    // Kept: as in audit: no contract says what the arguments are, so a public function of this could promise nothing.
    let mut argument = [0u8; 1];
    if !matches!(rt.arg(1, &mut argument), Err(FillError::NotPresent)) {
        let _ = eprintln!(rt;
            "propose takes no argument. It reads settings, a history and calls from standard input, \
             and writes an answer for each call: propose < TEXT"
        );
        return;
    }
    propose_io::run_text(rt, u64::MAX);
}
