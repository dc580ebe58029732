// Reads the text of `propose` from standard input and writes every point that was drawn for a new trial with a model,
// with its expected improvement.
#![tactic(auto)]

use std::env::{Env, FillError};

fn main(rt: HostRuntime) {
    // Kept: as in propose: no contract says what the arguments are, so a public function of this could promise nothing.
    let mut argument = [0u8; 1];
    if !matches!(rt.arg(1, &mut argument), Err(FillError::NotPresent)) {
        let _ = eprintln!(rt;
            "audit takes no argument. It reads the text of propose from standard input, \
             and writes the points drawn for each new trial with a model: audit < TEXT"
        );
        return;
    }
    propose_io::run_points(rt, u64::MAX);
}
