//! Definitions: the texts of worlds, logs and reports. No code.
#![tactic(auto)]
