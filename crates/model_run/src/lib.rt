//! Definitions: a step of the machine, and runs of events. No code.
#![tactic(auto)]
