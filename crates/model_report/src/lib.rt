//! Definitions: what a command answers and writes, and what is proved of it. No code.
#![tactic(auto)]
