//! Definitions: what each call answers and leaves, by the rules of the manual pages. No code.
#![tactic(auto)]
