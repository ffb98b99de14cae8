//! Definitions: credentials, id maps, user namespaces, processes, the state, calls and events. No code.
#![tactic(auto)]
