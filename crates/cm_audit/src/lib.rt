//! The audit: the verdict on a right of a family. No, with a run after which a member holds it; yes, with the least bounds,
//! which exclude it; or undecided, with what brings the right into the bounds. What each says of all later runs is a clause
//! of `audit`. And the credential line of a process, as text.
#![tactic(auto)]

mod auditing;
mod laws;
mod verdict;

pub use auditing::{ask, audit, is_over_standing, judge};
pub use cm_credentials::{credentials, put_credentials};
pub use laws::audits_rest_on_the_family_alone;
pub use verdict::{AuditRefusal, Question, Verdict};
