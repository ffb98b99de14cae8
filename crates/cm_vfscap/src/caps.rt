// A file's attribute, whatever its bytes were.
use cm_base::CapWord;
use std::marker::Model;

/// The capabilities of a file (capabilities(7), "File capabilities"): its permitted and inheritable sets, of which only 0
/// to 40 are ever held; its effective bit; and its root id as the filesystem has it, 0 for an attribute of version 2
/// (choice).
#[derive(Clone, Copy, Debug, PartialEq, Eq)]
pub struct FileCaps {
    pub permitted: CapWord,
    pub inheritable: CapWord,
    pub effective: bool,
    pub root: u32,
}

impl Model for FileCaps {
    ghost use Rattle.model_cred.specs.Files as model;

    ghost Value = { model.FileCaps };

    ghost view = { λ c. record { permitted = c.permitted; inheritable = c.inheritable; effective = c.effective; root = c.root } };

    ghost inverse = { λ c. record { permitted = c.permitted; inheritable = c.inheritable; effective = c.effective; root = c.root } };
}
