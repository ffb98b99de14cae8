// A declared file (inode(7), execve(2)).
use crate::Text;
use cm_base::{Kgid, Kuid};
use cm_vfscap::FileCaps;
use std::marker::Model;

/// A declared file: its path, the number of its mount, its owner and group, its mode bits, its attribute
/// security.capability where it has one, and the number of its interpreter's row where it is a script.
#[derive(Debug, Drop)]
pub struct FileRow {
    pub path: Text,
    pub mount: u32,
    pub uid: Kuid,
    pub gid: Kgid,
    pub mode: u32,
    pub caps: Option<FileCaps>,
    pub interpreter: Option<u32>,
}

impl Model for FileRow {
    ghost use Rattle.model_cred.specs.Files as model;

    ghost Value = { model.FileRow };

    ghost view = { λ r. record {
      path = r.path;
      mount = r.mount;
      uid = r.uid;
      gid = r.gid;
      mode = r.mode;
      caps = r.caps;
      interpreter = r.interpreter;
    } };
}
