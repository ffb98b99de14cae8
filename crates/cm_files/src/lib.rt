//! Declared mounts and files: a table of them, in which a path finds its row, and each row as its mount shows it
//! (mount_setattr(2), capabilities(7)); `FileRows` are files as they are declared. Contracts see the table as the record of the definitions in model_cred;
//! `see_files` hands out what each table keeps.
#![tactic(auto)]

mod fault;
mod filling;
mod index;
mod mount;
mod row;
mod rows;
mod seeing;
mod slots;
mod table;
mod text;
mod view;

pub use fault::BadFiles;
pub use mount::{MapPair, Mount};
pub use row::FileRow;
pub use rows::FileRows;
pub use seeing::see_files;
pub use table::FileTable;
pub use text::Text;
pub use view::FileView;
