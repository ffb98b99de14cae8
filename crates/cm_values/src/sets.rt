// The sets of capabilities that a row declares (capabilities(7), "Thread capability sets").
ghost use Rattle.std.specs.Prelude.{◌≡◌};
ghost use Rattle.model_text.specs.ProcessText as model;
ghost use Rattle.toml.specs.View.{table_view};

use crate::ids::ids_at;
use crate::text_at;
use cm_base::CapWord;
use cm_state::FourIds;
use cm_tokens::read_cap_text;
use std::marker::Model;
use toml::Table;

/// The five sets of a process.
#[derive(Drop)]
pub struct FiveSets {
    pub permitted: CapWord,
    pub effective: CapWord,
    pub inheritable: CapWord,
    pub ambient: CapWord,
    pub bounding: CapWord,
}

impl Model for FiveSets {
    ghost use Rattle.model_text.specs.ProcessText as model;

    ghost Value = { model.FiveSets };

    ghost view = { λ s. record {
      permitted = s.permitted;
      effective = s.effective;
      inheritable = s.inheritable;
      ambient = s.ambient;
      bounding = s.bounding;
    } };
}

impl FiveSets {
    /// The effective set is within the permitted one, the ambient set within the permitted and the inheritable one.
    pub fn are_included(&self) -> bool
        ensures { result ≡ model.are_included self.now }
    {
        self.effective.within(self.permitted)
            && self.ambient.within(self.permitted)
            && self.ambient.within(self.inheritable)
    }
}

/// The sets that a row declares. None where a text is no set.
pub fn sets_declared(row: &Table) -> Option<FiveSets>
    ensures { result ≡ model.sets_declared (table_view row.now) }
{
    sets_with(ids_at(row, "uid"), row)
}

/// The sets that a row declares of a process with these user ids. None where a text is no set.
fn sets_with(uid: FourIds, row: &Table) -> Option<FiveSets>
    ensures { result ≡ model.sets_with uid (table_view row.now) }
{
    let held = held_by_default(uid);
    let permitted = set_at(held, "permitted", row)?;
    let effective = set_at(held, "effective", row)?;
    let inheritable = set_at(CapWord::empty(), "inheritable", row)?;
    let ambient = set_at(CapWord::empty(), "ambient", row)?;
    let bounding = set_at(CapWord::full(), "bounding", row)?;
    Some(FiveSets {
        permitted,
        effective,
        inheritable,
        ambient,
        bounding,
    })
}

/// What is permitted and effective where the row doesn't declare it: all where the effective user id is 0, else none.
fn held_by_default(uid: FourIds) -> CapWord
    ensures { result ≡ model.held_by_default uid }
{
    if uid.effective == 0 {
        CapWord::full()
    } else {
        CapWord::empty()
    }
}

/// The set that a row declares at the key, or the default where there is no such text. None where the text is no set.
fn set_at(default: CapWord, key: &str, row: &Table) -> Option<CapWord>
    ensures { result ≡ model.set_at default key.now (table_view row.now) }
{
    match text_at(row, key) {
        Some(text) => read_cap_text(text.as_bytes()),
        None => Some(default),
    }
}
