// The user namespaces, called spaces here, that a world's text declares.
ghost use Rattle.std.specs.Prelude.{◌≡◌, ◌+◌, ◌<◌, ◌≤◌, ◌++◌, ◌∷◌, [], Some, IfOk, IfSome, IsSomeAnd, length, option_map};
ghost use Rattle.cm_base.specs.Limited.{limit_number};
ghost use Rattle.cm_base.specs.Limits.{id_count};
ghost use Rattle.cm_base.specs.Outcome.{OrNoMemory};
ghost use Rattle.cm_base.specs.declared.faults.Table.TheVariants as table;
ghost use Rattle.cm_base.specs.declared.limited.Limited.TheVariants as limit;
ghost use Rattle.cm_values.specs.Answers.{Gives};
ghost use Rattle.cm_values.specs.Keys.{keys_of};
ghost use Rattle.cm_world.specs.Answers.{Answers};
ghost use Rattle.model_text.specs.Refusal.{first_standing, read_rows, row_of, unless};
ghost use Rattle.model_text.specs.SpaceText as model;
ghost use Rattle.toml.specs.View.{items_view, table_view, view};

use crate::WorldError;
use crate::error::in_row;
use cm_base::{Kuid, Limited, NoMemory, SpaceId, Table as TableName, WorldFault};
use cm_declared::Names;
use cm_state::{Space, Spaces};
use cm_tokens::is_name;
use cm_values::{
    Key, Kind, LAST_ID, Need, RowError, check_keys, flag_at, is_text_at, map_at, number_or,
    stored_under, text_or,
};
use std::alloc::Global;
use std::marker::Model;
use toml::{Table, Value};

/// The declared spaces: their names, of space 1, of space 2, and so on, and the spaces themselves, with the initial one.
#[derive(Debug, Drop)]
pub(crate) struct Declared {
    pub(crate) names: Names,
    pub(crate) spaces: Spaces,
}

impl Model for Declared {
    ghost use Rattle.std.specs.Prelude.{◌≡◌, ◌+◌, length};
    ghost use Rattle.model_text.specs.SpaceText as model;

    ghost Value = { model.Declared };

    ghost view = { λ d. record { names = d.names; spaces = d.spaces } };

    ghost invariant = { λ d. length d.spaces ≡ length d.names + 1 };
}

static KEYS: [Key; 7] = [
    Key("name", Kind::Text, Need::Required),
    Key("parent", Kind::Text, Need::Required),
    Key(
        "owner",
        Kind::Number {
            low: 0,
            high: LAST_ID,
        },
        Need::Required,
    ),
    Key("uid_map", Kind::Extents, Need::Optional),
    Key("gid_map", Kind::Extents, Need::Optional),
    Key("setgroups", Kind::Word(&["allow", "deny"]), Need::Optional),
    Key("creator_setfcap", Kind::Flag, Need::Optional),
];

/// The keys of a space.
fn space_keys() -> &'static [Key]
    ensures { keys_of result.now ≡ model.space_keys }
{
    &KEYS
}

impl Declared {
    /// The initial space alone. It fails only where memory runs out.
    fn none(alloc: Global) -> Result<Declared, NoMemory>
        ensures { OrNoMemory result (λ d. d ≡ model.none_declared) }
    {
        let spaces = Spaces::first(alloc)?;
        let names = Names::none(alloc);
        Ok(Declared { names, spaces })
    }

    /// One space more. It fails only where memory runs out.
    fn with(self, alloc: Global, name: &str, space: Space) -> Result<Declared, NoMemory>
        requires parent { IsSomeAnd space.parent (λ p. p < length self.spaces) }
        requires room { length self.names + 1 < limit_number limit.Spaces }
        ensures { OrNoMemory result (λ d. d ≡ record { names = self.names ++ name.now ∷ []; spaces = space ∷ self.spaces }) }
    {
        let Declared {
            mut names,
            mut spaces,
        } = self;
        names.push(alloc, name)?;
        spaces.add(space)?;
        Ok(Declared { names, spaces })
    }
}

/// The declared spaces of the rows of a text, or the first refusal.
pub(crate) fn read_spaces(alloc: Global, rows: &[Value]) -> Result<Declared, WorldError>
    ensures { Answers result (read_rows table.Space limit.Spaces 1 model.space_row model.none_declared (items_view rows.now)) }
{
    if rows.len() as u64 >= Limited::Spaces.number() {
        return Err(WorldError::Limit(Limited::Spaces));
    }
    let mut declared = Declared::none(alloc)?;
    for (i, row) in rows.iter().enumerate() {
        match with_row(alloc, declared, row) {
            Ok(more) => declared = more,
            Err(e) => return Err(in_row(e, TableName::Space, i as u32 + 1)),
        }
    }
    Ok(declared)
}

/// The spaces with that of one row more, which is a table.
fn with_row(alloc: Global, declared: Declared, row: &Value) -> Result<Declared, RowError>
    requires { length declared.names + 1 < limit_number limit.Spaces }
    ensures gives { Gives result (row_of (model.space_row declared) (view row.now)) }
    ensures one { IfOk result (λ d. length d.names ≡ length declared.names + 1) }
{
    let Value::Table(row) = row else {
        return Err(RowError::Fault(WorldFault::WrongType));
    };
    check_keys(row, space_keys())?;
    let space = space_of_row(alloc, &declared, row)?;
    Ok(declared.with(alloc, text_or(row, "name", ""), space)?)
}

/// The space that a row declares, where the faults of its keys don't stand.
fn space_of_row(alloc: Global, declared: &Declared, row: &Table) -> Result<Space, RowError>
    ensures gives { Gives result (unless (first_standing (model.space_checks declared.now (table_view row.now)))
        (model.space_declared declared.now (table_view row.now))) }
    ensures parent { IfOk result (λ s. IsSomeAnd s.parent (λ p. p < length declared.now.spaces)) }
{
    let name = text_or(row, "name", "");
    if !is_name(name.as_bytes()) {
        return Err(RowError::Fault(WorldFault::BadName));
    }
    if declared.names.has(name.as_bytes()) {
        return Err(RowError::Fault(WorldFault::TwiceNamed));
    }
    let Some(parent) = declared.named(text_or(row, "parent", "").as_bytes()) else {
        return Err(RowError::Fault(WorldFault::NoSuchParent));
    };
    let uids = map_at(alloc, row, "uid_map")?;
    let gids = map_at(alloc, row, "gid_map")?;
    let above = declared.spaces.standing(parent);
    let uids = stored_under(alloc, above.uids.as_ref(), uids)?;
    let gids = stored_under(alloc, above.gids.as_ref(), gids)?;
    if declared.spaces.level(parent) >= 32 {
        return Err(RowError::Fault(WorldFault::TooDeep));
    }
    Ok(Space {
        parent: Some(parent),
        owner: Kuid::of(number_or(row, "owner", 0, LAST_ID, 0)),
        uids,
        gids,
        deny: is_text_at(row, "setgroups", "deny"),
        creator_setfcap: flag_at(row, "creator_setfcap"),
    })
}

impl Declared {
    /// The space of that name.
    fn named(&self, name: &[u8]) -> Option<SpaceId>
        ensures number { option_map (λ s. s.0) result ≡ model.space_named self.now.names name.now }
        ensures stands { IfSome result (λ s. s.0 < length self.now.spaces) }
    {
        self.names.named(name)
    }
}
