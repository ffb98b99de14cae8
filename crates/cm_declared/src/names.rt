// The names of the declared user namespaces, called spaces here, and the tokens that stand for spaces (choice).
ghost use Rattle.std.specs.Prelude.{◌≡◌, ◌<◌, ◌≤◌, ◌+◌, ◌∷◌, ℕ, List, map, option_map, position, bytes_eq, length, slice_get, [], IfSome};
ghost use Rattle.cm_base.specs.Limits.{id_count};
ghost use Rattle.std.specs.String.{string_bytes};
ghost use Rattle.cm_base.specs.Outcome.{OrNoMemory, UnchangedOnErr};
ghost use Rattle.cm_tokens.specs.Pieces.{Appends};
ghost use Rattle.model_text.specs.NameText.{is_one_of};
ghost use Rattle.model_text.specs.SpaceText.{space_named};
ghost use Rattle.model_text.specs.SpaceToken.{space_of_token, name_of_space, number_named, hash_number};

use cm_base::{NoMemory, SpaceId, read_u32};
use std::alloc::Global;
use std::marker::Model;

/// The names of the declared spaces: of space 1, of space 2, and so on.
#[derive(Debug, Drop)]
pub struct Names {
    list: Vec<String>,
}

impl Model for Names {
    ghost use Rattle.std.specs.Prelude.{ℕ, List, map, ◌<◌, length};
    ghost use Rattle.std.specs.String.{string_bytes};
    ghost use Rattle.cm_base.specs.Limits.{id_count};

    ghost Value = { List (List ℕ) };

    ghost view = { λ n. map string_bytes n.list.items };

    ghost invariant = { λ n. length n.list.items < id_count };
}

impl Names {
    /// No names: no space is declared.
    pub fn none(alloc: Global) -> Names
        ensures { result ≡ [] }
    {
        Names {
            list: Vec::new(alloc),
        }
    }

    /// These names, of space 1, of space 2, and so on.
    pub fn from_vec(list: Vec<String>) -> Names
        requires { length list.items < id_count }
        ensures { result ≡ map string_bytes list.items }
    {
        Names { list }
    }

    /// The space that a token stands for: space 0 for `init`, its space for a declared name, space N for `#N` with N a
    /// number, whether that space stands or not. None for any other token.
    pub fn space(&self, token: &[u8]) -> Option<SpaceId>
        ensures { option_map (λ s. s.0) result ≡ space_of_token self.now token.now }
    {
        if token == b"init".as_slice() {
            return Some(SpaceId(0));
        }
        match self.declared(token) {
            Some(number) => Some(SpaceId(number)),
            None => Some(SpaceId(hash_number(token)?)),
        }
    }

    /// The name of a space: `init` for space 0, the declared name of a declared space, None for any other.
    pub fn name(&self, s: SpaceId) -> Option<&str>
        ensures { option_map (λ name. name.now) result ≡ name_of_space self.now s.0 }
    {
        if s.0 == 0 {
            return Some("init");
        }
        name_at(&self.list, s.0 as usize - 1)
    }

    /// The space of that name: `init`, or a declared one.
    pub fn named(&self, name: &[u8]) -> Option<SpaceId>
        ensures number { option_map (λ s. s.0) result ≡ space_named self.now name.now }
        ensures range { IfSome result (λ s. s.0 ≤ length self.now) }
    {
        if name == b"init".as_slice() {
            return Some(SpaceId(0));
        }
        match self.declared(name) {
            Some(number) => Some(SpaceId(number)),
            None => None,
        }
    }

    /// A space of that name is declared.
    pub fn has(&self, name: &[u8]) -> bool
        ensures { result ≡ is_one_of self.now name.now }
    {
        has_text(&self.list, name)
    }

    /// One name more, of the next space. It fails only where memory runs out, and then leaves the names as they were.
    pub fn push(&mut self, alloc: Global, name: &str) -> Result<(), NoMemory>
        requires { length self.old + 1 < id_count }
        ensures pushed { OrNoMemory result (λ _. Appends self.old self.new (name.now ∷ [])) }
        ensures unchanged { UnchangedOnErr result self.new self.old }
    {
        let name = String::from_str(alloc, name)?;
        self.list.push(name)?;
        Ok(())
    }

    /// The number of the first declared space of that name.
    #[tactic(auto, using(crate::proofs::SpaceNames::number_named_place))]
    fn declared(&self, name: &[u8]) -> Option<u32>
        ensures number { result ≡ number_named 1 self.now name.now }
        ensures range { IfSome result (λ number. number ≤ length self.now) }
    {
        match place_of(&self.list, name) {
            Some(place) => Some(1 + place as u32),
            None => None,
        }
    }
}

/// One of the names is this one.
fn has_text(names: &[String], name: &[u8]) -> bool
    ensures { result ≡ is_one_of (map string_bytes names.now) name.now }
{
    for known in names {
        if known.as_bytes() == name {
            return true;
        }
    }
    false
}

/// The place of the first of the names that is this one.
fn place_of(names: &[String], name: &[u8]) -> Option<usize>
    ensures first { result ≡ position (λ known. bytes_eq (string_bytes known) name.now) names.now }
    ensures within { IfSome result (λ place. place < length names.now) }
{
    names.iter().position(|known| known.as_bytes() == name)
}

/// The name at a place.
fn name_at(names: &[String], place: usize) -> Option<&str>
    ensures { option_map (λ name. name.now) result ≡ slice_get (map string_bytes names.now) place }
{
    if place < names.len() {
        Some(names[place].as_str())
    } else {
        None
    }
}

/// The number after a `#`.
fn hash_number(token: &[u8]) -> Option<u32>
    ensures { result ≡ hash_number token.now }
{
    match token {
        [b'#', digits @ ..] => read_u32(digits).ok(),
        _ => None,
    }
}
