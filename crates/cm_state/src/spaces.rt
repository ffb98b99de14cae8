// The user namespaces of the machine, called spaces here, as a tree. Each is named by its place in the order of their
// creation, 0 for the initial one, and the parent of each other stands before it. Spaces are added; only the newest may go.
ghost use Rattle.std.specs.Prelude.{◌≡◌, ◌∷◌, ◌<◌, All, IfSome, IsSomeAnd, Some, length, option_map};
ghost use Rattle.cm_base.specs.Limits.{greatest_number};
ghost use Rattle.cm_base.specs.declared.id.SpaceId.{SpaceId};
ghost use Rattle.cm_base.specs.Outcome.{OrNoMemory, UnchangedOnErr};
ghost use Rattle.model_cred.specs.Space.{first_spaces, space_at, space_of, put_space, chain, chain_from, IsTree, KeepsSpace};

use crate::Space;
use crate::seeing::see_spaces;
use cm_base::{NoMemory, SpaceId};
use cm_idmap::IdMap;
use std::alloc::Global;
use std::marker::Model;

/// The spaces that stand, at most 4294967295 of them.
#[derive(Debug, Drop)]
pub struct Spaces {
    list: Vec<Space>,
}

impl Model for Spaces {
    ghost use Rattle.std.specs.Prelude.{◌≤◌, length, reverse};
    ghost use Rattle.cm_base.specs.Limits.{greatest_number};
    ghost use Rattle.model_cred.specs.Space as model;

    ghost Value = { model.Spaces };

    ghost view = { λ spaces. reverse spaces.list.items };

    ghost invariant = { λ spaces. model.IsTree (reverse spaces.list.items) × (length spaces.list.items ≤ greatest_number) };
}

impl Spaces {
    /// The initial space alone. It fails only where memory runs out.
    pub fn first(alloc: Global) -> Result<Spaces, NoMemory>
        ensures { OrNoMemory result (λ spaces. spaces ≡ first_spaces) }
    {
        let mut list = Vec::new(alloc);
        list.push(Space::initial(alloc)?)?;
        Ok(Spaces { list })
    }

    /// The space of that number. None exactly where it doesn't stand. It takes no memory.
    pub fn get(&self, s: SpaceId) -> Option<&Space>
        ensures { option_map (λ space. space.now) result ≡ space_at self.now s.0 }
    {
        let at = s.0 as usize;
        if at < self.list.len() {
            Some(&self.list[at])
        } else {
            None
        }
    }

    /// The space of a number that stands. It takes no memory.
    pub fn standing(&self, s: SpaceId) -> &Space
        requires { s.0 < length self.now }
        ensures { result.now ≡ space_of self.now s.0 }
    {
        &self.list[s.0 as usize]
    }

    /// The parent of a space that stands, which is older, None for the initial space. It takes no memory.
    pub fn parent(&self, s: SpaceId) -> Option<SpaceId>
        requires { s.0 < length self.now }
        ensures parent { option_map (λ (p : SpaceId). p.0) result ≡ (space_of self.now s.0).parent }
        ensures chain { chain self.now s.0 ≡ s.0 ∷ chain_from self.now (option_map (λ (p : SpaceId). p.0) result) }
        ensures older { IfSome result (λ p. p.0 < s.0) }
    {
        self.list[s.0 as usize].parent
    }

    /// How many spaces stand. It takes no memory.
    pub fn count(&self) -> u32
        ensures { result ≡ length self.now }
    {
        self.list.len() as u32
    }

    /// Adds a space whose parent stands, and gives its number. It fails only where memory runs out, and then leaves the
    /// spaces as they were.
    pub fn add(&mut self, s: Space) -> Result<SpaceId, NoMemory>
        requires parent { IsSomeAnd s.parent (λ p. p < length self.old) }
        requires room { length self.old < greatest_number }
        ensures number { OrNoMemory result (λ n. n.0 ≡ length self.old) }
        ensures added { OrNoMemory result (λ _. self.new ≡ s ∷ self.old) }
        ensures unchanged { UnchangedOnErr result self.new self.old }
    {
        let n = self.count();
        self.list.push(s)?;
        Ok(SpaceId(n))
    }

    /// Takes the newest space out, which isn't the initial one; so no space has it as its parent. Nothing but the undoing
    /// of `add` has a use for it: a space in which a process is has to stay. It takes no memory.
    pub fn remove_newest(&mut self) -> Space
        requires { 1 < length self.old }
        ensures { self.old ≡ result ∷ self.new }
    {
        self.list.pop().unwrap()
    }

    /// Writes the map of user ids of a space that stands. It takes no memory.
    pub fn set_uids(&mut self, s: SpaceId, m: IdMap)
        requires { s.0 < length self.old }
        ensures { self.new ≡ put_space s.0 (record (space_of self.old s.0) { uids = Some m }) self.old }
    {
        self.list[s.0 as usize].uids = Some(m);
    }

    /// Writes the map of group ids of a space that stands. It takes no memory.
    pub fn set_gids(&mut self, s: SpaceId, m: IdMap)
        requires { s.0 < length self.old }
        ensures { self.new ≡ put_space s.0 (record (space_of self.old s.0) { gids = Some m }) self.old }
    {
        self.list[s.0 as usize].gids = Some(m);
    }

    /// Writes whether the word in the setgroups file of a space that stands is "deny". It takes no memory.
    pub fn set_deny(&mut self, s: SpaceId, deny: bool)
        requires { s.0 < length self.old }
        ensures { self.new ≡ put_space s.0 (record (space_of self.old s.0) { deny = deny }) self.old }
    {
        self.list[s.0 as usize].deny = deny;
    }

    // They are a tree, and each has what a space keeps. It does nothing but look at them.
    pub(crate) fn see(&self)
        ensures tree { IsTree self.now }
        ensures spaces { All KeepsSpace self.now }
    {
        see_spaces(&self.list);
    }

    /// The same spaces. It fails only where memory runs out.
    pub fn copy(&self, alloc: Global) -> Result<Spaces, NoMemory>
        ensures { OrNoMemory result (λ spaces. spaces ≡ self.now) }
    {
        let list = copy_list(alloc, &self.list)?;
        Ok(Spaces { list })
    }
}

// The same spaces, in their order.
fn copy_list(alloc: Global, list: &[Space]) -> Result<Vec<Space>, NoMemory>
    ensures { OrNoMemory result (λ made. made.items ≡ list.now) }
{
    let mut made = Vec::with_capacity(alloc, list.len())?;
    for space in list {
        let space = space.copy(alloc)?;
        made.push(space)?;
    }
    Ok(made)
}
