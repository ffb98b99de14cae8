// What plans rest on and leave as it is.
ghost use Rattle.cm_plans.specs.Moves.{may_do};
ghost use Rattle.std.specs.Prelude.{◌≡◌, ◌<◌, length};
ghost use Rattle.cm_base.specs.Outcome.{OrNoMemory};
ghost use Rattle.cm_plans.specs.Ready.{IsReady, IsAbout, IsFor, IsSameQuestion};
ghost use Rattle.cm_plans.specs.Ways.{way_of};
ghost use Rattle.cm_state.specs.Right.{right_of};

use crate::special::special_rows;
use crate::ways::{Way, ways_to};
use cm_base::{NoMemory, Pid, SpaceId};
use cm_declared::World;
use cm_filter::{CallKind, Filter};
use cm_state::{Right, Spaces, State, see_state};
use std::alloc::Global;

// What a member may call: its own filter permits it, and so does the world's.
#[derive(Clone, Copy, Debug)]
pub struct May {
    pub world: Filter,
    pub own: Filter,
}

impl May {
    // It may make calls of the kind.
    pub(crate) fn permits(self, k: CallKind) -> bool
        ensures { result ≡ may_do self k }
    {
        self.world.permits(k) && self.own.permits(k)
    }
}

// The declared files, the spaces, and the right that is sought; what is worked out of these once: how each space lies to
// the right, and which rows are tried in pairs; and what the member who moves may call.
#[derive(Debug, Drop)]
pub struct Query<'a> {
    pub world: &'a World,
    pub spaces: &'a Spaces,
    pub right: &'a Right,
    pub ways: Vec<Way>,
    pub special: Vec<u32>,
    pub may: May,
}

impl<'a> Query<'a> {
    // The question after a right in a state.
    pub(crate) fn new(
        alloc: Global,
        world: &'a World,
        st: &'a State,
        right: &'a Right,
    ) -> Result<Query<'a>, NoMemory>
        ensures ready { OrNoMemory result IsReady }
        ensures about { OrNoMemory result (λ q. IsAbout q world.now st.now right.now) }
    {
        see_state(st);
        let spaces = &st.spaces;
        let ways = ways_to(alloc, spaces, right)?;
        let special = special_rows(alloc, &world.files)?;
        Ok(Query {
            world,
            spaces,
            right,
            ways,
            special,
            may: May {
                world: world.filter,
                own: Filter::none(),
            },
        })
    }

    // Another member moves, in that state.
    pub(crate) fn let_move(&mut self, st: &State, pid: Pid)
        ensures moves { IsFor self.new st.now pid }
        ensures same { IsSameQuestion self.old self.new }
    {
        self.may = May {
            world: self.world.filter,
            own: st.filter_of(pid),
        };
    }

    // How the space lies to the right.
    pub(crate) fn way(&self, at: SpaceId) -> Way
        requires ready { IsReady self.now }
        requires stands { at.0 < length self.now.spaces.now }
        ensures { result ≡ way_of self.now.spaces.now (right_of self.now.right.now) at.0 }
    {
        let ways = self.ways.as_slice();
        ways[at.0 as usize]
    }
}
