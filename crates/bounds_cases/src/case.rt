// What a case is about: a world, the filter that is asked about, members, and bounds.
use case_lines::Stop;
use cm_base::Pid;
use cm_box::{Bounds, BoxRow, Rows};
use cm_declared::World;
use cm_filter::Filter;
use cm_state::State;
use cm_world::read_world;
use std::alloc::Global;

#[derive(Drop)]
pub(crate) struct Case {
    pub(crate) world: World,
    pub(crate) filter: Filter,
    pub(crate) members: Vec<Pid>,
    pub(crate) bounds: Bounds,
}

impl Case {
    // That of the world of a text, with its filter, no members, and bounds that hold nothing.
    pub(crate) fn of_text(alloc: Global, text: &str) -> Result<Case, Stop> {
        let world = read_world(alloc, text.as_bytes())?;
        let bounds = least_bounds(alloc, &world.start)?;
        let filter = world.filter;
        Ok(Case {
            world,
            filter,
            members: Vec::new(alloc),
            bounds,
        })
    }

    // Begins anew, in the same world.
    pub(crate) fn begin(&mut self, alloc: Global) -> Result<(), Stop> {
        let bounds = least_bounds(alloc, &self.world.start)?;
        self.filter = self.world.filter;
        self.members = Vec::new(alloc);
        self.bounds = bounds;
        Ok(())
    }
}

// Two rows for each space, which hold nothing.
fn least_bounds(alloc: Global, st: &State) -> Result<Bounds, Stop> {
    let mut list = Vec::new(alloc);
    for _ in 0..st.spaces.count() {
        list.push(BoxRow::least(alloc))?;
        list.push(BoxRow::least(alloc))?;
    }
    Ok(Bounds {
        rows: Rows::from_vec(list),
    })
}
