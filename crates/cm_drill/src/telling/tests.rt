// Drills of few events, and the counts of longer ones, as tools/plain/drill.py works them out.
ghost use Rattle.std.specs.Prelude.{◌≡◌};
ghost use Rattle.cm_base.specs.Outcome.{OrNoMemory};
ghost use Rattle.cm_declared.specs.World.{world_of};
ghost use Rattle.model_drill.specs.DrillWorld.{drill_world};
ghost use Rattle.model_drill.specs.Laws.{IsDrillState};

use super::*;
use cm_maker::{least, least_by_rounds};
use std::test::Fail;

// The counts of the drill of n.
fn counts(alloc: Global, n: u32) -> Result<(u32, u32, u32, u32), NoMemory> {
    let told = drill(alloc, n)?;
    Ok((told.events, told.refused, told.live, told.spaces))
}

#[test]
fn no_event_leaves_root_as_it_was(rt: HostRuntime) -> Result<(), Fail> {
    let told = drill(rt.alloc(), 0)?;
    assert_eq!(rt;
        (told.events, told.refused, told.live, told.spaces),
        (0, 0, 1, 1)
    );
    assert!(rt; matches!(told.verdict, Verdict::No { .. }));
    assert_eq!(rt; drill_log(rt.alloc(), 0)?.len(), 0);
    Ok(())
}

#[test]
fn seven_events(rt: HostRuntime) -> Result<(), Fail> {
    assert_eq!(rt; counts(rt.alloc(), 7)?, (7, 3, 1, 1));
    let log = drill_log(rt.alloc(), 7)?;
    let lines = concat!(
        "1 execve - = 0\n",
        "1 setuid 1000 = 0\n",
        "1 setresuid -1 1000 0 = EPERM\n",
        "1 capset 0000000000000000 0000000000000000 0000000000000000 = 0\n",
        "1 setreuid 1001 -1 = EPERM\n",
        "1 bset_drop CAP_NET_RAW = EPERM\n",
        "1 setreuid 1000 -1 = 0\n",
    );
    assert_eq!(rt; log.as_slice(), lines.as_bytes());
    Ok(())
}

#[test]
fn twenty_events_with_births_and_a_space(rt: HostRuntime) -> Result<(), Fail> {
    assert_eq!(rt; counts(rt.alloc(), 20)?, (20, 11, 3, 2));
    let log = drill_log(rt.alloc(), 20)?;
    let lines = concat!(
        "1 keepcaps 1 = 0\n",
        "1 keepcaps 0 = 0\n",
        "1 execve /drill/su = 0\n",
        "1 securebits 127 = 0\n",
        "1 unshare = 0\n",
        "1 setgroups 10 = EPERM\n",
        "1 setreuid 1000 -1 = EINVAL\n",
        "1 setresuid 0 1001 0 = EINVAL\n",
        "1 keepcaps 0 = 0\n",
        "1 setgroups 10 11 = EPERM\n",
        "1 fork = 2\n",
        "1 setreuid 1001 1001 = EINVAL\n",
        "1 setuid 0 = EINVAL\n",
        "2 write_uid_map #1 0 1000 1 = EPERM\n",
        "2 fork = 3\n",
        "1 setuid 1001 = EINVAL\n",
        "1 setresgid 0 1001 0 = EINVAL\n",
        "1 setresuid -1 1000 1001 = EINVAL\n",
        "2 write_uid_map #1 0 1000 1 = EPERM\n",
        "1 keepcaps 0 = 0\n",
    );
    assert_eq!(rt; log.as_slice(), lines.as_bytes());
    Ok(())
}

#[test]
fn counts_of_longer_drills(rt: HostRuntime) -> Result<(), Fail> {
    assert_eq!(rt; counts(rt.alloc(), 300)?, (300, 165, 1, 4));
    assert_eq!(rt; counts(rt.alloc(), 4096)?, (4096, 2786, 11, 3));
    assert_eq!(rt; counts(rt.alloc(), 20000)?, (20000, 12324, 6, 2));
    Ok(())
}

// How the drill of n stands after its events.
fn state_after(alloc: Global, w: &World, n: u32) -> Result<Generator, NoMemory>
    requires { world_of w.now ≡ drill_world }
    ensures { OrNoMemory result (λ g. IsDrillState g.state) }
{
    let mut g = Generator::start(alloc, w, n)?;
    for _made in 0..n {
        g.next(alloc, w)?;
    }
    Ok(g)
}

#[test]
fn both_ways_find_the_same_least_bounds_after_a_drill(rt: HostRuntime) -> Result<(), Fail> {
    let alloc = rt.alloc();
    let w = drill_world(alloc)?;
    let g = state_after(alloc, &w, 1000)?;
    let st = &g.machine.state;
    assert!(rt; st.spaces.count() < 2_147_483_648);
    let members = g.machine.family(alloc, first_live(st))?;
    let by_rows = least(alloc, st, &w.files, w.filter, &members)?;
    let by_rounds = least_by_rounds(alloc, st, &w.files, w.filter, &members)?;
    assert!(rt; by_rows.rows.items().len() > 2);
    assert_eq!(rt;
        format!(in alloc; "{by_rows:?}")?,
        format!(in alloc; "{by_rounds:?}")?
    );
    Ok(())
}
