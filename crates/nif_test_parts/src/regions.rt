//! Callers of a region with their contracts, and regions of many runs.
ghost use Rattle.std.specs.Prelude.{◌≡◌, ◌<◌, ◌≤◌, None, IfOk, OnOk};

use nif_base::NoMemory;
use nif_region::{Cell, Region, RunId};
use std::test::Fail;

/// Builds a run of so many cells, whose bits count up from a first.
fn build(region: &mut Region, first: u32, count: u32) -> Result<RunId, NoMemory>
    requires free { region.old.building ≡ None }
    requires few { count < 1000 }
    ensures { OnOk result (region.new.building ≡ None) }
{
    region.open_run()?;
    for i in 0..count {
        let cell = Cell {
            kind: 7,
            size: i,
            bits: u64::from(first) + u64::from(i),
        };
        region.push(cell)?;
    }
    Ok(region.close_run())
}

/// Builds 100 runs of 9 cells.
fn build_hundred(region: &mut Region, runs: &mut Vec<RunId>) -> Result<(), Fail>
    requires { region.old.building ≡ None }
    ensures { OnOk result (region.new.building ≡ None) }
{
    for number in 0..100 {
        runs.push(build(region, number, 9)?)?;
    }
    Ok(())
}

/// The bits of the last cell of a live run.
fn last_bits(region: &Region, run: RunId) -> Option<u64> {
    if !region.is_live(run) {
        return None;
    }
    let len = region.len(run);
    if len == 0 {
        return None;
    }
    Some(region.get(run, len - 1).bits)
}

/// Makes room for two runs, of two cells and of none, and builds them: nothing answers want of memory then.
fn build_reserved(region: &mut Region, cell: Cell) -> Result<(RunId, RunId), NoMemory>
    requires { region.old.building ≡ None }
    ensures { OnOk result (region.new.building ≡ None) }
{
    region.reserve(4, 2)?;
    let Ok(()) = region.open_run() else {
        unreachable!()
    };
    let Ok(()) = region.push(cell) else {
        unreachable!()
    };
    let Ok(()) = region.push(cell) else {
        unreachable!()
    };
    let first = region.close_run();
    let Ok(()) = region.open_run() else {
        unreachable!()
    };
    Ok((first, region.close_run()))
}

#[test]
fn slides_runs_together(rt: HostRuntime) -> Result<(), Fail> {
    let mut region = Region::new(rt.alloc());
    let mut runs = Vec::new(rt.alloc());
    build_hundred(&mut region, &mut runs)?;
    assert!(rt; region.used() == 1000);
    assert!(rt; region.live() == 1000);
    for (i, run) in runs.as_slice().iter().enumerate() {
        assert!(rt; region.is_live(*run));
        if i % 2 == 1 {
            region.give_back(*run);
        }
    }
    assert!(rt; region.used() <= 1000);
    region.compact();
    assert!(rt; region.used() == 500);
    assert!(rt; region.live() == 500);
    for (i, run) in runs.as_slice().iter().enumerate() {
        let want = if i % 2 == 0 {
            Some((i as u64).saturating_add(8))
        } else {
            None
        };
        assert!(rt; last_bits(&region, *run) == want);
    }
    Ok(())
}

#[test]
fn builds_what_was_reserved(rt: HostRuntime) -> Result<(), Fail> {
    let mut region = Region::new(rt.alloc());
    let cell = Cell {
        kind: 1,
        size: 2,
        bits: 3,
    };
    let (first, second) = build_reserved(&mut region, cell)?;
    assert!(rt; region.is_live(first));
    assert!(rt; region.is_live(second));
    assert!(rt; region.len(first) == 2);
    assert!(rt; region.len(second) == 0);
    assert!(rt; region.used() == 4);
    Ok(())
}

#[test]
fn writes_over_cells(rt: HostRuntime) -> Result<(), Fail> {
    let mut region = Region::new(rt.alloc());
    let cell = |bits: u64| Cell {
        kind: 0,
        size: 0,
        bits,
    };
    region.open_run()?;
    region.push(cell(1))?;
    region.push(cell(2))?;
    region.patch(1, cell(3));
    let run = region.close_run();
    region.open_run()?;
    region.push(cell(4))?;
    region.abandon();
    assert!(rt; region.used() == 3);
    assert!(rt; region.is_live(run));
    assert!(rt; region.len(run) == 2);
    region.set(run, 0, cell(5));
    assert!(rt; region.get(run, 0) == cell(5));
    assert!(rt; region.get(run, 1) == cell(3));
    region.give_back(run);
    assert!(rt; region.used() == 0);
    Ok(())
}
