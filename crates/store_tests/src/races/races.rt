//! Races of many sizes.
use race_log::{RaceFault, RaceSpec, report_line};
use racing::race;
use std::process::Abort;
use std::test::Fail;
use store::NoGate;

fn spec_of(controllers: u64, shards: u64, rounds: u64, replicas: u64) -> RaceSpec {
    RaceSpec {
        controllers,
        shards,
        rounds,
        replicas,
        operator: false,
    }
}

#[test]
fn four_controllers_make_sixteen_rounds(rt: HostRuntime) -> Result<(), Fail> {
    let report = race(&rt, rt.alloc(), &spec_of(4, 8, 16, 3), &NoGate)?;
    let line = report_line(rt.alloc(), &report)?;
    let expected: &[u8] =
        b"{\"controllers\":4,\"legal\":true,\"rounds\":16,\"shards\":8,\"twice\":0}\n";
    assert!(rt; line.as_slice() == expected);
    Ok(())
}

#[test]
fn races_of_many_sizes_are_legal(rt: HostRuntime) -> Result<(), Fail> {
    for (controllers, shards, rounds, replicas) in [
        (1, 1, 1, 0),
        (1, 64, 5, 3),
        (2, 3, 8, 1),
        (64, 1, 1, 3),
        (64, 64, 1, 64),
    ] {
        let spec = spec_of(controllers, shards, rounds, replicas);
        let report = race(&rt, rt.alloc(), &spec, &NoGate)?;
        assert!(rt;
            report.legal && report.twice == 0,
            "{controllers} controllers, {shards} shards, {rounds} rounds, {replicas} replicas"
        );
        assert_eq!(rt;
            (report.controllers, report.shards, report.rounds),
            (controllers, shards, rounds)
        );
    }
    Ok(())
}

#[test]
fn races_out_of_range_are_refused(rt: HostRuntime) -> Result<(), Fail> {
    for (controllers, shards, rounds, replicas) in [
        (0, 1, 1, 0),
        (65, 1, 1, 0),
        (1, 0, 1, 0),
        (1, 65, 1, 0),
        (1, 1, 0, 0),
        (1, 1, 1_025, 0),
        (1, 1, 1, 65),
    ] {
        let spec = spec_of(controllers, shards, rounds, replicas);
        let found = race(&rt, rt.alloc(), &spec, &NoGate);
        assert!(rt;
            matches!(found, Err(RaceFault::BadRace)),
            "{controllers} controllers, {shards} shards, {rounds} rounds, {replicas} replicas"
        );
    }
    Ok(())
}
