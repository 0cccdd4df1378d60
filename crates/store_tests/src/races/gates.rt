//! Controllers that wait for one another, so that they have to run at once.
use race_log::RaceSpec;
use racing::race;
use std::process::Abort;
use std::sync::atomic::{AtomicBool, AtomicU64, Ordering};
use std::test::Fail;
use std::thread::yield_now;
use store::Gate;

const TURNS: u64 = 1_000_000_000;

/// A round continues only once both controllers have called it with that number.
#[derive(Drop)]
struct Both {
    /// The last round that each has called.
    called: [AtomicU64; 2],
    is_late: AtomicBool,
}

impl Both {
    fn has_called(&self, controller: u64, round: u64) -> bool {
        let called = if controller == 0 {
            &self.called[0]
        } else {
            &self.called[1]
        };
        called.load(Ordering::SeqCst) >= round
    }
}

impl Gate for Both {
    fn between(&self, _number: u64) {}

    fn round(&self, controller: u64, round: u64) {
        if controller == 0 {
            self.called[0].store(round, Ordering::SeqCst);
        } else {
            self.called[1].store(round, Ordering::SeqCst);
        }
        for _ in 0..TURNS {
            if self.has_called(0, round) && self.has_called(1, round) {
                return;
            }
            yield_now();
        }
        self.is_late.store(true, Ordering::SeqCst);
    }
}

#[test]
fn controllers_run_at_once(rt: HostRuntime) -> Result<(), Fail> {
    let gate = Both {
        called: [AtomicU64::new(0), AtomicU64::new(0)],
        is_late: AtomicBool::new(false),
    };
    let spec = RaceSpec {
        controllers: 2,
        shards: 8,
        rounds: 4,
        replicas: 3,
        operator: false,
    };
    let report = race(&rt, rt.alloc(), &spec, &gate)?;
    assert!(rt; report.legal && report.twice == 0);
    assert!(rt; !gate.is_late.load(Ordering::SeqCst));
    assert!(rt; gate.has_called(0, 4) && gate.has_called(1, 4));
    Ok(())
}
