ghost use Rattle.std.specs.Prelude.{◌≡◌, IfOk, IsTrue};
ghost use Rattle.race_log.specs.Judged.{IsHistoryOf, noted_of};

use crate::log::Log;
use crate::order::{calls_of, in_order};
use crate::report::RaceReport;
use crate::spec::RaceSpec;
use crate::twice::repeats;
use interleavings::Trace;
use objects::Memory;
use order_check::check_order;
use std::alloc::Global;

/// The requests and replies of a race, the order that was judged, as the indices of the calls, and the report.
#[derive(Drop)]
pub struct RaceHistory {
    pub trace: Trace,
    pub order: Vec<u64>,
    pub report: RaceReport,
}

/// Judges a race by its log: whether its order is legal for a store of that many revisions, and how often a pod was
/// created twice. It takes at most n log n time, plus that of a plain store which handles the requests once.
///
/// In a legal race no pod was created twice.
///
/// The report has the size of the race. Its order has the log's stamps in their order, and `twice` counts in it the
/// accepted creates of a pod whose name lives by the replies before. The report is legal exactly if the log is a
/// history and the calls in that order are a legal order of it for a store of that capacity. The log and the order are
/// returned as they were judged.
pub fn judged(
    alloc: Global,
    capacity: u64,
    spec: &RaceSpec,
    log: Log,
) -> Result<RaceHistory, Memory>
    ensures history { IfOk result (IsHistoryOf capacity spec.now (noted_of log)) }
    ensures once { IfOk result (λ history. IsTrue history.report.legal → history.report.twice ≡ 0) }
{
    let Log {
        items,
        open_calls,
        stamps,
    } = log;
    drop(open_calls);
    let stamped = in_order(stamps)?;
    let twice = repeats(alloc, items.as_slice(), stamped.as_slice())?;
    let order = calls_of(alloc, stamped.as_slice())?;
    let trace = Trace { capacity, items };
    let legal = check_order(alloc, &trace, order.as_slice())?;
    let report = RaceReport {
        controllers: spec.controllers,
        legal,
        rounds: spec.rounds,
        shards: spec.shards,
        twice,
    };
    Ok(RaceHistory {
        trace,
        order,
        report,
    })
}
