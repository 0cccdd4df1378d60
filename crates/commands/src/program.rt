//! The command line: what the arguments request, and its exit status.
ghost use Rattle.std.specs.Prelude.{◌≡◌, ◌≢◌, ◌≤◌, ◌<◌, ◌⊎◌, [], map, true, false};
ghost use Rattle.std.specs.List.{list_any};
ghost use Rattle.plain.specs.Streams.{Puts, PutsPart};
ghost use Rattle.commands.specs.Grammar.{Cluster, Outcomes, Plan, Race, Replay, Serve, asked, faults_of, is_mistake, is_request};
ghost use Rattle.commands.specs.Clustering.{Clusters};
ghost use Rattle.commands.specs.Finding.{Finds};
ghost use Rattle.commands.specs.Halts.{Tells};
ghost use Rattle.commands.specs.Noting.{Notes};
ghost use Rattle.commands.specs.Planning.{Plans};
ghost use Rattle.commands.specs.Racing.{Races, RacesPart};
ghost use Rattle.commands.specs.Refusing.{Refuses};
ghost use Rattle.commands.specs.Replaying.{Replays};
ghost use Rattle.commands.specs.Serving.{AsksOutOfRange, Serves, ServesSome};

use crate::answering::run_word;
use crate::args::{CommandLine, read_words};
use crate::ending::run_outcomes;
use crate::explain::explain;
use crate::plan::run_plan;
use crate::race::run_race;
use crate::running::Running;
use crate::serve::run_serve;
use crate::status::{BAD_WORDS, FAILURE, REFUSED, SUCCESS, TrackedAlloc};
use plain::{Sink, Source};
use scripts::{ClusterScript, Script};
use std::convert::AsStr;
use std::marker::PhantomData;
use std::sync::Wait;
use std::thread::Threads;

/// The whole program: does what the arguments request, the program's name first, and returns the exit status. It is 0
/// on success and for help and the version, which are written to `writer`; 1, with no message, if reading or writing
/// fails or memory runs out; 2 if the arguments are bad, with the reason written to `faults`; and 3 if the script of a
/// replay or a cluster, a race or the input of a plan is refused, with the name of the refusal written to
/// `faults` and nothing to `writer`, or if the report of a race, which `writer` then has, is not legal. Only a race
/// starts threads and waits.
pub fn command<T: Threads + Wait + Sync, S: AsStr, R: Source, W: Sink, F: Sink>(
    rt: &T,
    heap: &mut TrackedAlloc,
    words: &[S],
    reader: &mut R,
    writer: &mut W,
    faults: &mut F,
) -> u8
    // The exit status is one of four.
    ensures status { result ≤ REFUSED }

    // Bad arguments, help and the version: no command is run.
    ensures success { let kinds = faults_of (map S.text words.now) in
        result ≡ SUCCESS → (kinds ≡ []) ⊎ (list_any is_request kinds ≡ true) }
    ensures refused { result ≡ BAD_WORDS → list_any is_mistake (faults_of (map S.text words.now)) ≡ true }
    ensures mistakes { let kinds = faults_of (map S.text words.now) in
        kinds ≢ [] → list_any is_request kinds ≡ false → (result ≡ BAD_WORDS) ⊎ (heap.new.refused ≡ true) }

    // Serve: the replies to all lines, or after a failure to some.
    ensures served { let texts = map S.text words.now in
        result ≡ SUCCESS → asked texts ≡ Serve
        → Serves texts (R.remaining reader.old) (R.remaining reader.new) (W.written writer.old) (W.written writer.new) }
    ensures part { let texts = map S.text words.now in
        result ≡ FAILURE → asked texts ≡ Serve
        → ServesSome texts (R.remaining reader.old) (R.remaining reader.new) (W.written writer.old) (W.written writer.new) }

    // Replay and cluster: the output for the events of the script, or after a failure a part of it.
    ensures replayed { let texts = map S.text words.now in
        result ≡ SUCCESS → asked texts ≡ Replay
        → Replays Puts texts (R.remaining reader.old) (R.remaining reader.new) (W.written writer.old) (W.written writer.new) }
    ensures replayed_part { let texts = map S.text words.now in
        result ≡ FAILURE → asked texts ≡ Replay → (writer.new ≡ writer.old)
        ⊎ Replays PutsPart texts (R.remaining reader.old) (R.remaining reader.new) (W.written writer.old) (W.written writer.new) }
    ensures clustered { let texts = map S.text words.now in
        result ≡ SUCCESS → asked texts ≡ Cluster
        → Clusters Puts texts (R.remaining reader.old) (R.remaining reader.new) (W.written writer.old) (W.written writer.new) }
    ensures clustered_part { let texts = map S.text words.now in
        result ≡ FAILURE → asked texts ≡ Cluster → (writer.new ≡ writer.old)
        ⊎ Clusters PutsPart texts (R.remaining reader.old) (R.remaining reader.new) (W.written writer.old) (W.written writer.new) }

    // Plan: the actions, or after a failure a part of them.
    ensures planned { let texts = map S.text words.now in
        result ≡ SUCCESS → asked texts ≡ Plan
        → Plans Puts texts (R.remaining reader.old) (R.remaining reader.new) (W.written writer.old) (W.written writer.new) }
    ensures planned_part { let texts = map S.text words.now in
        result ≡ FAILURE → asked texts ≡ Plan → (writer.new ≡ writer.old)
        ⊎ Plans PutsPart texts (R.remaining reader.old) (R.remaining reader.new) (W.written writer.old) (W.written writer.new) }

    // Outcomes: all replies that callers can get, or the script that shows one outcome, or after a failure a part of
    // it.
    ensures found { let texts = map S.text words.now in
        result ≡ SUCCESS → asked texts ≡ Outcomes
        → Finds Puts texts (R.remaining reader.old) (R.remaining reader.new) (W.written writer.old) (W.written writer.new) }
    ensures found_part { let texts = map S.text words.now in
        result ≡ FAILURE → asked texts ≡ Outcomes → (writer.new ≡ writer.old)
        ⊎ Finds PutsPart texts (R.remaining reader.old) (R.remaining reader.new) (W.written writer.old) (W.written writer.new) }

    // Outcomes: then the notes about controllers that plan nothing at the beginning.
    ensures noted { let texts = map S.text words.now in
        result ≡ SUCCESS → asked texts ≡ Outcomes
        → Notes texts (R.remaining reader.old) (F.written faults.old) (F.written faults.new) (F.failures faults.old) (F.failures faults.new) }

    // Race: the line of the report, the history before it if that is requested, and nothing else, or after a failure a
    // part of it; the report is not legal exactly at the status of a refusal.
    ensures raced { let texts = map S.text words.now in
        result ≡ SUCCESS → asked texts ≡ Race → Races true texts (W.written writer.old) (W.written writer.new) }
    ensures illegal { let texts = map S.text words.now in
        result ≡ REFUSED → asked texts ≡ Race → Races false texts (W.written writer.old) (W.written writer.new) }
    ensures raced_part { let texts = map S.text words.now in
        result ≡ FAILURE → asked texts ≡ Race → (writer.new ≡ writer.old) ⊎ RacesPart texts (W.written writer.old) (W.written writer.new) }
    ensures apart { asked (map S.text words.now) ≡ Race → (reader.new ≡ reader.old) × (faults.new ≡ faults.old) }

    // Replay, cluster, plan and outcomes: input that is refused, and by which name.
    ensures refused_input { let word = asked (map S.text words.now) in
        result ≡ REFUSED → (word ≡ Replay) ⊎ ((word ≡ Cluster) ⊎ ((word ≡ Plan) ⊎ ((word ≡ Race) ⊎ (word ≡ Outcomes)))) }
    ensures named { let texts = map S.text words.now in
        result ≡ REFUSED → asked texts ≢ Race → Refuses texts (R.remaining reader.old) (R.remaining reader.new)
        (λ name. Tells name (F.written faults.old) (F.written faults.new) (F.failures faults.old) (F.failures faults.new)) }

    // What stays as it was: the input, the output, and the errors.
    ensures reads_nothing { faults_of (map S.text words.now) ≢ [] → reader.new ≡ reader.old }
    ensures writes_nothing { result ≡ BAD_WORDS → writer.new ≡ writer.old }
    ensures silent { let kinds = faults_of (map S.text words.now) in
        kinds ≢ [] → list_any is_request kinds ≡ false → writer.new ≡ writer.old }
    ensures writes_no_part { result ≡ REFUSED → asked (map S.text words.now) ≢ Race → writer.new ≡ writer.old }
    ensures quiet { result < BAD_WORDS → asked (map S.text words.now) ≢ Outcomes → faults.new ≡ faults.old }
    ensures quiet_failure { result ≡ FAILURE → faults.new ≡ faults.old }

    // Faults: devices that fail, and out of memory.
    ensures cause { result ≡ FAILURE → (R.failures reader.old < R.failures reader.new) ⊎ ((W.failures writer.old < W.failures writer.new)
        ⊎ ((heap.new.refused ≡ true) ⊎ AsksOutOfRange (map S.text words.now))) }
    ensures memory { result ≢ FAILURE → heap.new.refused ≡ heap.old.refused }
    ensures spared { (R.failures reader.old < R.failures reader.new) ⊎ (W.failures writer.old < W.failures writer.new)
        → heap.new.refused ≡ heap.old.refused }
{
    match read_words(heap.alloc, words) {
        Ok(CommandLine::Serve(capacity)) => run_serve(heap, reader, writer, capacity),
        Ok(CommandLine::Replay(asked)) => {
            let of = PhantomData::<Script>;
            run_word(heap, &Running { asked, of }, reader, writer, faults)
        }
        Ok(CommandLine::Cluster(asked)) => {
            let of = PhantomData::<ClusterScript>;
            run_word(heap, &Running { asked, of }, reader, writer, faults)
        }
        Ok(CommandLine::Plan(plan)) => run_plan(heap, &plan, reader, writer, faults),
        Ok(CommandLine::Race(race)) => run_race(rt, heap, &race, writer),
        Ok(CommandLine::Outcomes(options)) => run_outcomes(heap, options, reader, writer, faults),
        Err(error) => explain(heap, words, &error, writer, faults),
    }
}
