//! The top call.
ghost use Rattle.std.specs.Prelude.{◌≡◌, ◌≢◌, ◌≤◌, None, map, string_bytes, IfOk, IfSome};
ghost use Rattle.smol_edge.specs.Faults.{Rose, Tells};
ghost use Rattle.smol_run.specs.Words.{AreRuns, AreWorkers, job_of, NamesNoFile};
ghost use Rattle.smol_run.specs.Generated.{generated};
ghost use Rattle.smol_run.specs.Asked.{AsksForJob};
ghost use Rattle.smol_macro.specs.Files.{AsksFront};
ghost use Rattle.smol_macro.specs.Including.{expanded, files_of};
ghost use Rattle.smol_run.specs.Ends.{CountsLoss, CountsReads, CountsWrites, EndsWithSome, FitsWords, GoesWith, GoesWithSome, IsDefinite, IsFrontOf, IsLost, IsMisuse, IsRun, IsUnread};
ghost use Rattle.smol_run.specs.Ways.{JobGoesSafely};
ghost use Rattle.smol_run.specs.Expanded.{PlainFileTellsTheSame};
ghost use Rattle.smol_run.specs.Outcome.{outcome_by, outcome_of, outcome_of_files, outcome_of_text, refused, seed_of};

use crate::ensemble::run_ensemble;
use crate::error_lines::{fault_text, tell};
use crate::given::Given;
use crate::loss::Loss;
use crate::make::make_config;
use crate::refusal::{refusal_of, refusal_of_files};
use crate::run::run_config;
use crate::status::{Status, status_told};
use crate::stop::Stop;
use crate::words::{Job, read_words};
use smol_config::read_config;
use smol_edge::{Gate, Outlets, Source};
use smol_macro::expand;
use smol_types::Config;
use std::alloc::Global;
use std::thread::Threads;

/// How many workers run a text that is made.
const MAKE_WORKERS: u32 = 4;

const USAGE: &[u8] = b"usage: smol FILE [--seed N] [--workers N] [--runs N] or smol --make N\n";

/// Runs what the words of the command line ask for over a source and outlets, and answers the exit status.
/// Files are read from the source: the one that is named, and those that it asks for. Lines for people who read along go to outlet 1, the rest where the
/// configuration says. Outlets that aren't 0 or 1 are opened by this call.
pub fn run_program<R: Threads + Sync, S: Source, K: Outlets, G: Gate + Sync>(
    rt: &R,
    alloc: Global,
    words: &[String],
    source: &mut S,
    outlets: &mut K,
    gate: &G,
) -> Status
    requires { K.opened outlets.old ≡ 0 }

    // With a definite status the run ended as it is defined to, with every byte, whether or not a count rose.
    ensures outcome { IsDefinite result → IfSome (S.told source.old) (λ reading.
        Tells (K.told outlets.old) (K.told outlets.new)
        (EndsWithSome (outcome_of (map (λ word. string_bytes word) words.now) reading.contents) result)) }

    // Whatever the status is, what was opened and written is a front of that.
    ensures front { IfSome (S.told source.old) (λ reading.
        Tells (K.told outlets.old) (K.told outlets.new)
        (IsFrontOf (outcome_of (map (λ word. string_bytes word) words.now) reading.contents))) }
    ensures absent { IfSome (S.told source.old) (λ reading.
        outcome_of (map (λ word. string_bytes word) words.now) reading.contents ≡ None → IsLost result) }

    // In the run itself no way crosses a face that reflects it, nor leaves a closed reflecting box, and what is inside such a box
    // stays inside, with all that it makes.
    ensures ways { IfSome (S.told source.old) (λ reading.
        JobGoesSafely (job_of (map (λ word. string_bytes word) words.now)) (map (λ word. string_bytes word) words.now) reading.contents) }

    // Where the file that is named has no directives, its expanded text means what the file means by itself.
    ensures plain { IfSome (S.told source.old) (λ reading.
        PlainFileTellsTheSame (job_of (map (λ word. string_bytes word) words.now)) (map (λ word. string_bytes word) words.now) reading.contents) }

    // Neither of these comes by itself, and no fault is hidden by another status.
    ensures input { result ≡ Status.Input → Rose (S.faults source.old) (S.faults source.new) }
    ensures no_input { result ≢ Status.Input → S.faults source.new ≡ S.faults source.old }
    ensures output { result ≡ Status.Output → Rose (K.faults outlets.old) (K.faults outlets.new) }
    ensures no_output { result ≢ Status.Output → K.faults outlets.new ≡ K.faults outlets.old }

    // Words that ask for nothing are told so, unless that can't be written, and no file is touched for words that name none.
    ensures usage { result ≡ Status.Usage → job_of (map (λ word. string_bytes word) words.now) ≡ None }
    ensures misused { job_of (map (λ word. string_bytes word) words.now) ≡ None → IsMisuse result }
    ensures untouched { NamesNoFile (job_of (map (λ word. string_bytes word) words.now)) → source.new ≡ source.old }
    ensures asked { Tells (S.told source.old) (S.told source.new)
        (AsksForJob (job_of (map (λ word. string_bytes word) words.now)) (map (λ word. string_bytes word) words.now)) }
{
    let made = run_words(rt, alloc, words, source, outlets, gate);
    status_told(made)
}

// Runs what the words ask for.
fn run_words<R: Threads + Sync, S: Source, K: Outlets, G: Gate + Sync>(
    rt: &R,
    alloc: Global,
    words: &[String],
    source: &mut S,
    outlets: &mut K,
    gate: &G,
) -> Result<Status, Stop>
    requires { K.opened outlets.old ≡ 0 }
    ensures ended { IfSome (S.told source.old) (λ reading. Tells (K.told outlets.old) (K.told outlets.new)
        (GoesWithSome (outcome_of (map (λ word. string_bytes word) words.now) reading.contents) result)) }
    ensures absent { IfSome (S.told source.old) (λ reading.
        outcome_of (map (λ word. string_bytes word) words.now) reading.contents ≡ None → IsUnread result) }
    ensures fits { FitsWords (job_of (map (λ word. string_bytes word) words.now)) result }
    ensures untouched { NamesNoFile (job_of (map (λ word. string_bytes word) words.now)) → source.new ≡ source.old }
    ensures asked { Tells (S.told source.old) (S.told source.new)
        (AsksForJob (job_of (map (λ word. string_bytes word) words.now)) (map (λ word. string_bytes word) words.now)) }
    ensures reads { CountsReads result (S.faults source.old) (S.faults source.new) }
    ensures writes { CountsWrites result (K.faults outlets.old) (K.faults outlets.new) }
{
    match read_words(words) {
        Ok(
            Job::File {
                index,
                seed,
                workers,
                runs,
            },
        ) => {
            let given = Given {
                seed,
                workers,
                runs,
            };
            run_file(
                rt,
                alloc,
                words[index].as_str(),
                given,
                source,
                outlets,
                gate,
            )
        }
        Ok(Job::Make { n }) => Ok(run_made(rt, alloc, n, outlets, gate)?),
        Err(_) => {
            tell(outlets, USAGE)?;
            Ok(Status::Usage)
        }
    }
}

// Tells that a text is refused, and at which line.
fn refuse<K: Outlets>(alloc: Global, outlets: &mut K, line: u32, why: &str) -> Result<Status, Loss>
    ensures ended { Tells (K.told outlets.old) (K.told outlets.new) (GoesWith (refused line why.now) result) }
    ensures status { IfOk result IsRun }
    ensures faults { CountsLoss result (K.faults outlets.old) (K.faults outlets.new) }
{
    tell(outlets, &fault_text(alloc, line, why)?)?;
    Ok(Status::Refused)
}

// The seed of a run: that of the words, else that of the configuration, else 0.
fn seed_of(given: Option<u64>, config: &Config) -> u64
    ensures { result ≡ seed_of given config.now }
{
    given.or(config.seed()).unwrap_or(0)
}

// Runs a configuration once, or as many times as the words say.
fn run_given<R: Threads + Sync, K: Outlets, G: Gate + Sync>(
    rt: &R,
    alloc: Global,
    config: &Config,
    given: Given,
    outlets: &mut K,
    gate: &G,
) -> Result<Status, Loss>
    requires opened { K.opened outlets.old ≡ 0 }
    requires workers { AreWorkers given.workers }
    requires runs { IfSome given.runs AreRuns }
    ensures ended { Tells (K.told outlets.old) (K.told outlets.new)
        (GoesWith (outcome_by given.runs config.now (seed_of given.seed config.now)) result) }
    ensures status { IfOk result IsRun }
    ensures faults { CountsLoss result (K.faults outlets.old) (K.faults outlets.new) }
{
    let seed = seed_of(given.seed, config);
    match given.runs {
        Some(count) => run_ensemble(rt, alloc, config, seed, count, given.workers, outlets),
        None => run_config(rt, alloc, config, seed, given.workers, outlets, gate),
    }
}

// Runs a text, as the words say.
fn run_text<R: Threads + Sync, K: Outlets, G: Gate + Sync>(
    rt: &R,
    alloc: Global,
    bytes: &[u8],
    given: Given,
    outlets: &mut K,
    gate: &G,
) -> Result<Status, Loss>
    requires opened { K.opened outlets.old ≡ 0 }
    requires workers { AreWorkers given.workers }
    requires runs { IfSome given.runs AreRuns }
    ensures ended { Tells (K.told outlets.old) (K.told outlets.new) (GoesWith (outcome_of_text given.seed given.runs bytes.now) result) }
    ensures status { IfOk result IsRun }
    ensures faults { CountsLoss result (K.faults outlets.old) (K.faults outlets.new) }
{
    match read_config(alloc, bytes) {
        Ok(config) => run_given(rt, alloc, &config, given, outlets, gate),
        Err(fault) => {
            let refusal = refusal_of(fault)?;
            refuse(alloc, outlets, refusal.line, refusal.kind.text())
        }
    }
}

// Runs the text that is made for so many molecules, once and without a seed of the words.
fn run_made<R: Threads + Sync, K: Outlets, G: Gate + Sync>(
    rt: &R,
    alloc: Global,
    n: u32,
    outlets: &mut K,
    gate: &G,
) -> Result<Status, Loss>
    requires opened { K.opened outlets.old ≡ 0 }
    requires least { 1 ≤ n }
    requires most { n ≤ 1000000 }
    ensures ended { Tells (K.told outlets.old) (K.told outlets.new) (GoesWith (outcome_of_text None None (generated n)) result) }
    ensures status { IfOk result IsRun }
    ensures faults { CountsLoss result (K.faults outlets.old) (K.faults outlets.new) }
{
    let text = make_config(alloc, n)?;
    let given = Given {
        seed: None,
        workers: MAKE_WORKERS,
        runs: None,
    };
    run_text(rt, alloc, &text, given, outlets, gate)
}

// Runs the file of this name with those that it asks for, as the words say.
#[tactic(auto, using(crate::proofs::Files::text_is_there, crate::proofs::Files::refusal_is_there))]
fn run_file<R: Threads + Sync, S: Source, K: Outlets, G: Gate + Sync>(
    rt: &R,
    alloc: Global,
    name: &str,
    given: Given,
    source: &mut S,
    outlets: &mut K,
    gate: &G,
) -> Result<Status, Stop>
    requires opened { K.opened outlets.old ≡ 0 }
    requires workers { AreWorkers given.workers }
    requires runs { IfSome given.runs AreRuns }
    ensures ended { IfSome (S.told source.old) (λ reading. Tells (K.told outlets.old) (K.told outlets.new)
        (GoesWithSome (outcome_of_files given.seed given.runs (expanded reading.contents name.now)) result)) }
    ensures absent { IfSome (S.told source.old) (λ reading.
        outcome_of_files given.seed given.runs (expanded reading.contents name.now) ≡ None → IsUnread result) }
    ensures status { IfOk result IsRun }
    ensures asked { Tells (S.told source.old) (S.told source.new) (AsksFront (λ contents. files_of contents name.now)) }
    ensures reads { CountsReads result (S.faults source.old) (S.faults source.new) }
    ensures writes { CountsWrites result (K.faults outlets.old) (K.faults outlets.new) }
{
    match expand(alloc, source, name) {
        Ok(text) => Ok(run_text(rt, alloc, &text, given, outlets, gate)?),
        Err(fault) => {
            let refusal = refusal_of_files(fault)?;
            Ok(refuse(alloc, outlets, refusal.line, refusal.kind.text())?)
        }
    }
}
