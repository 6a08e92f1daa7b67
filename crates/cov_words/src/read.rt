ghost use Rattle.std.specs.Prelude.{◌≡◌, ◌∷◌, ℕ, List, None, Some, IfOk, map, string_bytes};
ghost use Rattle.cov_words.specs.Words as spec;
ghost use Rattle.cov_words.specs.Words.{job};
ghost use Rattle.cov_words.specs.Sorting.{IsBrief, IsGiven, IsPositional};

use crate::brief::{Brief, Given};
use crate::job::{Job, Opts, WordsFault};
use crate::options::options;
use crate::positional::Positional;
use crate::sort::sort;
use cov_syntax::{Seq, Text};
use std::alloc::Global;

/// The job of a command on a model alone.
fn model_job(command: &str, cubes: Given, model: Text, opts: Opts) -> Option<Job>
    ensures { (vs : List (List ℕ)) → IsGiven cubes.entry vs → result ≡ spec.model_job command.now vs model opts }
{
    if command == "init" {
        return Some(Job::Init { model, opts });
    }
    if command == "reach" {
        return Some(Job::Reach { model, opts });
    }
    if !cubes.is_never() {
        return None;
    }
    if command == "check" {
        return Some(Job::Check { model, opts });
    }
    if command == "vacuity" {
        return Some(Job::Vacuity { model, opts });
    }
    None
}

/// The replay of a model and the one file behind it.
fn replay_job(model: Text, mut files: Seq<Text>) -> Option<Job>
    ensures { result ≡ spec.replay_job model files }
{
    if files.len() != 1 {
        return None;
    }
    let evidence = files.pop()?;
    Some(Job::Replay { model, evidence })
}

/// The job of a command on a model and the words behind it.
fn behind_job(
    command: &str,
    nodes: Given,
    cubes: Given,
    words: Positional,
    opts: Opts,
) -> Option<Job>
    ensures { (s : spec.Sorted) → IsGiven nodes.entry s.nodes → IsGiven cubes.entry s.cubes → result ≡ spec.behind_job command.now s words.model words.signals opts }
{
    if command == "cover" {
        return Some(Job::Cover {
            model: words.model,
            signals: words.signals,
            opts,
        });
    }
    if !nodes.is_never() || !cubes.is_never() {
        return None;
    }
    if command == "replay" {
        return replay_job(words.model, words.signals);
    }
    None
}

/// The job of a command on its positional words.
fn command_job(
    command: &str,
    words: Positional,
    nodes: Given,
    cubes: Given,
    opts: Opts,
) -> Option<Job>
    ensures { (s : spec.Sorted) → IsPositional (Some words) s.positional → IsGiven nodes.entry s.nodes → IsGiven cubes.entry s.cubes → result ≡ spec.command_job command.now s opts }
{
    if words.signals.len() == 0 {
        model_job(command, cubes, words.model, opts)
    } else {
        behind_job(command, nodes, cubes, words, opts)
    }
}

/// The job of a command and its sorted words.
fn sorted_job(command: &str, sorted: Brief) -> Option<Job>
    ensures { (s : spec.Sorted) → IsBrief sorted.entry s → result ≡ spec.sorted_job command.now s }
{
    let opts = options(&sorted)?;
    command_job(
        command,
        sorted.positional?,
        sorted.nodes,
        sorted.cubes,
        opts,
    )
}

/// The job of a command and the words behind it.
fn job_of(alloc: Global, command: &str, words: &[String]) -> Result<Job, WordsFault>
    ensures ok { IfOk result (λ j. spec.job_of (command.now ∷ map string_bytes words.now) ≡ Some j) }
    ensures words { result ≡ Err WordsFault.Words → spec.job_of (command.now ∷ map string_bytes words.now) ≡ None }
{
    sorted_job(command, sort(alloc, words)?).ok_or(WordsFault::Words)
}

/// The job of the words after the program's name.
pub fn read_words(alloc: Global, words: &[String]) -> Result<Job, WordsFault>
    ensures ok { IfOk result (λ j. job words.now ≡ Some j) }
    ensures words { result ≡ Err WordsFault.Words → job words.now ≡ None }
{
    match words {
        [command, rest @ ..] => job_of(alloc, command.as_str(), rest),
        [] => Err(WordsFault::Words),
    }
}
