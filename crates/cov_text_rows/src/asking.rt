use cov_syntax::Text;
use cov_words::{Job, Opts, WordsFault, read_words};
use std::alloc::{AllocError, Global};
use std::test::Fail;

/// A command, its model, and the numbers of its options.
type Asked = (&'static str, &'static str, u32, u32);

/// The words of a line, and the signals that they name.
const SIGNALS: [(&str, &str); 5] = [
    ("cover M q", "q"),
    ("cover --nodes=5000 M q", "q"),
    ("cover M q r", "q r"),
    ("cover M r q r", "r q r"),
    ("cover q --cubes 3 r -- --cubes s", "r --cubes s"),
];

/// The words of a line, and what they ask for.
const ROWS: [(&str, Option<Asked>); 41] = [
    ("init M", Some(("init", "M", 1_000_000, 200))),
    ("reach M --nodes 5000", Some(("reach", "M", 5000, 200))),
    ("reach --nodes=5000 M", Some(("reach", "M", 5000, 200))),
    ("reach M --cubes 7 --nodes=1", Some(("reach", "M", 1, 7))),
    (
        "reach --cubes 100000 M",
        Some(("reach", "M", 1_000_000, 100_000)),
    ),
    (
        "check M --nodes 16000000",
        Some(("check", "M", 16_000_000, 200)),
    ),
    ("check -- -M", Some(("check", "-M", 1_000_000, 200))),
    ("vacuity M", Some(("vacuity", "M", 1_000_000, 200))),
    ("vacuity --nodes=5000 M", Some(("vacuity", "M", 5000, 200))),
    ("cover --nodes=5000 M q", Some(("cover", "M", 5000, 200))),
    ("cover M q --nodes 5000", Some(("cover", "M", 5000, 200))),
    ("cover M q r --cubes 3", Some(("cover", "M", 1_000_000, 3))),
    ("init M --nodes 000000012", Some(("init", "M", 12, 200))),
    (
        "reach --nodes 9 -- --nodes",
        Some(("reach", "--nodes", 9, 200)),
    ),
    ("init M --nodes 0000000012", None),
    ("cover M", None),
    ("cover", None),
    ("cover M -q", None),
    ("init", None),
    ("init M N", None),
    ("init -- M N", None),
    ("init M --nodes 0", None),
    ("init M --nodes 16000001", None),
    ("init M --nodes 1 --nodes 2", None),
    ("init M --nodes=", None),
    ("init M --nodes 1x", None),
    ("init M --nodes +1", None),
    ("check M --cubes 3", None),
    ("check --help", None),
    ("frob M", None),
    ("vacuity M --cubes 3", None),
    ("vacuity M q", None),
    ("reach M --cubes 100001", None),
    ("reach M --cubes", None),
    ("reach M --node 5", None),
    ("replay M E", Some(("replay", "M", 1_000_000, 200))),
    ("replay -- M -E", Some(("replay", "M", 1_000_000, 200))),
    ("replay M", None),
    ("replay M E F", None),
    ("replay M E --nodes 5", None),
    ("replay M E --cubes 5", None),
];

fn words(alloc: Global, line: &str) -> Result<Vec<String>, AllocError> {
    let mut words = Vec::new(alloc);
    for word in line.split(' ') {
        words.push(String::from_str(alloc, word)?)?;
    }
    Ok(words)
}

fn command(job: &Job) -> &'static str {
    match job {
        Job::Init { model: _, opts: _ } => "init",
        Job::Reach { model: _, opts: _ } => "reach",
        Job::Check { model: _, opts: _ } => "check",
        Job::Vacuity { model: _, opts: _ } => "vacuity",
        Job::Cover {
            model: _,
            signals: _,
            opts: _,
        } => "cover",
        Job::Replay {
            model: _,
            evidence: _,
        } => "replay",
    }
}

fn is_asked(job: &Job, asked: Asked) -> bool {
    let (name, model, nodes, cubes) = asked;
    command(job) == name && job.model() == model.as_bytes() && job.opts() == Opts { nodes, cubes }
}

fn asks_for(alloc: Global, line: &str, asked: Option<Asked>) -> Result<bool, AllocError> {
    let words = words(alloc, line)?;
    Ok(match read_words(alloc, words.as_slice()) {
        Ok(job) => match asked {
            Some(asked) => is_asked(&job, asked),
            None => false,
        },
        Err(fault) => fault == WordsFault::Words && asked.is_none(),
    })
}

#[test]
fn words_ask_for_a_job_or_are_refused(rt: HostRuntime) -> Result<(), Fail> {
    for (line, asked) in ROWS {
        assert!(rt; asks_for(rt.alloc(), line, asked)?, "{line}");
    }
    Ok(())
}

fn are_named(signals: &[Text], names: &[String]) -> bool {
    signals.len() == names.len()
        && signals
            .iter()
            .zip(names)
            .all(|(signal, name)| signal.as_slice() == name.as_bytes())
}

fn covers(job: &Job, names: &[String]) -> bool {
    match job {
        Job::Cover {
            model: _,
            signals,
            opts: _,
        } => are_named(signals.as_slice(), names),
        _ => false,
    }
}

fn asks_for_signals(alloc: Global, line: &str, wanted: &str) -> Result<bool, AllocError> {
    let names = words(alloc, wanted)?;
    let words = words(alloc, line)?;
    Ok(match read_words(alloc, words.as_slice()) {
        Ok(job) => covers(&job, names.as_slice()),
        Err(_) => false,
    })
}

#[test]
fn signals_are_kept_in_their_order(rt: HostRuntime) -> Result<(), Fail> {
    for (line, wanted) in SIGNALS {
        assert!(rt; asks_for_signals(rt.alloc(), line, wanted)?, "{line}");
    }
    Ok(())
}

#[test]
fn no_words_ask_for_nothing(rt: HostRuntime) {
    let none = Vec::new(rt.alloc());
    assert!(rt;
        matches!(
            read_words(rt.alloc(), none.as_slice()),
            Err(WordsFault::Words)
        )
    );
}
