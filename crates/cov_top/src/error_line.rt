ghost use Rattle.std.specs.Prelude.{◌≡◌, ◌≢◌, ℕ, ◌≤◌, ◌+◌, ◌++◌, List, length};
ghost use Rattle.cov_jobs.specs.declared.fault.AskFault.{AskFault as Ask};
ghost use Rattle.cov_syntax.specs.Words.{word_spelling};
ghost use Rattle.arrayvec.specs.ArrayString.{array_string_len};
ghost use Rattle.cov_top.specs.ErrorLine.{behind_space, error_line, evidence_line, model_line, nodes_line, signal_line, PutsLine};

use crate::position::Position;
use crate::status::{InputFault, Status};
use crate::transfer::put_all;
use arrayvec::ArrayString;
use cov_evid::EvidFault;
use cov_io::Sink;
use cov_jobs::AskFault;
use cov_space::NodesFull;
use cov_syntax::{ModelFault, Word};
use itoa::Buffer;

/// Room for the longest line.
const LINE: usize = 80;

/// The spelling of a reserved word, which is short.
fn spelling(word: Word) -> &'static str
    ensures is { result.now ≡ word_spelling word }
    ensures short { length result.now ≤ 10 }
{
    word.spelling()
}

/// Puts a space and a word last, where there is one.
fn put_word(line: &mut ArrayString<LINE>, word: Option<Word>)
    requires { array_string_len line.old + 11 ≤ 80 }
    ensures bytes { line.new.bytes ≡ line.old.bytes ++ behind_space word }
    ensures short { array_string_len line.new ≤ array_string_len line.old + 11 }
{
    match word {
        Some(word) => {
            line.push_str(" ");
            line.push_str(spelling(word));
        }
        None => {}
    }
}

/// The line on a fault of a model, with its position and the word that is told.
fn model_line(fault: ModelFault, position: Position, word: Option<Word>) -> ArrayString<LINE>
    ensures { result.bytes ≡ model_line fault.code position.line position.column word }
{
    let mut buffer = Buffer::new();
    let mut line = ArrayString::new();
    line.push_str("model: ");
    line.push_str(fault.name());
    line.push_str(" at ");
    line.push_str(buffer.format(position.line));
    line.push_str(":");
    line.push_str(buffer.format(position.column));
    put_word(&mut line, word);
    line.push_str("\n");
    line
}

/// The line on a fault of evidence.
fn evidence_line(fault: EvidFault) -> ArrayString<LINE>
    ensures { result.bytes ≡ evidence_line fault }
{
    let mut buffer = Buffer::new();
    let mut line = ArrayString::new();
    line.push_str("evidence: ");
    line.push_str(fault.name());
    line.push_str(" at line ");
    line.push_str(buffer.format(fault.line));
    line.push_str("\n");
    line
}

/// The line on nodes that ran out.
fn nodes_line(full: NodesFull) -> ArrayString<LINE>
    ensures { result.bytes ≡ nodes_line full }
{
    let mut buffer = Buffer::new();
    let mut line = ArrayString::new();
    line.push_str("nodes: held ");
    line.push_str(buffer.format(full.held));
    line.push_str(", budget ");
    line.push_str(buffer.format(full.budget));
    line.push_str(", roots ");
    line.push_str(buffer.format(full.roots));
    line.push_str("\n");
    line
}

/// The line of a status above 1 that tells no signal, and nothing for any other.
fn line_of_status(status: Status, position: Position, word: Option<Word>) -> ArrayString<LINE>
    ensures { ((a : Ask) → status ≢ Status.Asked a) → (signal : List ℕ) → result.bytes ≡ error_line status position.line position.column word signal }
{
    let text = match status {
        Status::Done | Status::Fails | Status::Asked(_) => "",
        Status::Words => "usage: covsmv COMMAND MODEL [SIGNAL..] [OPTIONS]\n",
        Status::Input(InputFault::Model(fault)) => return model_line(fault, position, word),
        Status::Input(InputFault::Evidence(fault)) => return evidence_line(fault),
        Status::Read => "read failed\n",
        Status::Write => "write failed\n",
        Status::Nodes(full) => return nodes_line(full),
        Status::Memory => "out of memory\n",
    };
    let mut line = ArrayString::new();
    line.push_str(text);
    line
}

/// Puts the line on a signal that the model does not have, which may be of any length.
fn put_signal_line<E: Sink>(err: &mut E, signal: &[u8])
    ensures line { PutsLine (E.wrote err.old) (E.wrote err.new) (E.faults err.old) (E.faults err.new) (signal_line signal.now) }
    ensures later { E.faults err.old ≤ E.faults err.new }
{
    if put_all(err, b"asked: UnknownSignal ").is_err() {
        return;
    }
    if put_all(err, signal).is_err() {
        return;
    }
    let _ = put_all(err, b"\n");
}

/// Puts the line of a status that tells no signal.
fn put_status_line<E: Sink>(err: &mut E, status: Status, position: Position, word: Option<Word>)
    ensures line { ((a : Ask) → status ≢ Status.Asked a) → (signal : List ℕ) → PutsLine (E.wrote err.old) (E.wrote err.new) (E.faults err.old) (E.faults err.new) (error_line status position.line position.column word signal) }
    ensures later { E.faults err.old ≤ E.faults err.new }
{
    let line = line_of_status(status, position, word);
    let _ = put_all(err, line.as_str().as_bytes());
}

/// Puts the one line of a status above 1, or a front of it where the sink fails. It takes no memory. What the error stream
/// refuses can be told nowhere else.
pub(crate) fn put_error_line<E: Sink>(
    err: &mut E,
    status: Status,
    position: Position,
    word: Option<Word>,
    signal: &[u8],
)
    ensures line { PutsLine (E.wrote err.old) (E.wrote err.new) (E.faults err.old) (E.faults err.new) (error_line status position.line position.column word signal.now) }
    ensures later { E.faults err.old ≤ E.faults err.new }
{
    match status {
        Status::Asked(AskFault::UnknownSignal(_)) => put_signal_line(err, signal),
        _ => put_status_line(err, status, position, word),
    }
}
