// The words of a process.
ghost use Rattle.std.specs.Prelude.{◌≡◌, ℕ, List, Option, IfOk, IfErr, IsTrue, IsSome};
ghost use Rattle.cil_base.specs.Causes.{Rose};
ghost use Rattle.command_line.specs.Options.{texts};
ghost use Rattle.command_line.specs.Words.{wrong_word, IsCommand};
ghost use Rattle.command_line.specs.declared.words.Command.{Command};
ghost use Rattle.program.specs.Reading.{reading};
ghost use Rattle.program.specs.Program.{Answer, Puts, Expected};
ghost use Rattle.program.specs.Process.{fault_status, fault_text};

use crate::program::{put_text, run_words};
use outside_core::{Sink, Store};
use std::alloc::Global;
use std::io::{self, ErrorKind};

/// Why the words of a process can't be had.
#[derive(Clone, Copy, Drop)]
pub enum WordsFault {
    /// One of them is no text.
    NoText,
    Memory,
}

impl From<io::Error> for WordsFault {
    fn from(e: io::Error) -> Self {
        match e.kind() {
            ErrorKind::OutOfMemory => WordsFault::Memory,
            _ => WordsFault::NoText,
        }
    }
}

/// Does what the words of a process ask for, and answers the exit status, as `run_words` does. Where
/// they can't be had as text the first is wrong.
pub fn run_process<S: Store, W: Sink>(
    alloc: Global,
    words: Result<Vec<String>, WordsFault>,
    store: &mut S,
    out: &mut W,
) -> u8
    // Nothing is asked of any store.
    ensures untold { IfErr words (λ fault. (store.new ≡ store.old) × Puts (W.tells out.old) (W.taken out.old) (W.taken out.new) (W.faults out.old) (W.faults out.new) (W.room out.old) (fault_text fault) (fault_status fault) result) }

    ensures answer { IfOk words (λ told. (status : ℕ) × (text : List ℕ)
        × Answer (S.tells store.old) (S.file store.old) (S.file store.new) (S.faults store.old) (S.faults store.new) (texts told.items) status text
        × Puts (W.tells out.old) (W.taken out.old) (W.taken out.new) (W.faults out.old) (W.faults out.new) (W.room out.old) text status result) }
    ensures complete { IfOk words (λ told. (command : Command) → (inputs : List (List ℕ)) → (output : Option (List ℕ)) → IsCommand (texts told.items) command inputs output → IsTrue (S.tells store.old)
        → ¬ Rose (S.faults store.old) (S.faults store.new) → ¬ Rose (W.faults out.old) (W.faults out.new)
        → Expected command (reading (S.file store.old) inputs) result) }
    ensures steady { IsTrue (S.steady store.old) → S.faults store.new ≡ S.faults store.old }
    ensures untouched { IfOk words (λ told. IsSome (wrong_word (texts told.items)) → store.new ≡ store.old) }
{
    match words {
        Ok(words) => run_words(alloc, words.as_slice(), store, out),
        Err(WordsFault::NoText) => put_text(out, b"words: 0\n", 2),
        Err(WordsFault::Memory) => put_text(out, b"memory\n", 5),
    }
}
