// The program's commands.
ghost use Rattle.std.specs.Prelude.{◌≡◌, ◌≢◌, ◌⊎◌, ℕ, ◌≤◌, ◌<◌, List, [], length, Option, option_map, IfOk, IsOkAnd, OnOk, IsTrue, IsSome};
ghost use Rattle.cil_base.specs.Causes.{Rose};
ghost use Rattle.cil_base.specs.Refusals.{OnRefused};
ghost use Rattle.outside_core.specs.Store.{SameFiles};
ghost use Rattle.command_line.specs.Options.{texts};
ghost use Rattle.command_line.specs.Words.{wrong_word, IsCommand};
ghost use Rattle.command_line.specs.Text.{done_text, rewrite_text, refusal_text, words_text, store_text};
ghost use Rattle.command_line.specs.declared.words.Command.{Command};
ghost use Rattle.body_splice.specs.Rewrite.{IsRewriting, KeepsBodyRules, IsBodyRefusal};
ghost use Rattle.cil_base.specs.declared.limits.TheConstants.{ASSEMBLY_LIMIT};
ghost use Rattle.assembly_rewrite.specs.Rewrite.{KeepsRows};
ghost use Rattle.set_check.specs.Sets.{bytes_at};
ghost use Rattle.set_rewrite.specs.Sets.{IsSetRefusal, KeepsSetRules};
ghost use Rattle.set_list.specs.Lists.{IsListed, IsSound, IsUnsound};
ghost use Rattle.program.specs.Layers.{IsInnerRefusal, KeepsInnerRules};
ghost use Rattle.program.specs.Reading.{reading, AreWithin};
ghost use Rattle.program.specs.Program.{IsMade, PutsFile, FromBytes, FileAnswer, Answer, Puts, Expected};
ghost use Rattle.program.specs.Replies.{Replied};

use crate::reading::{FilesFault, read_files, refusal_of_number};
use body_splice::rewrite_body;
use cil_base::limits::ASSEMBLY_LIMIT;
use cil_base::{Bytes, Fault, Refusal};
use command_line::{
    Command, Request, command_of, text_of_done, text_of_refusal, text_of_rewrite, text_of_store,
    text_of_words,
};
use outside_core::{Sink, Store, StoreRefusal};
use set_list::list_set;
use set_rewrite::rewrite_set;
use std::alloc::{AllocError, Global};

/// The bytes of a text.
fn bytes_of(alloc: Global, text: &str) -> Result<Bytes, AllocError>
    ensures { IfOk result (λ bytes. bytes ≡ text.now) }
{
    Bytes::from_slice(alloc, text.as_bytes())
}

fn bytes_of_done(alloc: Global, clauses: u32) -> Result<Bytes, AllocError>
    ensures { IfOk result (λ bytes. bytes ≡ done_text clauses) }
{
    let text = text_of_done(alloc, clauses)?;
    bytes_of(alloc, text.as_str())
}

fn bytes_of_rewrite(alloc: Global, assemblies: u32) -> Result<Bytes, AllocError>
    ensures { IfOk result (λ bytes. bytes ≡ rewrite_text assemblies 0 0) }
{
    let text = text_of_rewrite(alloc, assemblies, 0, 0)?;
    bytes_of(alloc, text.as_str())
}

/// What a command makes of its files: the bytes for the file that it writes, and the text. One that
/// writes none makes no bytes.
#[derive(Drop)]
struct Output {
    bytes: Bytes,
    text: Bytes,
}

fn make_from_body(alloc: Global, bytes: &[u8]) -> Result<Output, Fault>
    ensures done { IfOk result (λ made. (clauses : ℕ) × IsRewriting bytes.now made.bytes clauses × (made.text ≡ done_text clauses)) }
    ensures accepted { OnOk result (KeepsBodyRules bytes.now) }
    ensures refused { OnRefused result (IsBodyRefusal bytes.now) }
{
    let body = match rewrite_body(alloc, bytes) {
        Ok(body) => body,
        Err(fault) => return Err(fault),
    };
    Ok(Output {
        text: bytes_of_done(alloc, body.clauses)?,
        bytes: body.bytes,
    })
}

/// A set without contracts is rewritten alike at each level and guard.
fn make_from_set(alloc: Global, files: &[Bytes]) -> Result<Output, Fault>
    requires within { AreWithin files.now }
    requires some { 0 < length files.now }
    ensures done { IfOk result (λ made. KeepsRows (bytes_at files.now 0) 0 made.bytes × (made.text ≡ rewrite_text (length files.now) 0 0)) }
    ensures accepted { OnOk result (KeepsSetRules files.now) }
    ensures refused { OnRefused result (IsSetRefusal files.now) }
{
    let rewritten = match rewrite_set(alloc, files) {
        Ok(rewritten) => rewritten,
        Err(fault) => return Err(fault),
    };
    Ok(Output {
        text: bytes_of_rewrite(alloc, files.len() as u32)?,
        bytes: rewritten,
    })
}

/// The list of a set is a text alone.
fn make_list(alloc: Global, files: &[Bytes]) -> Result<Output, Fault>
    requires within { AreWithin files.now }
    requires some { 0 < length files.now }
    ensures done { IfOk result (λ made. (made.bytes ≡ []) × IsListed files.now made.text) }
    ensures accepted { OnOk result (IsSound files.now) }
    ensures refused { OnRefused result (IsUnsound files.now) }
{
    match list_set(alloc, files) {
        Ok(text) => Ok(Output {
            bytes: Bytes::new(alloc),
            text,
        }),
        Err(fault) => Err(fault),
    }
}

/// What the command makes of the bytes of its files.
fn make_output(alloc: Global, command: Command, files: &[Bytes]) -> Result<Output, Fault>
    requires within { AreWithin files.now }
    requires some { 0 < length files.now }
    ensures done { IfOk result (λ made. IsMade command files.now made.bytes made.text) }
    ensures accepted { OnOk result (KeepsInnerRules command files.now) }
    ensures refused { OnRefused result (IsInnerRefusal command files.now) }
{
    match command {
        Command::Body => make_from_body(alloc, files[0].as_slice()),
        Command::Rewrite(_) => make_from_set(alloc, files),
        Command::List => make_list(alloc, files),
    }
}

/// A status, and the text that goes with it.
#[derive(Drop)]
struct Reply {
    status: u8,
    text: Bytes,
}

fn reply_text(alloc: Global, status: u8, text: &str) -> Result<Reply, AllocError>
    ensures { IfOk result (λ a. (a.status ≡ status) × (a.text ≡ text.now)) }
{
    Ok(Reply {
        status,
        text: bytes_of(alloc, text)?,
    })
}

fn reply_refusal(alloc: Global, r: Refusal) -> Result<Reply, AllocError>
    ensures { IfOk result (λ a. (a.status ≡ 1) × (a.text ≡ refusal_text r)) }
{
    let text = text_of_refusal(alloc, r)?;
    reply_text(alloc, 1, text.as_str())
}

fn reply_store(alloc: Global, name: &str) -> Result<Reply, AllocError>
    ensures { IfOk result (λ a. (a.status ≡ 3) × (a.text ≡ store_text name.now)) }
{
    let text = text_of_store(alloc, name)?;
    reply_text(alloc, 3, text.as_str())
}

/// The text of a command that writes no file.
fn reply_made(made: Output) -> Reply
    ensures status { result.status ≡ 0 }
    ensures text { result.text ≡ made.text }
{
    Reply {
        status: 0,
        text: made.text,
    }
}

/// Puts what is made under the name. The text is there already, so want of memory leaves the files.
fn put_output<S: Store>(
    alloc: Global,
    store: &mut S,
    output: &str,
    made: Output,
) -> Result<Reply, AllocError>
    ensures done { IfOk result (λ a. a.status ≡ 0 → (a.text ≡ made.text) × (S.faults store.new ≡ S.faults store.old) × (IsTrue (S.tells store.old) → PutsFile (S.file store.old) (S.file store.new) output.now made.bytes)) }
    ensures failed { IfOk result (λ a. a.status ≡ 3 → (a.text ≡ store_text output.now) × Rose (S.faults store.old) (S.faults store.new)) }
    ensures kept { IsOkAnd result (λ a. a.status ≡ 0) ⊎ (IsTrue (S.tells store.old) → SameFiles (S.file store.old) (S.file store.new)) }
    ensures only { IfOk result (λ a. (a.status ≡ 0) ⊎ (a.status ≡ 3)) }
    ensures steady { IsTrue (S.steady store.old) → S.faults store.new ≡ S.faults store.old }
{
    let Output { bytes, text } = made;
    match store.replace(alloc, output, bytes.as_slice()) {
        Ok(()) => Ok(Reply { status: 0, text }),
        Err(StoreRefusal::Failed) => reply_store(alloc, output),
        Err(StoreRefusal::Memory(e)) => Err(e),
    }
}

/// Puts what is made under the name, where there is one.
fn answer_made<S: Store>(
    alloc: Global,
    command: Command,
    files: &[Bytes],
    output: Option<&str>,
    store: &mut S,
    made: Output,
) -> Result<Reply, AllocError>
    requires made { IsMade command files.now made.bytes made.text }
    requires accepted { KeepsInnerRules command files.now }
    ensures answer { Replied (FromBytes command (S.tells store.old) (S.file store.old) (S.file store.new) (S.faults store.old) (S.faults store.new) files.now (option_map (λ name. name.now) output.entry)) result }
    ensures steady { IsTrue (S.steady store.old) → S.faults store.new ≡ S.faults store.old }
{
    match output {
        Some(output) => put_output(alloc, store, output, made),
        None => Ok(reply_made(made)),
    }
}

/// Does the command on the bytes that were read, and puts the result under the name.
fn answer_bytes<S: Store>(
    alloc: Global,
    command: Command,
    files: &[Bytes],
    output: Option<&str>,
    store: &mut S,
) -> Result<Reply, AllocError>
    requires within { AreWithin files.now }
    requires some { 0 < length files.now }
    ensures answer { Replied (FromBytes command (S.tells store.old) (S.file store.old) (S.file store.new) (S.faults store.old) (S.faults store.new) files.now (option_map (λ name. name.now) output.entry)) result }
    ensures steady { IsTrue (S.steady store.old) → S.faults store.new ≡ S.faults store.old }
{
    match make_output(alloc, command, files) {
        Err(Fault::Refused(r)) => reply_refusal(alloc, r),
        Err(Fault::Memory(e)) => Err(e),
        Ok(made) => answer_made(alloc, command, files, output, store, made),
    }
}

/// Reads the files, which are few enough, and does the command on them.
fn answer_few<S: Store>(
    alloc: Global,
    command: Command,
    inputs: &[String],
    output: Option<&str>,
    store: &mut S,
) -> Result<Reply, AllocError>
    requires few { length inputs.now ≤ ASSEMBLY_LIMIT }
    requires some { 0 < length inputs.now }
    ensures answer { Replied (FileAnswer command (S.tells store.old) (S.file store.old) (S.file store.new) (S.faults store.old) (S.faults store.new) (texts inputs.now) (option_map (λ name. name.now) output.entry)) result }
    ensures steady { IsTrue (S.steady store.old) → S.faults store.new ≡ S.faults store.old }
{
    match read_files(alloc, store, inputs) {
        Err(FilesFault::Failed(name)) => reply_store(alloc, name),
        Err(FilesFault::Limit(r)) => reply_refusal(alloc, r),
        Err(FilesFault::Memory(e)) => Err(e),
        Ok(files) => answer_bytes(alloc, command, files.as_slice(), output, store),
    }
}

/// Does the command: what it makes of its files is put under the name, if there is one.
fn answer_files<S: Store>(
    alloc: Global,
    command: Command,
    inputs: &[String],
    output: Option<&str>,
    store: &mut S,
) -> Result<Reply, AllocError>
    requires { 0 < length inputs.now }
    ensures answer { Replied (FileAnswer command (S.tells store.old) (S.file store.old) (S.file store.new) (S.faults store.old) (S.faults store.new) (texts inputs.now) (option_map (λ name. name.now) output.entry)) result }
    ensures steady { IsTrue (S.steady store.old) → S.faults store.new ≡ S.faults store.old }
{
    if inputs.len() > ASSEMBLY_LIMIT as usize {
        return reply_refusal(alloc, refusal_of_number());
    }
    answer_few(alloc, command, inputs, output, store)
}

fn reply_words(alloc: Global, k: usize) -> Result<Reply, AllocError>
    ensures { IfOk result (λ a. (a.status ≡ 2) × (a.text ≡ words_text k)) }
{
    let text = text_of_words(alloc, k)?;
    reply_text(alloc, 2, text.as_str())
}

/// Does what the words ask for, and makes the text.
fn answer_words<S: Store>(
    alloc: Global,
    words: &[String],
    store: &mut S,
) -> Result<Reply, AllocError>
    ensures answer { Replied (Answer (S.tells store.old) (S.file store.old) (S.file store.new) (S.faults store.old) (S.faults store.new) (texts words.now)) result }
    ensures steady { IsTrue (S.steady store.old) → S.faults store.new ≡ S.faults store.old }
    ensures untouched { IsSome (wrong_word (texts words.now)) → store.new ≡ store.old }
{
    match command_of(words) {
        Err(k) => reply_words(alloc, k),
        Ok(request) => {
            let Request {
                command,
                inputs,
                output,
            } = request;
            answer_files(alloc, command, inputs, output, store)
        }
    }
}

/// Does what the words ask for, puts the text, and answers the exit status: 0 done, 1 a rule is
/// broken, 2 the words are wrong, 3 a file can't be read or written, 4 the text can't be put, 5
/// want of memory.
pub fn run_words<S: Store, W: Sink>(
    alloc: Global,
    words: &[String],
    store: &mut S,
    out: &mut W,
) -> u8
    // What each status means, for the files, the count of faults and the text.
    ensures answer { (status : ℕ) × (text : List ℕ)
        × Answer (S.tells store.old) (S.file store.old) (S.file store.new) (S.faults store.old) (S.faults store.new) (texts words.now) status text
        × Puts (W.tells out.old) (W.taken out.old) (W.taken out.new) (W.faults out.old) (W.faults out.new) (W.room out.old) text status result }

    // Where no fault is counted, what the files that are read hold tells the status.
    ensures complete { (command : Command) → (inputs : List (List ℕ)) → (output : Option (List ℕ)) → IsCommand (texts words.now) command inputs output → IsTrue (S.tells store.old)
        → ¬ Rose (S.faults store.old) (S.faults store.new) → ¬ Rose (W.faults out.old) (W.faults out.new)
        → Expected command (reading (S.file store.old) inputs) result }

    // At a steady store no fault is counted, and wrong words ask nothing of any store.
    ensures steady { IsTrue (S.steady store.old) → S.faults store.new ≡ S.faults store.old }
    ensures untouched { IsSome (wrong_word (texts words.now)) → store.new ≡ store.old }
{
    match answer_words(alloc, words, store) {
        Err(_) => put_text(out, b"memory\n", 5),
        Ok(reply) => put_text(out, reply.text.as_slice(), reply.status),
    }
}

/// Puts the text, and answers the status, or 4 where the sink fails.
pub(crate) fn put_text<W: Sink>(out: &mut W, text: &[u8], status: u8) -> u8
    requires { status ≢ 4 }
    ensures { Puts (W.tells out.old) (W.taken out.old) (W.taken out.new) (W.faults out.old) (W.faults out.new) (W.room out.old) text.now status result }
{
    match out.put(text) {
        Ok(()) => status,
        Err(_) => 4,
    }
}
