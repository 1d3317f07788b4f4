ghost use Rattle.std.specs.Prelude.{◌≡◌, ◌≤◌, IfErr, IfOk, Err, map, string_bytes};
ghost use Rattle.otp_base.specs.Faults.{Rose};
ghost use Rattle.otp_server.specs.Offline.{Answers, Finishes, IsDone, IsRefused};

use crate::commands::{check, plan};
use crate::refusal::Refusal;
use crate::status::Status;
use command_words::{Command, WordsFault, read_words};
use otp_base::{Folder, List, Sink, put_all};
use otp_model::FeedFault;
use std::alloc::Global;

/// Carries out a command over a folder and writes its answer.
pub fn run_offline<F: Folder, O: Sink>(
    alloc: Global,
    words: &[String],
    folder: &mut F,
    out: &mut O,
) -> Status
    // The answer that belongs to the status was written: whole, or with Write a front of it.
    ensures answers { Answers (F.files folder.old) (map string_bytes words.now) (O.contents out.old) (O.contents out.new) result }
    // Read and Write come only where the folder or the sink counted a fault.
    ensures read { result ≡ Status.Read → Rose (F.faults folder.old) (F.faults folder.new) }
    ensures write { result ≡ Status.Write → Rose (O.faults out.old) (O.faults out.new) }

    ensures files { F.files folder.new ≡ F.files folder.old }
    ensures reads { F.faults folder.old ≤ F.faults folder.new }
    ensures writes { O.faults out.old ≤ O.faults out.new }
{
    match reply(alloc, words, folder) {
        Ok(text) => finish(out, text.as_slice(), Status::Done),
        Err(refusal) => match refusal.line(alloc) {
            Ok(line) => finish(out, line.as_bytes(), refusal.status()),
            Err(_) => finish(out, &[], Status::Memory),
        },
    }
}

/// What the command writes, or why it is not carried out.
fn reply<F: Folder>(alloc: Global, words: &[String], folder: &mut F) -> Result<List<u8>, Refusal>
    ensures done { IfOk result (IsDone (F.files folder.old) (map string_bytes words.now)) }
    ensures refused { IfErr result (IsRefused (F.files folder.old) (map string_bytes words.now)) }
    ensures cause { result ≡ Err (Refusal.Feed FeedFault.Read) → Rose (F.faults folder.old) (F.faults folder.new) }
    ensures cause_message { result ≡ Err Refusal.Read → Rose (F.faults folder.old) (F.faults folder.new) }
    ensures unchanged { F.files folder.new ≡ F.files folder.old }
    ensures later { F.faults folder.old ≤ F.faults folder.new }
{
    match read_words(alloc, words) {
        Ok(
            Command::Check {
                folder: path,
                options,
            },
        ) => check(alloc, folder, path, &options),
        Ok(
            Command::Plan {
                folder: path,
                query,
                messages,
                options,
            },
        ) => plan(alloc, folder, path, &options, query, &messages),
        Ok(
            Command::Serve {
                folder: _folder,
                options: _options,
                serving: _serving,
            },
        ) => Err(Refusal::Words),
        Err(WordsFault::Words) => Err(Refusal::Words),
        Err(WordsFault::Memory) => Err(Refusal::Memory),
    }
}

/// Writes the text and answers the status, or Write.
fn finish<O: Sink>(out: &mut O, text: &[u8], status: Status) -> Status
    ensures finishes { Finishes (O.contents out.old) (O.contents out.new) (O.faults out.old) (O.faults out.new) text.now status result }
    ensures writes { O.faults out.old ≤ O.faults out.new }
{
    match put_all(out, text) {
        Ok(()) => status,
        Err(_) => Status::Write,
    }
}
