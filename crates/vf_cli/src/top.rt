//! The top call of the program.
ghost use Rattle.std.specs.Prelude.{◌≡◌, ℕ, List, [], ◌∷◌, Some, false, map, nat_eq, true};
ghost use Rattle.std.specs.String.{string_bytes};
ghost use Rattle.vf_base.specs.Faults.{HasRisen, HasRisenBy};
ghost use Rattle.vf_base.specs.Streams.{IsAtEnd};
ghost use Rattle.vf_base.specs.declared.events.ScriptEvent.{ScriptEvent};
ghost use Rattle.vf_cli_printing.specs.Printed.{HasCauses, IsOneOf, Prints};
ghost use Rattle.vf_cli_serve.specs.Served.{ServesLinks};
ghost use Rattle.vf_disk.specs.Disk.{LeavesOnly, LeavesShown};
ghost use Rattle.vf_journal.specs.Looking.{IsSyncedAndLookedAt};
ghost use Rattle.vf_responder.specs.Served.{RepresentsServed, untold};
ghost use Rattle.vf_responder.specs.Serving.{IsBegun, Serving};
ghost use Rattle.vf_store.specs.Represented.{Represents};
ghost use Rattle.vf_store_commands.specs.Dropping.{EndsDrop};
ghost use Rattle.vf_store_commands.specs.Making.{IsAsBefore, Makes, MayLeave};
ghost use Rattle.vf_store_commands.specs.declared.dropping.KeptEntry.{KeptEntry as KeptEntryMeant};
ghost use Rattle.vf_tables.specs.declared.tables.Tables.{Tables as TablesMeant};
ghost use Rattle.vf_journal.specs.Image.{refusal};
ghost use Rattle.vf_cli.specs.Ftam.{DoesWords, DropsWords, MakesDrawn, MeetsCommand, drop_statuses, generate_statuses, only_looks, statuses_of, task_statuses, usage as usage_printed, usage_line, uses_dial, uses_disk, uses_links};
ghost use Rattle.vf_cli.specs.KeptWords.{kept_in};
ghost use Rattle.vf_cli.specs.TaskWords.{task_in};
ghost use Rattle.vf_cli_generate.specs.Generating.{EndsGenerate};
ghost use Rattle.vf_cli_transact.specs.Tasks.{EndsTask};
ghost use Rattle.vf_cli_words.specs.Words.{command_of, drawn_in};
ghost use Rattle.vf_cli_words.specs.declared.words.Drawn.{Drawn as DrawnMeant};
ghost use Rattle.vf_transact.specs.Starting.{connections_of};
ghost use Rattle.vf_transact.specs.declared.words.PlanWords.{PlanWords as PlanWordsMeant};

use crate::kept::kept_words;
use crate::task::task_words;
use std::alloc::Global;
use vf_base::{Dial, Links, Sink, Source};
use vf_cli_dialogue::dialogue;
use vf_cli_generate::generate;
use vf_cli_printing::{NO_MEMORY, USAGE, print};
use vf_cli_replay::replay;
use vf_cli_serve::serve;
use vf_cli_transact::do_task;
use vf_cli_words::{Command, drawn_by, parse};
use vf_disk::Disk;
use vf_store_commands::{dockets, drop_kept, init, list};

/// Runs the command that the words ask for; answers its disk, and its status.
///
/// `words` is the command line without the program's name. The disk is that of the store, which `dialogue`, `replay` and words
/// outside the grammar leave alone; only `serve` uses the links, and only `put` and `get` use the dial. The statuses: 0 the command came to
/// its end; 1 a diagnostic refused the task, or there is nothing to be dropped; 2 the words are outside the grammar; 3 the input failed; 4 the output failed; 5 the
/// disk failed; 6 each connection of the task was lost; 7 an abort was said, or the other end of the task is at fault; 8 the disk
/// has no store, or isn't empty where one is to be made; 9 memory is wanting; 10 the links failed; 11 a line of the input is bad;
/// 12 the store is full; 13 the activity is in use.
pub fn ftam<L: Links, D: Disk, C: Dial, I: Source, O: Sink>(
    alloc: Global,
    words: &Vec<String>,
    links: &mut L,
    disk: D,
    dial: &mut C,
    input: &mut I,
    out: &mut O,
) -> (D, u8)
    ensures prints { MeetsCommand (command_of (map string_bytes words.now.items)) result.1 (D.shown disk) (I.left input.old) (O.taken out.old) (O.taken out.new) }
    ensures completes { (octets lines : List ℕ) → D.shown disk ≡ Some octets → I.left input.old ≡ Some lines → (HasRisen (I.fault_count input.old) (I.fault_count input.new) → ⊥)
        → (HasRisen (O.fault_count out.old) (O.fault_count out.new) → ⊥) → (HasRisen (D.fault_count disk) (D.fault_count result.0) → ⊥)
        → IsOneOf (statuses_of (command_of (map string_bytes words.now.items)) octets lines) result.1 }
    ensures causes { HasCauses result.1 (I.fault_count input.old) (I.fault_count input.new) (O.fault_count out.old) (O.fault_count out.new) }
    ensures disk_cause { result.1 ≡ 5 → HasRisen (D.fault_count disk) (D.fault_count result.0) }
    ensures unused { uses_disk (command_of (map string_bytes words.now.items)) ≡ false → result.0 ≡ disk }
    ensures links_cause { result.1 ≡ 10 → HasRisen (L.fault_count links.old) (L.fault_count links.new) }
    ensures unlinked { uses_links (command_of (map string_bytes words.now.items)) ≡ false → links.new ≡ links.old }
    ensures init_ends { command_of (map string_bytes words.now.items) ≡ Some Command.InitStore → result.1 ≡ 0 → IsAtEnd (I.left input.new) }
    ensures init_makes { command_of (map string_bytes words.now.items) ≡ Some Command.InitStore → (lines : List ℕ) → D.shown disk ≡ Some [] → I.left input.old ≡ Some lines → result.1 ≡ 0
        → Makes D.shown D.may_leave result.0 lines }
    ensures init_keeps { command_of (map string_bytes words.now.items) ≡ Some Command.InitStore → (octets lines : List ℕ) → D.shown disk ≡ Some octets → I.left input.old ≡ Some lines
        → IsOneOf (3 ∷ 8 ∷ 11 ∷ []) result.1 → IsAsBefore D.shown D.may_leave disk result.0 }
    ensures init_any_moment { command_of (map string_bytes words.now.items) ≡ Some Command.InitStore → (lines : List ℕ) → D.shown disk ≡ Some [] → LeavesShown (D.shown disk) (D.may_leave disk)
        → I.left input.old ≡ Some lines → LeavesOnly D.moment D.left_since disk result.0 (MayLeave lines) }
    ensures looks { only_looks (command_of (map string_bytes words.now.items)) ≡ true
        → IsSyncedAndLookedAt D.shown D.size D.may_leave D.moment D.left_since D.plan D.state D.lack_count (nat_eq result.1 5) disk result.0 }
    ensures looks_any_moment { only_looks (command_of (map string_bytes words.now.items)) ≡ true → (tables : TablesMeant) → ((image : List ℕ) → D.may_leave disk image → Represents image tables)
        → LeavesOnly D.moment D.left_since disk result.0 (λ image. Represents image tables) }
    ensures drops { command_of (map string_bytes words.now.items) ≡ Some Command.DropKept → (kept : KeptEntryMeant) → kept_in (map string_bytes words.now.items) ≡ Some kept
        → DropsWords D.shown D.may_leave D.moment D.left_since kept disk result.0 result.1 (O.taken out.old) (O.taken out.new) }
    ensures serves { command_of (map string_bytes words.now.items) ≡ Some Command.Serve
        → ServesLinks D.shown D.size D.may_leave disk result.0 (D.fault_count disk) (D.fault_count result.0) (L.told links.old) (L.told links.new) (L.fault_count links.old) (L.fault_count links.new)
        (L.turns links.new) (L.through links.new) result.1 (O.taken out.old) (O.taken out.new) }
    ensures serve_any_moment { command_of (map string_bytes words.now.items) ≡ Some Command.Serve → (left : List ScriptEvent) (image : List ℕ) (tables : TablesMeant) (serving : Serving)
        → L.told links.old ≡ Some (untold left) → D.shown disk ≡ Some image → Represents image tables → ((image : List ℕ) → D.may_leave disk image → Represents image tables)
        → IsBegun tables serving → LeavesOnly D.moment D.left_since disk result.0 (RepresentsServed serving (L.told links.new)) }
    ensures undialled { uses_dial (command_of (map string_bytes words.now.items)) ≡ false → dial.new ≡ dial.old }
    ensures transacts { uses_dial (command_of (map string_bytes words.now.items)) ≡ true → (plan : PlanWordsMeant) → task_in (map string_bytes words.now.items) ≡ Some plan
        → DoesWords D.shown D.may_leave D.moment D.left_since plan disk result.0 (D.fault_count disk) (D.fault_count result.0)
        (record {
          input = I.left input.old;
          input_faults = I.fault_count input.old;
          input_faults' = I.fault_count input.new;
          output = O.taken out.old;
          output' = O.taken out.new;
          output_faults = O.fault_count out.old;
          dial = C.told dial.old;
          dial' = C.told dial.new;
          dial_faults = C.fault_count dial.old;
          dial_faults' = C.fault_count dial.new;
          lost = C.lost_count dial.old;
          lost' = C.lost_count dial.new;
        }) result.1 }
    ensures lost_cause { result.1 ≡ 6 → (uses_dial (command_of (map string_bytes words.now.items)) ≡ true)
        × ((plan : PlanWordsMeant) → task_in (map string_bytes words.now.items) ≡ Some plan → HasRisenBy (connections_of plan) (C.lost_count dial.old) (C.lost_count dial.new)) }
    ensures generates { command_of (map string_bytes words.now.items) ≡ Some Command.Generate → (drawn : DrawnMeant) → drawn_in (map string_bytes words.now.items) ≡ Some drawn
        → MakesDrawn D.shown D.size D.may_leave D.moment D.left_since drawn disk result.0 (D.fault_count disk) (D.fault_count result.0) result.1 (O.taken out.old) (O.taken out.new) }
{
    match parse(words) {
        Some(Command::Dialogue) => {
            let status = dialogue(alloc, input, out);
            (disk, status)
        }
        Some(Command::InitStore) => init(alloc, disk, input, out),
        Some(Command::ListFiles) => list(alloc, disk, out),
        Some(Command::ListDockets) => dockets(alloc, disk, out),
        Some(Command::DropKept) => drop_named(alloc, words, disk, out),
        Some(Command::Replay) => {
            let status = replay(alloc, input, out);
            (disk, status)
        }
        Some(Command::Serve) => serve(alloc, links, disk, out),
        Some(Command::Put) => task(alloc, words, disk, dial, input, out),
        Some(Command::Get) => task(alloc, words, disk, dial, input, out),
        Some(Command::Generate) => draw(alloc, words, disk, out),
        None => {
            let status = usage(out);
            (disk, status)
        }
    }
}

/// Does the task that the words ask for. Where memory is wanting for the words nothing is done.
fn task<D: Disk, C: Dial, I: Source, O: Sink>(
    alloc: Global,
    words: &Vec<String>,
    disk: D,
    dial: &mut C,
    input: &mut I,
    out: &mut O,
) -> (D, u8)
    ensures transacts { (plan : PlanWordsMeant) → task_in (map string_bytes words.now.items) ≡ Some plan
        → DoesWords D.shown D.may_leave D.moment D.left_since plan disk result.0 (D.fault_count disk) (D.fault_count result.0)
        (record {
          input = I.left input.old;
          input_faults = I.fault_count input.old;
          input_faults' = I.fault_count input.new;
          output = O.taken out.old;
          output' = O.taken out.new;
          output_faults = O.fault_count out.old;
          dial = C.told dial.old;
          dial' = C.told dial.new;
          dial_faults = C.fault_count dial.old;
          dial_faults' = C.fault_count dial.new;
          lost = C.lost_count dial.old;
          lost' = C.lost_count dial.new;
        }) result.1 }
    ensures ends { EndsTask result.1 }
    ensures causes { HasCauses result.1 (I.fault_count input.old) (I.fault_count input.new) (O.fault_count out.old) (O.fault_count out.new) }
    ensures disk_cause { result.1 ≡ 5 → HasRisen (D.fault_count disk) (D.fault_count result.0) }
    ensures lost_cause { (plan : PlanWordsMeant) → task_in (map string_bytes words.now.items) ≡ Some plan → result.1 ≡ 6
        → HasRisenBy (connections_of plan) (C.lost_count dial.old) (C.lost_count dial.new) }
    ensures completes { (octets : List ℕ) → D.shown disk ≡ Some octets → (HasRisen (I.fault_count input.old) (I.fault_count input.new) → ⊥)
        → (HasRisen (O.fault_count out.old) (O.fault_count out.new) → ⊥) → (HasRisen (D.fault_count disk) (D.fault_count result.0) → ⊥)
        → IsOneOf (task_statuses (refusal octets)) result.1 }
{
    match task_words(alloc, words) {
        Ok(plan) => do_task(alloc, &plan, disk, dial, input, out),
        Err(_) => (disk, NO_MEMORY),
    }
}

/// Drops what the words tell. Where memory is wanting for the words nothing is done.
fn drop_named<D: Disk, O: Sink>(alloc: Global, words: &Vec<String>, disk: D, out: &mut O) -> (D, u8)
    ensures drops { (kept : KeptEntryMeant) → kept_in (map string_bytes words.now.items) ≡ Some kept
        → DropsWords D.shown D.may_leave D.moment D.left_since kept disk result.0 result.1 (O.taken out.old) (O.taken out.new) }
    ensures ends { EndsDrop result.1 }
    ensures output_cause { result.1 ≡ 4 → HasRisen (O.fault_count out.old) (O.fault_count out.new) }
    ensures disk_cause { result.1 ≡ 5 → HasRisen (D.fault_count disk) (D.fault_count result.0) }
    ensures completes { (octets : List ℕ) → D.shown disk ≡ Some octets → (HasRisen (O.fault_count out.old) (O.fault_count out.new) → ⊥)
        → (HasRisen (D.fault_count disk) (D.fault_count result.0) → ⊥) → IsOneOf (drop_statuses (refusal octets)) result.1 }
{
    match kept_words(alloc, words) {
        Ok(kept) => drop_kept(alloc, kept, disk, out),
        Err(_) => (disk, NO_MEMORY),
    }
}

/// Makes the files that the words ask for.
fn draw<D: Disk, O: Sink>(alloc: Global, words: &Vec<String>, disk: D, out: &mut O) -> (D, u8)
    ensures draws { (drawn : DrawnMeant) → drawn_in (map string_bytes words.now.items) ≡ Some drawn
        → MakesDrawn D.shown D.size D.may_leave D.moment D.left_since drawn disk result.0 (D.fault_count disk) (D.fault_count result.0) result.1 (O.taken out.old) (O.taken out.new) }
    ensures ends { EndsGenerate result.1 }
    ensures output_cause { result.1 ≡ 4 → HasRisen (O.fault_count out.old) (O.fault_count out.new) }
    ensures disk_cause { result.1 ≡ 5 → HasRisen (D.fault_count disk) (D.fault_count result.0) }
    ensures completes { (octets : List ℕ) → D.shown disk ≡ Some octets → (HasRisen (O.fault_count out.old) (O.fault_count out.new) → ⊥)
        → (HasRisen (D.fault_count disk) (D.fault_count result.0) → ⊥) → IsOneOf (generate_statuses (refusal octets)) result.1 }
{
    match drawn_by(words) {
        Some(drawn) => generate(alloc, drawn.number, drawn.count, disk, out),
        None => (disk, NO_MEMORY),
    }
}

/// Tells that the words are outside the grammar.
fn usage<O: Sink>(out: &mut O) -> u8
    ensures prints { Prints (4 ∷ []) usage_printed result (O.taken out.old) (O.taken out.new) }
    ensures ends { IsOneOf (2 ∷ 4 ∷ []) result }
    ensures cause { result ≡ 4 → HasRisen (O.fault_count out.old) (O.fault_count out.new) }
{
    print(out, usage_text(), USAGE)
}

/// The line where the words are outside the grammar.
fn usage_text() -> &'static [u8]
    ensures { result.now ≡ usage_line }
{
    b"usage\n"
}
