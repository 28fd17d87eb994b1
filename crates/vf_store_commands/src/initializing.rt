//! The command `init`.
ghost use Rattle.std.specs.Prelude.{◌≡◌, ℕ, List, [], ◌∷◌, Some, IfOk, length};
ghost use Rattle.std.specs.String.{string_bytes};
ghost use Rattle.vf_base.specs.Faults.{HasRisen};
ghost use Rattle.vf_base.specs.Streams.{IsAtEnd};
ghost use Rattle.vf_disk.specs.Disk.{LeavesOnly, LeavesShown};
ghost use Rattle.vf_store_commands.specs.Making.{AreUsers, EndsInit, IsAsBefore, IsMaking, IsStoreOf, Makes, MayLeave, printed_by_init, printed_told, users_alone, users_line};
ghost use Rattle.vf_cli_printing.specs.Printed.{IsOneOf, Prints, bad_line};
ghost use Rattle.vf_store_commands.specs.UserLines.{users_told};
ghost use Rattle.vf_tables.specs.Snapshot.{snapshot};

use crate::error_lines::{print_error, print_no_store};
use crate::making::{changes_for, store_with};
use crate::user_lines::{ReadError, Told, read_users};
use std::alloc::Global;
use vf_base::{NoMemory, Sink, Source};
use vf_cli_printing::{BAD_LINE, DISK_FAULT, INPUT_FAULT, NO_MEMORY, append_bad_line, print};
use vf_disk::Disk;
use vf_tables::{Changes, Users};

/// Makes a store on an empty disk, with the users whom the lines of the input tell (profile). The input is read to its end
/// before anything is written.
///
/// The statuses: 0 the store is made, and a line tells the number of its users; 3 the input failed; 4 the output failed; 5
/// the disk failed; 8 the disk isn't empty; 9 memory is wanting; 11 a line of the input is bad.
pub fn init<D: Disk, I: Source, O: Sink>(
    alloc: Global,
    disk: D,
    input: &mut I,
    out: &mut O,
) -> (D, u8)
    ensures prints { (octets lines : List ℕ) → D.shown disk ≡ Some octets → I.left input.old ≡ Some lines
        → Prints (3 ∷ 4 ∷ 5 ∷ 9 ∷ []) (printed_by_init octets lines) result.1 (O.taken out.old) (O.taken out.new) }
    ensures ends { EndsInit result.1 }
    ensures end { result.1 ≡ 0 → IsAtEnd (I.left input.new) }
    ensures made { (lines : List ℕ) → D.shown disk ≡ Some [] → I.left input.old ≡ Some lines → result.1 ≡ 0 → Makes D.shown D.may_leave result.0 lines }
    ensures kept { (octets lines : List ℕ) → D.shown disk ≡ Some octets → I.left input.old ≡ Some lines → IsOneOf (3 ∷ 8 ∷ 11 ∷ []) result.1 → IsAsBefore D.shown D.may_leave disk result.0 }
    ensures any_moment { (lines : List ℕ) → D.shown disk ≡ Some [] → LeavesShown (D.shown disk) (D.may_leave disk) → I.left input.old ≡ Some lines
        → LeavesOnly D.moment D.left_since disk result.0 (MayLeave lines) }
    ensures input_cause { result.1 ≡ 3 → HasRisen (I.fault_count input.old) (I.fault_count input.new) }
    ensures output_cause { result.1 ≡ 4 → HasRisen (O.fault_count out.old) (O.fault_count out.new) }
    ensures disk_cause { result.1 ≡ 5 → HasRisen (D.fault_count disk) (D.fault_count result.0) }
{
    let mut disk = disk;
    let Ok(length) = disk.len() else {
        return (disk, DISK_FAULT);
    };
    if length == 0 {
        return on_empty(alloc, disk, input, out);
    }
    let status = print_no_store(alloc, 0, out);
    (disk, status)
}

/// Reads the lines, and makes the store.
fn on_empty<D: Disk, I: Source, O: Sink>(
    alloc: Global,
    disk: D,
    input: &mut I,
    out: &mut O,
) -> (D, u8)
    requires { D.size disk ≡ 0 }
    ensures prints { (lines : List ℕ) → D.shown disk ≡ Some [] → I.left input.old ≡ Some lines
        → Prints (3 ∷ 4 ∷ 5 ∷ 9 ∷ []) (printed_told (users_told lines)) result.1 (O.taken out.old) (O.taken out.new) }
    ensures ends { EndsInit result.1 }
    ensures end { result.1 ≡ 0 → IsAtEnd (I.left input.new) }
    ensures made { (lines : List ℕ) → D.shown disk ≡ Some [] → I.left input.old ≡ Some lines → result.1 ≡ 0 → Makes D.shown D.may_leave result.0 lines }
    ensures kept { (lines : List ℕ) → D.shown disk ≡ Some [] → I.left input.old ≡ Some lines → IsOneOf (3 ∷ 8 ∷ 11 ∷ []) result.1 → result.0 ≡ disk }
    ensures any_moment { (lines : List ℕ) → D.shown disk ≡ Some [] → LeavesShown (D.shown disk) (D.may_leave disk) → I.left input.old ≡ Some lines
        → LeavesOnly D.moment D.left_since disk result.0 (MayLeave lines) }
    ensures input_cause { result.1 ≡ 3 → HasRisen (I.fault_count input.old) (I.fault_count input.new) }
    ensures output_cause { result.1 ≡ 4 → HasRisen (O.fault_count out.old) (O.fault_count out.new) }
    ensures disk_cause { result.1 ≡ 5 → HasRisen (D.fault_count disk) (D.fault_count result.0) }
{
    match read_users(alloc, input) {
        Ok(Told::Users(users)) => make(alloc, disk, users, out),
        Ok(Told::Bad(number)) => {
            let status = print_bad_line(alloc, number, out);
            (disk, status)
        }
        Err(ReadError::Failed) => (disk, INPUT_FAULT),
        Err(ReadError::NoMemory) => (disk, NO_MEMORY),
    }
}

/// Makes the store of users, and tells their number.
fn make<D: Disk, O: Sink>(alloc: Global, disk: D, users: Users, out: &mut O) -> (D, u8)
    requires { D.size disk ≡ 0 }
    ensures prints { AreUsers users → D.shown disk ≡ Some []
        → Prints (4 ∷ 5 ∷ 9 ∷ []) (record { octets = users_line (length users); status = 0 }) result.1 (O.taken out.old) (O.taken out.new) }
    ensures ends { IsOneOf (0 ∷ 4 ∷ 5 ∷ 8 ∷ 9 ∷ 12 ∷ []) result.1 }
    ensures made { AreUsers users → D.shown disk ≡ Some [] → result.1 ≡ 0 → IsStoreOf D.shown D.may_leave result.0 users }
    ensures any_moment { AreUsers users → D.shown disk ≡ Some [] → LeavesShown (D.shown disk) (D.may_leave disk)
        → LeavesOnly D.moment D.left_since disk result.0 (IsMaking users) }
    ensures output_cause { result.1 ≡ 4 → HasRisen (O.fault_count out.old) (O.fault_count out.new) }
    ensures disk_cause { result.1 ≡ 5 → HasRisen (D.fault_count disk) (D.fault_count result.0) }
{
    let Ok((line, changes)) = prepared(alloc, users) else {
        return (disk, NO_MEMORY);
    };
    match store_with(alloc, disk, changes) {
        Ok(disk) => {
            let status = print(out, line.as_bytes(), 0);
            (disk, status)
        }
        Err((disk, error)) => {
            let status = print_error(alloc, error, out);
            (disk, status)
        }
    }
}

/// The line that tells the number of users, and the changes that make them.
fn prepared(alloc: Global, users: Users) -> Result<(String, Changes), NoMemory>
    ensures { IfOk result (λ made. (string_bytes made.0 ≡ users_line (length users)) × (made.1 ≡ snapshot (users_alone users))) }
{
    let line = users_text(alloc, users.len())?;
    let changes = changes_for(alloc, users)?;
    Ok((line, changes))
}

fn users_text(alloc: Global, count: usize) -> Result<String, NoMemory>
    ensures { IfOk result (λ text. string_bytes text ≡ users_line count) }
{
    let text = format!(in alloc; "users {count}\n")?;
    Ok(text)
}

/// Tells that a line is bad, by its number.
fn print_bad_line<O: Sink>(alloc: Global, number: usize, out: &mut O) -> u8
    ensures prints { Prints (4 ∷ 9 ∷ []) (record { octets = bad_line number; status = 11 }) result (O.taken out.old) (O.taken out.new) }
    ensures cause { result ≡ 4 → HasRisen (O.fault_count out.old) (O.fault_count out.new) }
{
    let mut text = Vec::new(alloc);
    if append_bad_line(alloc, number, &mut text).is_err() {
        return NO_MEMORY;
    }
    print(out, text.as_slice(), BAD_LINE)
}
