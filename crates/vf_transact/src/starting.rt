//! What stands before the first connection: which task is taken up, and that a new one is kept.
ghost use Rattle.std.specs.Prelude.{◌≡◌, ℕ, List, [], ◌∷◌, IfErr, IfOk, IsOk, None, Ok, Err, OnErr, OnOk, Some, false, is_ok, min, option_copied, true, if◌then◌else◌};
ghost use Rattle.vf_base.specs.Streams.{IsAtEnd};
ghost use Rattle.vf_base.specs.declared.element.Element.{Element as ElementMeant};
ghost use Rattle.vf_initiator.specs.Assignments.{assignment_of, given_of, new_progress, row_of};
ghost use Rattle.vf_initiator.specs.Keepable.{LeadTo, is_within_file};
ghost use Rattle.vf_store.specs.StoreState.{IsRepresented};
ghost use Rattle.vf_tables.specs.Validity.{is_valid};
ghost use Rattle.vf_tables.specs.declared.tables.Tables.{Tables as TablesMeant};
ghost use Rattle.vf_transact.specs.Connecting.{KeepsAs};
ghost use Rattle.vf_transact.specs.Conversation.{talk_begun};
ghost use Rattle.vf_transact.specs.Starting.{Answers, BeginsNew, IsAmong, IsPlanned, IsTakenUp, ReadsByCause, TakesUp, are_words, before_connections, elements_for as elements_meant, is_of as is_of_meant, kept_in, keeping_under, of_input, of_store, plan_of as plan_meant, task_by, taken_up, taken_up_new, taken_up_of, taken_with};
ghost use Rattle.vf_transact.specs.declared.error.TransactError.{TransactError as TransactErrorMeant};
ghost use Rattle.vf_transact.specs.Transaction.{AtFull, EndsOn, FullAt, FullFirst, KeepsStore, StoreByCause, first_kept, has_disk_fault, kept_new, tables_kept};
ghost use Rattle.vf_tree.specs.FileTree.{octets_of_unit};

use crate::keeping::commit;
use crate::limits::TOO_MANY_TASKS;
use crate::reading::read_elements;
use crate::{PlanWords, TransactError};
use std::alloc::Global;
use vf_base::{Element, Elements, Name, NoMemory, Sequence, Source, copy_option};
use vf_disk::Disk;
use vf_initiator::{Plan, Task, tasks_are_kept};
use vf_store::Store;
use vf_tables::{
    Change, Changes, MOST_TASKS, Phase, Plan as KeptPlan, Tables, Task as KeptTask, kept_stay,
};
use vf_tree::octets_of;

/// A task that is taken up.
#[derive(Drop)]
pub(crate) struct Begun {
    pub(crate) plan: Plan,
    /// It was kept before.
    pub(crate) is_kept: bool,
    /// The octets of the strings that a put sends; of a get 0.
    pub(crate) octets: u64,
}

/// The task that is kept, if there is one: it is of the same file, of the same kind and the same way. A new one is kept beside
/// 15 others at most.
fn task_found<'a>(
    words: &PlanWords,
    tables: &'a Tables,
) -> Result<Option<&'a KeptTask>, TransactError>
    ensures found { IfOk result (λ task. taken_up words.now tables.now ≡ Ok (option_copied task)) }
    ensures refused { IfErr result (λ error. taken_up words.now tables.now ≡ Err error) }
{
    let Some(activity) = words.activity else {
        return Ok(None);
    };
    match tables.task(activity) {
        Some(task) if is_of(words, &task.plan) => Ok(Some(task)),
        Some(_) => Err(TransactError::InUse),
        None if tables.tasks.len() >= MOST_TASKS => Err(TransactError::refused(TOO_MANY_TASKS)),
        None => Ok(None),
    }
}

/// Whether the task that is kept is of these words.
fn is_of(words: &PlanWords, plan: &KeptPlan) -> bool
    ensures { result ≡ is_of_meant words.now plan.now }
{
    plan.way == words.way() && plan.kind == words.kind && plan.file == words.name
}

/// The plan of words, where a put has these elements.
fn plan_of(alloc: Global, words: &PlanWords, elements: Elements) -> Result<Plan, NoMemory>
    ensures { IfOk result (λ plan. plan ≡ plan_meant words.now elements) }
{
    let identity = words.identity.copy(alloc)?;
    let password = copy_option(alloc, &words.password)?;
    let task = task_of(alloc, words, elements)?;
    Ok(Plan {
        task,
        identity,
        password,
        activity: words.activity,
    })
}

fn task_of(alloc: Global, words: &PlanWords, elements: Elements) -> Result<Task, NoMemory>
    ensures { IfOk result (λ task. task ≡ task_by words.now.put words.now elements) }
{
    let name = words.name.copy(alloc)?;
    if words.put {
        return Ok(Task::Put {
            name,
            kind: words.kind,
            every: words.every,
            elements,
        });
    }
    Ok(Task::Get {
        name,
        kind: words.kind,
        every: words.every,
    })
}

/// The octets of all strings.
pub(crate) fn octets_of_all(elements: &[Element]) -> u64
    ensures { result ≡ min (octets_of_unit elements.now) 18446744073709551615 }
{
    let mut octets: u64 = 0;
    for element in elements {
        octets = octets.saturating_add(octets_of(element));
    }
    octets
}

/// A task that was kept. What it sends is kept with it.
fn begun_kept(alloc: Global, words: &PlanWords, task: &KeptTask) -> Result<Begun, NoMemory>
    ensures { IfOk result (IsTakenUp (record { plan = plan_meant words.now []; kept = Some task.now })) }
{
    let plan = plan_of(alloc, words, Sequence::new(alloc))?;
    let octets = if words.put { task.staged.octets() } else { 0 };
    Ok(Begun {
        plan,
        is_kept: true,
        octets,
    })
}

/// The elements that a new task sends.
fn elements_for<I: Source>(
    alloc: Global,
    words: &PlanWords,
    input: &mut I,
) -> Result<Elements, TransactError>
    ensures elements { (octets : List ℕ) → I.left input.old ≡ Some octets → Answers (elements_meant words.now octets) result }
    ensures end { words.now.put ≡ true → OnOk result (IsAtEnd (I.left input.new)) }
    ensures unused { words.now.put ≡ false → I.left input.new ≡ I.left input.old }
    ensures within { are_words words.now ≡ true → IfOk result (λ elements. is_within_file elements ≡ true) }
    ensures failed { IsAmong of_input result }
    ensures cause { ReadsByCause (I.fault_count input.old) (I.fault_count input.new) result }
{
    if words.put {
        return read_elements(alloc, words.kind, input);
    }
    Ok(Sequence::new(alloc))
}

/// A task that wasn't kept.
fn begun_new<I: Source>(
    alloc: Global,
    words: &PlanWords,
    input: &mut I,
) -> Result<Begun, TransactError>
    ensures begun { (octets : List ℕ) → I.left input.old ≡ Some octets → BeginsNew words.now (elements_meant words.now octets) result }
    ensures planned { are_words words.now ≡ true → IfOk result (IsPlanned words.now) }
    ensures plan { IfOk result (λ begun. ((elements : List ElementMeant) × (begun.plan ≡ plan_meant words.now elements)) × (begun.is_kept ≡ false)) }
    ensures end { words.now.put ≡ true → OnOk result (IsAtEnd (I.left input.new)) }
    ensures unused { words.now.put ≡ false → I.left input.new ≡ I.left input.old }
    ensures failed { IsAmong of_input result }
    ensures cause { ReadsByCause (I.fault_count input.old) (I.fault_count input.new) result }
{
    let elements = elements_for(alloc, words, input)?;
    let octets = octets_of_all(elements.as_slice());
    let plan = plan_of(alloc, words, elements)?;
    Ok(Begun {
        plan,
        is_kept: false,
        octets,
    })
}

/// The row of a task of which nothing is done.
fn new_row(alloc: Global, words: &PlanWords, activity: u32) -> Result<KeptPlan, NoMemory>
    ensures { (elements : List ElementMeant) → IfOk result (λ row. row ≡ row_of (assignment_of (plan_meant words.now elements) None) activity new_progress) }
{
    let file = words.name.copy(alloc)?;
    let identity = words.identity.copy(alloc)?;
    Ok(KeptPlan {
        activity,
        way: words.way(),
        kind: words.kind,
        every: words.every,
        file,
        identity,
        number: 1,
        point: 0,
        phase: Phase::New,
        outcome: 0,
    })
}

/// The changes that keep a new task with an activity: its row, and what it sends.
fn keeping(
    alloc: Global,
    words: &PlanWords,
    plan: &Plan,
    activity: u32,
) -> Result<Changes, NoMemory>
    ensures { (elements : List ElementMeant) → plan.now ≡ plan_meant words.now elements → IfOk result (λ changes. changes ≡ keeping_under plan.now (Some activity)) }
{
    let mut changes = Sequence::new(alloc);
    let row = new_row(alloc, words, activity)?;
    changes.push(Change::PutTask { plan: row })?;
    if let Task::Put { elements, .. } = &plan.task {
        let elements = elements.copy(alloc)?;
        changes.push(Change::StageTask {
            activity,
            point: 0,
            elements,
        })?;
    }
    Ok(changes)
}

/// Keeps a new task, where it has an activity.
fn keep<D: Disk>(
    alloc: Global,
    words: &PlanWords,
    plan: &Plan,
    store: &mut Store<D>,
) -> Result<(), TransactError>
    // Of any tables to which the changes lead.
    ensures kept { (elements : List ElementMeant) (tables : TablesMeant) → plan.now ≡ plan_meant words.now elements → LeadTo store.old.tables (keeping_under plan.now words.now.activity) tables → IsRepresented D.shown D.may_leave store.old
        → KeepsStore D.shown D.may_leave D.moment D.left_since store.old store.new (tables ∷ []) (if is_ok result then tables else store.old.tables) (has_disk_fault result) }
    ensures full { (elements : List ElementMeant) → plan.now ≡ plan_meant words.now elements → FullAt (keeping_under plan.now words.now.activity) store.old store.new result }
    ensures failed { IsAmong of_store result }
    ensures none { words.now.activity ≡ None → (store.new ≡ store.old) × IsOk result }
    ensures limit { store.new.journal.limit ≡ store.old.journal.limit }
    ensures cause { StoreByCause store.old.journal.limit (D.fault_count store.old.disk) (D.fault_count store.new.disk) result }
{
    let Some(activity) = words.activity else {
        return Ok(());
    };
    let changes = keeping(alloc, words, plan, activity)?;
    commit(alloc, changes, store)
}

/// Takes a new task up: its input is read, and it is kept.
fn take_up_new<D: Disk, I: Source>(
    alloc: Global,
    words: &PlanWords,
    store: &mut Store<D>,
    input: &mut I,
) -> Result<Begun, TransactError>
    ensures begun { (octets : List ℕ) → I.left input.old ≡ Some octets → BeginsNew words.now (elements_meant words.now octets) result }
    // Of words in their ranges, and valid tables with room for the task, which the disk represents.
    ensures kept { are_words words.now ≡ true → is_valid store.old.tables ≡ true → taken_up words.now store.old.tables ≡ Ok None → IsRepresented D.shown D.may_leave store.old
        → IfOk result (λ begun. KeepsStore D.shown D.may_leave D.moment D.left_since store.old store.new (kept_new begun.plan store.old.tables ∷ []) (kept_new begun.plan store.old.tables) false) }
    ensures planned { are_words words.now ≡ true → IfOk result (IsPlanned words.now) }
    ensures plan { IfOk result (λ begun. ((elements : List ElementMeant) × (begun.plan ≡ plan_meant words.now elements)) × (begun.is_kept ≡ false)) }
    ensures lost { are_words words.now ≡ true → is_valid store.old.tables ≡ true → taken_up words.now store.old.tables ≡ Ok None → IsRepresented D.shown D.may_leave store.old
        → (octets : List ℕ) → I.left input.old ≡ Some octets
        → OnErr result (KeepsStore D.shown D.may_leave D.moment D.left_since store.old store.new (first_kept (taken_up_new words.now (elements_meant words.now octets)) store.old.tables) store.old.tables (has_disk_fault result)) }
    ensures full { (octets : List ℕ) → IsRepresented D.shown D.may_leave store.old → I.left input.old ≡ Some octets
        → IfErr result (λ error. AtFull error (FullFirst (EndsOn D.shown D.may_leave store.new.disk) (taken_up_new words.now (elements_meant words.now octets)) store.old.tables)) }
    ensures unused { words.now.put ≡ false → I.left input.new ≡ I.left input.old }
    ensures end { words.now.put ≡ true → OnOk result (IsAtEnd (I.left input.new)) }
    ensures failed { IsAmong before_connections result }
    ensures input_cause { ReadsByCause (I.fault_count input.old) (I.fault_count input.new) result }
    ensures store_cause { StoreByCause store.old.journal.limit (D.fault_count store.old.disk) (D.fault_count store.new.disk) result }
    ensures limit { store.new.journal.limit ≡ store.old.journal.limit }
{
    match begun_new(alloc, words, input) {
        Err(error) => Err(error),
        Ok(begun) => match keep(alloc, words, &begun.plan, store) {
            Ok(()) => Ok(begun),
            Err(error) => Err(error),
        },
    }
}

/// Takes a task up: one that is kept, or a new one, whose input is read and which is kept before anything is sent.
pub(crate) fn take_up<D: Disk, I: Source>(
    alloc: Global,
    words: &PlanWords,
    store: &mut Store<D>,
    input: &mut I,
) -> Result<Begun, TransactError>
    ensures begun { (octets : List ℕ) → I.left input.old ≡ Some octets → TakesUp (taken_up_of words.now store.old.tables octets) store.old.tables result }
    // What a crash leaves, of words in their ranges and tables that the disk represents.
    ensures kept { are_words words.now ≡ true → IsRepresented D.shown D.may_leave store.old
        → IfOk result (λ begun. let tables = tables_kept (taken_with begun.plan store.old.tables) store.old.tables in KeepsStore D.shown D.may_leave D.moment D.left_since store.old store.new (tables ∷ []) tables false) }
    ensures lost { are_words words.now ≡ true → IsRepresented D.shown D.may_leave store.old → (octets : List ℕ) → I.left input.old ≡ Some octets
        → OnErr result (KeepsStore D.shown D.may_leave D.moment D.left_since store.old store.new (first_kept (taken_up_of words.now store.old.tables octets) store.old.tables) store.old.tables (has_disk_fault result)) }
    // A connection may begin with the task as it is kept then; where it was kept already the store is as before.
    ensures begins { are_words words.now ≡ true → IsRepresented D.shown D.may_leave store.old
        → IfOk result (λ begun. let kept = kept_in begun.plan.activity store.old.tables in KeepsAs (given_of begun.plan kept) (talk_begun begun.plan kept) store.new.tables) }
    ensures unchanged { IfOk result (λ begun. begun.is_kept ≡ true → store.new ≡ store.old) }
    ensures planned { IfOk result (λ begun. (elements : List ElementMeant) × (begun.plan ≡ plan_meant words.now elements)) }
    ensures full { (octets : List ℕ) → IsRepresented D.shown D.may_leave store.old → I.left input.old ≡ Some octets
        → IfErr result (λ error. AtFull error (FullFirst (EndsOn D.shown D.may_leave store.new.disk) (taken_up_of words.now store.old.tables octets) store.old.tables)) }
    // Which task is taken up is told before all else.
    ensures exact { (error : TransactErrorMeant) → taken_up words.now store.old.tables ≡ Err error → result ≡ Err error }
    ensures unused { words.now.put ≡ false → I.left input.new ≡ I.left input.old }
    ensures left { IfOk result (λ begun. begun.is_kept ≡ true → I.left input.new ≡ I.left input.old) }
    ensures end { words.now.put ≡ true → IfOk result (λ begun. begun.is_kept ≡ false → IsAtEnd (I.left input.new)) }
    ensures failed { IsAmong before_connections result }
    ensures input_cause { ReadsByCause (I.fault_count input.old) (I.fault_count input.new) result }
    ensures store_cause { StoreByCause store.old.journal.limit (D.fault_count store.old.disk) (D.fault_count store.new.disk) result }
    ensures limit { store.new.journal.limit ≡ store.old.journal.limit }
{
    kept_stay();
    tasks_are_kept();
    match task_found(words, store.tables()) {
        Err(error) => Err(error),
        Ok(Some(task)) => match begun_kept(alloc, words, task) {
            Ok(begun) => Ok(begun),
            Err(NoMemory) => Err(TransactError::NoMemory),
        },
        Ok(None) => take_up_new(alloc, words, store, input),
    }
}
