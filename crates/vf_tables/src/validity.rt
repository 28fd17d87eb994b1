//! Whether tables are valid, which a filestore may keep.
ghost use Rattle.std.specs.Prelude.{◌≡◌, ◌&&◌, ◌<◌, Bool, List, false, find, is_none, length, nat_le, not, true};
ghost use Rattle.std.specs.List.{list_all, zip};
ghost use Rattle.std.specs.Option.{option_map_or};
ghost use Rattle.vf_attr.specs.declared.file.File.{File as FileValue};
ghost use Rattle.vf_base.specs.declared.action.Control.{Control as ControlValue};
ghost use Rattle.vf_base.specs.declared.element.Element.{Element as ElementValue};
ghost use Rattle.vf_doctype.specs.Checks.{fault};
ghost use Rattle.vf_locks.specs.Clash.{clash, is_use as use_meant};
ghost use Rattle.vf_tables.specs.Entries.{is_file, is_user};
ghost use Rattle.vf_tables.specs.Staying.{puts_valid as puts_meant, stay_valid as stay_meant};
ghost use Rattle.vf_tables.specs.Validity.{action_of as action_meant, all_differ as differ_meant, are_controlled as controlled_meant, are_within as within_meant, came_from as came_meant, comes_to, exclude as exclude_meant, have_keys as keys_meant, includes as includes_meant, is_controlled as is_controlled_meant, is_file_of as file_of_meant, is_read as read_meant, is_regime_on as regime_on_meant, is_shown as shown_meant, is_transfer as transfer_meant, is_valid as valid_meant, is_valid_docket as valid_docket_meant, is_valid_file as valid_file_meant, is_valid_task as valid_task_meant, is_write as write_meant, is_written as written_meant, modes as modes_meant, pieces_for as pieces_for_meant, pieces_of as pieces_meant};
ghost use Rattle.vf_tables.specs.declared.user.User.{User as UserValue};
ghost use Rattle.vf_tree.specs.Contexts.{reading_flat};
ghost use Rattle.vf_tree.specs.FileTree.{octets_of as octets_meant};
ghost use Rattle.vf_tree.specs.Identities.{standing};

use crate::{
    Change, Direction, Docket, Files, MOST_DOCKETS, MOST_FILES, MOST_FILESTORE_OCTETS,
    MOST_SURVIVING_ELEMENTS, MOST_SURVIVING_OCTETS, MOST_TASKS, MOST_TERMS, MOST_USERS, Operation,
    Phase, Regime, Tables, Task, User, Users, Way,
};
use vf_attr::File;
use vf_base::{
    Constraint, Context, Control, Controls, DataUnit, Element, Elements, FaduId,
    MOST_STRING_OCTETS, Name,
};
use vf_doctype::DocType;
use vf_tree::{MOST_FILE_OCTETS, MOST_FILE_PARTS, Tree, octets_of};

/// What is found by a key.
trait Keyed {
    ghost use Rattle.std.specs.Prelude.{Bool};

    /// The two have one key.
    ghost same_key: { Self → Self → Bool };

    fn has_key_of(&self, other: &Self) -> bool
        ensures { result ≡ same_key self.now other.now };
}

impl Keyed for User {
    ghost use Rattle.vf_tables.specs.Entries.{is_user};

    ghost same_key = { λ user. is_user user.identity };

    fn has_key_of(&self, other: &User) -> bool {
        self.identity == other.identity
    }
}

impl Keyed for File {
    ghost use Rattle.vf_tables.specs.Entries.{is_file};

    ghost same_key = { λ file. is_file file.name };

    fn has_key_of(&self, other: &File) -> bool {
        self.name == other.name
    }
}

impl Keyed for Docket {
    ghost use Rattle.vf_tables.specs.Entries.{is_docket};

    ghost same_key = { λ docket. is_docket docket.regime.identity docket.regime.activity };

    fn has_key_of(&self, other: &Docket) -> bool {
        self.regime.identity == other.regime.identity
            && self.regime.activity == other.regime.activity
    }
}

impl Keyed for Task {
    ghost use Rattle.vf_tables.specs.Entries.{is_task};

    ghost same_key = { λ task. is_task task.plan.activity };

    fn has_key_of(&self, other: &Task) -> bool {
        self.plan.activity == other.plan.activity
    }
}

fn differs_from_all<T: Keyed>(entry: &T, others: &[T]) -> bool
    ensures { result ≡ list_all (λ other. not (T.same_key entry.now other)) others.now }
{
    for other in others {
        if entry.has_key_of(other) {
            return false;
        }
    }
    true
}

fn all_differ<T: Keyed>(entries: &[T]) -> bool
    ensures { result ≡ differ_meant T.same_key entries.now }
{
    let mut rest = entries;
    while let Some((entry, others)) = rest.split_first() {
        if !differs_from_all(entry, others) {
            return false;
        }
        rest = others;
    }
    true
}

/// Whether no two users have one identity.
fn users_differ(users: &Users) -> bool
    ensures { result ≡ differ_meant (λ (user : UserValue). is_user user.identity) users.now }
{
    if users.are_distinct() {
        return true;
    }
    all_differ(users.as_slice())
}

/// Whether no two files have one name.
fn files_differ(files: &Files) -> bool
    ensures { result ≡ differ_meant (λ (file : FileValue). is_file file.name) files.now }
{
    if files.are_distinct() {
        return true;
    }
    all_differ(files.as_slice())
}

fn is_string_of(doc: &DocType, element: &Element) -> bool
    ensures { result ≡ is_none (fault doc.now element.now) }
{
    doc.check(element).is_ok()
}

fn are_strings_of(doc: &DocType, unit: &[Element]) -> bool
    ensures { result ≡ list_all (λ element. is_none (fault doc.now element)) unit.now }
{
    unit.iter().all(|element| is_string_of(doc, element))
}

fn are_units_of(doc: &DocType, units: &[DataUnit]) -> bool
    ensures { result ≡ list_all (λ (unit : List ElementValue). list_all (λ element. is_none (fault doc.now element)) unit) units.now }
{
    units
        .iter()
        .all(|unit| are_strings_of(doc, unit.as_slice()))
}

fn is_file_of(file: &File, doc: &DocType) -> bool
    ensures { result ≡ file_of_meant file.now doc.now }
{
    doc.constraint() == file.tree.constraint() && are_units_of(doc, file.tree.units())
}

fn is_valid_file(file: &File) -> bool
    ensures { result ≡ valid_file_meant file.now }
{
    if file.terms.len() > MOST_TERMS {
        return false;
    }
    match DocType::of(&file.contents) {
        Some(doc) => is_file_of(file, &doc),
        None => false,
    }
}

fn modes(constraint: Constraint) -> u8
    ensures { result ≡ modes_meant constraint }
{
    match constraint {
        Constraint::Unstructured => 29,
        Constraint::SequentialFlat => 19,
    }
}

fn includes(set: u8, part: u8) -> bool
    ensures { result ≡ includes_meant set part }
{
    part & set == part
}

fn is_use(control: Control) -> bool
    ensures { result ≡ use_meant control }
{
    matches!(control, Control::Shared | Control::Exclusive)
}

fn is_controlled(set: u8, action: u8, control: Control) -> bool
    requires { action < 8 }
    ensures { result ≡ is_controlled_meant set (action, control) }
{
    (set >> action) & 1 == 0 || is_use(control)
}

fn are_controlled(opened: u8, requested: u8, controls: &Controls) -> bool
    ensures { result ≡ controlled_meant opened requested controls.now.each }
{
    let [
        read,
        insert,
        replace,
        extend,
        erase,
        read_attribute,
        change_attribute,
        delete,
    ] = controls.each;
    is_controlled(opened, 0, read)
        && is_controlled(opened, 1, insert)
        && is_controlled(opened, 2, replace)
        && is_controlled(opened, 3, extend)
        && is_controlled(opened, 4, erase)
        && is_controlled(requested, 5, read_attribute)
        && is_controlled(requested, 6, change_attribute)
        && is_controlled(requested, 7, delete)
}

fn action_of(operation: Operation) -> u8
    ensures { result ≡ action_meant operation }
{
    match operation {
        Operation::Insert => 2,
        Operation::Replace => 4,
        Operation::Extend => 8,
    }
}

fn is_written(operation: Operation, fadu: FaduId) -> bool
    ensures { result ≡ written_meant operation fadu }
{
    match operation {
        Operation::Insert => fadu == FaduId::End,
        Operation::Replace | Operation::Extend => { fadu == FaduId::Begin || fadu == FaduId::First }
    }
}

/// Whether so many units have one at this position.
fn has_unit(count: usize, position: u32) -> bool
    ensures { result ≡ (nat_le 1 position && nat_le position count) }
{
    1 <= position && position as usize <= count
}

/// Whether a read of a sequential flat file shows the whole of it or the unit at the position. From wherever it comes,
/// it does where that unit is there, and is the one that the identity means.
fn is_shown_flat(tree: &Tree, position: u32, fadu: FaduId) -> bool
    ensures { result ≡ comes_to position (reading_flat tree.now.units (standing (length tree.now.units) (came_meant fadu position)) fadu Context.FA) }
{
    let count = tree.units().len();
    match fadu {
        FaduId::Begin => position == 0,
        FaduId::End => false,
        FaduId::First => has_unit(count, position) && position == 1,
        FaduId::Last => has_unit(count, position) && position as usize == count,
        FaduId::Current => has_unit(count, position),
        FaduId::Next => has_unit(count, position),
        FaduId::Previous => has_unit(count, position),
        FaduId::Number(number) => has_unit(count, position) && position == number,
    }
}

fn is_shown(tree: &Tree, position: u32, fadu: FaduId, context: Context) -> bool
    ensures { result ≡ shown_meant tree.now position fadu context }
{
    match tree.constraint() {
        Constraint::Unstructured => {
            (context == Context::UA || context == Context::US)
                && (fadu == FaduId::Begin || fadu == FaduId::First)
                && position == 0
        }
        Constraint::SequentialFlat => {
            context != Context::US && is_shown_flat(tree, position, fadu)
        }
    }
}

fn is_read(file: &File, regime: &Regime, context: Context) -> bool
    ensures { result ≡ read_meant file.now regime.now context }
{
    includes(regime.mode.value, 1)
        && (regime.version < file.version
            || (regime.version == file.version
                && is_shown(&file.tree, regime.position, regime.fadu, context)))
}

fn is_write(regime: &Regime, operation: Operation) -> bool
    ensures { result ≡ write_meant regime.now operation }
{
    includes(regime.mode.value, action_of(operation)) && is_written(operation, regime.fadu)
}

fn is_transfer(file: &File, regime: &Regime) -> bool
    ensures { result ≡ transfer_meant file.now regime.now regime.now.direction }
{
    match regime.direction {
        Direction::Idle => true,
        Direction::Read { context } => is_read(file, regime, context),
        Direction::Write { operation } => is_write(regime, operation),
    }
}

fn is_regime_on(regime: &Regime, file: &File) -> bool
    ensures { result ≡ regime_on_meant regime.now file.now }
{
    includes(regime.requested.value, regime.mode.value)
        && includes(modes(file.tree.constraint()), regime.mode.value)
        && are_controlled(regime.mode.value, regime.requested.value, &regime.controls)
        && (regime.refused != 0 || is_transfer(file, regime))
}

fn pieces_of(regime: &Regime) -> u32
    ensures { result ≡ pieces_meant regime.now regime.now.direction }
{
    match regime.direction {
        Direction::Write { .. } => regime.point,
        _ => 0,
    }
}

fn is_regime_among(files: &Files, regime: &Regime) -> bool
    ensures { result ≡ option_map_or (regime_on_meant regime.now) (find (is_file regime.now.file) files.now) false }
{
    match files.with_name(&regime.file) {
        Some(file) => is_regime_on(regime, file),
        None => false,
    }
}

fn is_valid_docket(files: &Files, docket: &Docket) -> bool
    ensures { result ≡ valid_docket_meant files.now docket.now }
{
    is_regime_among(files, &docket.regime)
        && docket.staged.len() == pieces_of(&docket.regime) as usize
        && docket.staged.octets() <= MOST_SURVIVING_OCTETS as u64
        && docket.staged.elements() <= MOST_SURVIVING_ELEMENTS as u64
}

fn clashes(one: Control, other: Control) -> bool
    ensures { result ≡ clash one other }
{
    match one {
        Control::NotRequired => false,
        Control::Shared => matches!(other, Control::Exclusive | Control::NoAccess),
        Control::Exclusive => !matches!(other, Control::NotRequired),
        Control::NoAccess => matches!(other, Control::Shared | Control::Exclusive),
    }
}

fn agree(controls: &Controls, others: &Controls) -> bool
    ensures { result ≡ list_all (λ (pair : ControlValue × ControlValue). not (clash pair.0 pair.1)) (zip controls.now.each others.now.each) }
{
    let mut pairs = controls.each.iter().zip(others.each.iter());
    pairs.all(|(one, other)| !clashes(*one, *other))
}

fn exclude(docket: &Docket, other: &Docket) -> bool
    ensures { result ≡ exclude_meant docket.now other.now }
{
    docket.regime.file == other.regime.file
        && !agree(&docket.regime.controls, &other.regime.controls)
}

fn excludes_none(docket: &Docket, others: &[Docket]) -> bool
    ensures { result ≡ list_all (λ other. not (exclude_meant docket.now other)) others.now }
{
    others.iter().all(|other| !exclude(docket, other))
}

fn none_exclude(dockets: &[Docket]) -> bool
    ensures { result ≡ differ_meant exclude_meant dockets.now }
{
    let mut rest = dockets;
    while let Some((docket, others)) = rest.split_first() {
        if !excludes_none(docket, others) {
            return false;
        }
        rest = others;
    }
    true
}

fn pieces_for(way: Way, point: u32, phase: Phase) -> u64
    ensures { result ≡ pieces_for_meant way point phase }
{
    match way {
        Way::Get => match phase {
            Phase::New | Phase::Open => point as u64,
            Phase::Whole | Phase::Concluded => point as u64 + 1,
        },
        Way::Put => 1,
    }
}

fn has_short_strings(piece: &[Element]) -> bool
    ensures { result ≡ list_all (λ element. nat_le (octets_meant element) MOST_STRING_OCTETS) piece.now }
{
    piece
        .iter()
        .all(|element| octets_of(element) <= MOST_STRING_OCTETS as u64)
}

fn have_short_strings(pieces: &[Elements]) -> bool
    ensures { result ≡ list_all (λ (piece : List ElementValue). list_all (λ element. nat_le (octets_meant element) MOST_STRING_OCTETS) piece) pieces.now }
{
    pieces
        .iter()
        .all(|piece| has_short_strings(piece.as_slice()))
}

fn is_valid_task(task: &Task) -> bool
    ensures { result ≡ valid_task_meant task.now }
{
    task.staged.len() as u64 == pieces_for(task.plan.way, task.plan.point, task.plan.phase)
        && have_short_strings(task.staged.as_slice())
        && task.staged.octets() <= MOST_FILE_OCTETS
        && task.staged.elements() <= MOST_FILE_PARTS as u64
}

fn are_valid_files(files: &[File]) -> bool
    ensures { result ≡ list_all valid_file_meant files.now }
{
    files.iter().all(|file| is_valid_file(file))
}

/// Whether the file of this name is valid, where there is one.
fn is_valid_at(files: &Files, name: &Name) -> bool
    ensures { result ≡ option_map_or valid_file_meant (find (is_file name.now) files.now) true }
{
    match files.with_name(name) {
        Some(file) => is_valid_file(file),
        None => true,
    }
}

/// Whether the file that the change puts is valid, where it still stands among these.
fn puts_valid(files: &Files, change: &Change) -> bool
    ensures { result ≡ puts_meant files.now change.now }
{
    match change {
        Change::PutFile { file } => is_valid_at(files, &file.name),
        Change::PutAttributes { name, .. } => is_valid_at(files, name),
        _ => true,
    }
}

fn put_valid(files: &Files, changes: &[Change]) -> bool
    ensures { result ≡ list_all (puts_meant files.now) changes.now }
{
    changes.iter().all(|change| puts_valid(files, change))
}

fn are_valid_dockets(files: &Files, dockets: &[Docket]) -> bool
    ensures { result ≡ list_all (valid_docket_meant files.now) dockets.now }
{
    dockets.iter().all(|docket| is_valid_docket(files, docket))
}

fn are_valid_tasks(tasks: &[Task]) -> bool
    ensures { result ≡ list_all valid_task_meant tasks.now }
{
    tasks.iter().all(|task| is_valid_task(task))
}

impl Tables {
    /// Whether no two entries have one key.
    fn have_keys(&self) -> bool
        ensures { result ≡ keys_meant self.now }
    {
        users_differ(&self.users)
            && files_differ(&self.files)
            && all_differ(self.dockets.as_slice())
            && all_differ(self.tasks.as_slice())
    }

    /// Whether no list is longer than the profile has it, and all strings are within the filestore.
    fn are_within(&self) -> bool
        ensures { result ≡ within_meant self.now }
    {
        self.users.len() <= MOST_USERS
            && self.files.len() <= MOST_FILES
            && self.dockets.len() <= MOST_DOCKETS
            && self.tasks.len() <= MOST_TASKS
            && self.files.octets() <= MOST_FILESTORE_OCTETS
    }

    /// Whether a filestore may keep these tables, to which the changes led from valid ones: of the files only those are
    /// looked at that the changes put.
    pub(crate) fn stay_valid(&self, changes: &[Change]) -> bool
        ensures { result ≡ stay_meant self.now changes.now }
    {
        let dockets = self.dockets.as_slice();
        self.have_keys()
            && self.are_within()
            && put_valid(&self.files, changes)
            && are_valid_dockets(&self.files, dockets)
            && none_exclude(dockets)
            && are_valid_tasks(self.tasks.as_slice())
    }

    /// Whether a filestore may keep these tables: no two entries have one key, all limits hold, each file is of its
    /// document type, each docket agrees with its file and with the other dockets, and each task has its pieces.
    pub fn is_valid(&self) -> bool
        ensures { result ≡ valid_meant self.now }
    {
        let dockets = self.dockets.as_slice();
        self.have_keys()
            && self.are_within()
            && are_valid_files(self.files.as_slice())
            && are_valid_dockets(&self.files, dockets)
            && none_exclude(dockets)
            && are_valid_tasks(self.tasks.as_slice())
    }
}
