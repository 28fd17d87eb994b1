//! Whether changes fit tables: each field is in its range, and the entry that the change names stands.
ghost use Rattle.std.specs.Prelude.{◌≡◌, List, false};
ghost use Rattle.std.specs.List.{list_all};
ghost use Rattle.std.specs.Option.{option_map_or};
ghost use Rattle.vf_base.specs.declared.element.Element.{Element as ElementValue};
ghost use Rattle.vf_doctype.specs.DocumentTypes.{kind_of};
ghost use Rattle.vf_doctype.specs.declared.doc_type.Kind.TheVariants.{Ftam1, Ftam2, Ftam3};
ghost use Rattle.vf_tables.specs.Fitting.{are_short as are_short_meant, are_units_of, fits as fits_meant, has_kind as has_kind_meant, is_activity as activity_meant, is_in_range as in_range_meant, is_numbered as numbered_meant, is_plan as plan_meant, is_regime as regime_meant, is_sayable as sayable_meant, is_short as short_meant, is_string_of, is_within as within_meant, stands_in as stands_meant, takes_piece as takes_meant, takes_task_piece as takes_task_meant};

use crate::{
    Change, Docket, MOST_ACTIVITY, MOST_EVERY, MOST_PASSWORD_OCTETS, MOST_POINT, MOST_TRANSFERS,
    Plan, Regime, Tables, Task, Way,
};
use vf_attr::File;
use vf_base::{Constraint, Contents, DataUnit, Element, FaduId, Octets, Term};

fn is_within(least: u32, most: u32, number: u32) -> bool
    ensures { result ≡ within_meant least most number }
{
    least <= number && number <= most
}

fn is_activity(activity: u32) -> bool
    ensures { result ≡ activity_meant activity }
{
    is_within(1, MOST_ACTIVITY, activity)
}

/// Whether a password that is there has at most 255 octets.
fn is_short(password: &Option<Octets>) -> bool
    ensures { result ≡ short_meant password.now }
{
    match password {
        Some(password) => password.len() <= MOST_PASSWORD_OCTETS,
        None => true,
    }
}

fn are_short(terms: &[Term]) -> bool
    ensures { result ≡ are_short_meant terms.now }
{
    terms.iter().all(|term| is_short(&term.password))
}

/// Whether it is a text of one of the character string types, or no text.
fn is_sayable(element: &Element) -> bool
    ensures { result ≡ sayable_meant element.now }
{
    match element {
        Element::Text { class, .. } => {
            *class == 22 || *class == 25 || *class == 26 || *class == 27
        }
        _ => true,
    }
}

fn are_sayable(elements: &[Element]) -> bool
    ensures { result ≡ list_all sayable_meant elements.now }
{
    elements.iter().all(|element| is_sayable(element))
}

fn is_text(class: u8, element: &Element) -> bool
    ensures first { result ≡ is_string_of Ftam1 class element.now }
    ensures second { result ≡ is_string_of Ftam2 class element.now }
{
    match element {
        Element::Text { class: other, .. } => *other == class,
        _ => false,
    }
}

fn is_binary(class: u8, element: &Element) -> bool
    ensures { result ≡ is_string_of Ftam3 class element.now }
{
    let _ = class;
    matches!(element, Element::Binary { .. })
}

fn are_texts(class: u8, unit: &[Element]) -> bool
    ensures first { result ≡ list_all (is_string_of Ftam1 class) unit.now }
    ensures second { result ≡ list_all (is_string_of Ftam2 class) unit.now }
{
    unit.iter().all(|element| is_text(class, element))
}

fn are_binaries(class: u8, unit: &[Element]) -> bool
    ensures { result ≡ list_all (is_string_of Ftam3 class) unit.now }
{
    unit.iter().all(|element| is_binary(class, element))
}

fn are_text_units(class: u8, units: &[DataUnit]) -> bool
    ensures first { result ≡ list_all (λ (unit : List ElementValue). list_all (is_string_of Ftam1 class) unit) units.now }
    ensures second { result ≡ list_all (λ (unit : List ElementValue). list_all (is_string_of Ftam2 class) unit) units.now }
{
    units.iter().all(|unit| are_texts(class, unit.as_slice()))
}

fn are_binary_units(class: u8, units: &[DataUnit]) -> bool
    ensures { result ≡ list_all (λ (unit : List ElementValue). list_all (is_string_of Ftam3 class) unit) units.now }
{
    units
        .iter()
        .all(|unit| are_binaries(class, unit.as_slice()))
}

/// Whether the file is a tree of the constraint set of its document type, of strings such as it has.
fn has_units(file: &File) -> bool
    ensures { result ≡ option_map_or (λ kind. are_units_of kind file.now) (kind_of file.now.contents.kind) false }
{
    let arcs = file.contents.kind.arcs();
    let class = file.contents.class;
    let units = file.tree.units();
    let is_flat = file.tree.constraint() == Constraint::SequentialFlat;
    if arcs == [1, 0, 8571, 5, 1].as_slice() {
        !is_flat && are_text_units(class, units)
    } else if arcs == [1, 0, 8571, 5, 2].as_slice() {
        is_flat && are_text_units(class, units)
    } else if arcs == [1, 0, 8571, 5, 3].as_slice() {
        !is_flat && are_binary_units(class, units)
    } else {
        false
    }
}

fn has_kind(contents: &Contents) -> bool
    ensures { result ≡ has_kind_meant contents.now }
{
    let arcs = contents.kind.arcs();
    arcs == [1, 0, 8571, 5, 1].as_slice()
        || arcs == [1, 0, 8571, 5, 2].as_slice()
        || arcs == [1, 0, 8571, 5, 3].as_slice()
}

fn is_numbered(fadu: FaduId) -> bool
    ensures { result ≡ numbered_meant fadu }
{
    match fadu {
        FaduId::Number(number) => 1 <= number,
        _ => true,
    }
}

fn is_regime(regime: &Regime) -> bool
    ensures { result ≡ regime_meant regime.now }
{
    is_activity(regime.activity)
        && is_short(&regime.password)
        && is_within(1, MOST_TRANSFERS + 1, regime.number)
        && is_numbered(regime.fadu)
}

fn is_plan(plan: &Plan) -> bool
    ensures { result ≡ plan_meant plan.now }
{
    is_activity(plan.activity)
        && is_within(1, 3, plan.kind as u32)
        && is_within(1, MOST_EVERY, plan.every)
        && is_within(1, MOST_TRANSFERS, plan.number)
        && plan.point <= MOST_POINT
}

impl Change {
    /// Whether each field is in its range.
    pub fn is_in_range(&self) -> bool
        ensures { result ≡ in_range_meant self.now }
    {
        match self {
            Change::PutUser { user } => is_short(&user.password),
            Change::PutFile { file } => are_short(file.terms.as_slice()) && has_units(file),
            Change::PutAttributes { attributes, .. } => {
                are_short(attributes.terms.as_slice()) && has_kind(&attributes.contents)
            }
            Change::DropFile { .. } => true,
            Change::PutDocket { regime } => is_regime(regime),
            Change::Stage {
                activity,
                elements,
                ..
            } => is_activity(*activity) && are_sayable(elements.as_slice()),
            Change::CutStage { activity, .. } => is_activity(*activity),
            Change::DropDocket { activity, .. } => is_activity(*activity),
            Change::PutTask { plan } => is_plan(plan),
            Change::StageTask {
                activity,
                elements,
                ..
            } => is_activity(*activity) && are_sayable(elements.as_slice()),
            Change::CutTask { activity, .. } => is_activity(*activity),
            Change::DropTask { activity } => is_activity(*activity),
        }
    }
}

/// Whether a piece stands between the last checkpoint that is staged and the next one.
fn takes_piece(first: u32, last: u32, docket: &Docket) -> bool
    ensures { result ≡ takes_meant first last docket.now }
{
    first as usize == docket.staged.len() && last as u64 == first as u64 + 1
}

/// Whether a piece of a get ends at the next checkpoint, and that of a put has point 0.
fn takes_task_piece(point: u32, task: &Task) -> bool
    ensures { result ≡ takes_task_meant point task.now }
{
    match task.plan.way {
        Way::Get => point as usize > 0 && point as usize - 1 == task.staged.len(),
        Way::Put => point == 0,
    }
}

impl Tables {
    /// Whether the change fits: each of its fields is in its range, what it names stands, and a file's new name is no
    /// other file's.
    pub fn fits(&self, change: &Change) -> bool
        ensures { result ≡ fits_meant self.now change.now }
    {
        change.is_in_range() && self.has(change)
    }

    /// Whether what the change names stands.
    fn has(&self, change: &Change) -> bool
        ensures { result ≡ stands_meant self.now change.now }
    {
        match change {
            Change::PutUser { .. }
            | Change::PutFile { .. }
            | Change::PutDocket { .. }
            | Change::PutTask { .. } => true,
            Change::PutAttributes { old, name, .. } => {
                self.file(old).is_some() && (old == name || self.file(name).is_none())
            }
            Change::DropFile { name } => self.file(name).is_some(),
            Change::Stage {
                identity,
                activity,
                first,
                last,
                ..
            } => match self.docket(identity, *activity) {
                Some(docket) => takes_piece(*first, *last, docket),
                None => false,
            },
            Change::CutStage {
                identity,
                activity,
                ..
            } => self.docket(identity, *activity).is_some(),
            Change::DropDocket { identity, activity } => {
                self.docket(identity, *activity).is_some()
            }
            Change::StageTask {
                activity,
                point,
                ..
            } => match self.task(*activity) {
                Some(task) => takes_task_piece(*point, task),
                None => false,
            },
            Change::CutTask { activity, .. } => self.task(*activity).is_some(),
            Change::DropTask { activity } => self.task(*activity).is_some(),
        }
    }
}
