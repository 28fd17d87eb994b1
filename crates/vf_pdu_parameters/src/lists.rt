//! Lists of sequences, by their items.
ghost use Rattle.std.specs.Prelude.{◌≡◌, ◌≤◌, ◌<◌, ◌^◌, false, true, map, Some, IfOk, MatchOption, OnErr, OnOk, length};
ghost use Rattle.std.specs.Option.{option_and_then, option_map};
ghost use Rattle.vf_ber.specs.Views.{tree_of, trees_in};
ghost use Rattle.vf_pdu_fields.specs.Content.{Listed, Slots, items_of};
ghost use Rattle.vf_pdu_fields.specs.Meaning.{all_fit, each_within, fits};
ghost use Rattle.vf_pdu_fields.specs.Reading.{absence, each_shape, field_at, next_place, part_here, parts_after, rest, sequence_parts, shape, shapes};
ghost use Rattle.vf_pdu_fields.specs.Results.{Gives};
ghost use Rattle.vf_pdu_fields.specs.Rows.{Row, list, optional};
ghost use Rattle.vf_pdu_fields.specs.Writing.{◌▸◌, fields, part_of, spelled_items};
ghost use Rattle.vf_pdu_parameters.specs.ParameterSlots.{terms_content};
ghost use Rattle.vf_pdu_parameters.specs.Parameters.{no_terms, terms as terms_form};

use crate::inner::parts_of;
use crate::parameters::Parameter;
use crate::writing::put_sequence;
use std::alloc::Global;
use vf_base::{NoMemory, Sequence, Terms};
use vf_ber::{Tag, Value, Values};
use vf_pdu_fields::{MOST_ITEMS, PduError, take};

/// An item of a list, which is the fields of a row.
pub trait Item: Drop {
    /// What has the form of an item, whatever its ranges.
    type Form: Drop;

    ghost its_row: { Row };

    ghost its_slots: { Self → Slots };

    ghost its_view: { Self.Form → Slots };

    /// What this part has of the form.
    fn form_of(alloc: Global, part: &Value) -> Result<Option<Self::Form>, NoMemory>
        ensures { IfOk result (λ found. option_map its_view found ≡ option_and_then (shapes its_row) (sequence_parts (tree_of part.now))) };

    /// The item, where the form is in range.
    fn in_range(alloc: Global, form: &Self::Form) -> Result<Option<Self>, NoMemory>
        ensures { IfOk result (λ found. MatchOption found (all_fit its_row (its_view form.now) ≡ false) (λ made. (its_slots made ≡ its_view form.now) × (all_fit its_row (its_view form.now) ≡ true))) };

    /// Its fields.
    fn parts(&self, alloc: Global) -> Result<Values, NoMemory>
        ensures { IfOk result (λ made. made ≡ fields its_row (its_slots self.now)) };

    /// Whether they are in range.
    fn fits(&self) -> bool
        ensures { result ≡ all_fit its_row (its_slots self.now) };
}

fn item_forms<T: Item>(alloc: Global, parts: &[Value]) -> Result<Option<Vec<T::Form>>, NoMemory>
    ensures { IfOk result (λ found. option_map (λ v. items_of (map T.its_view v.items)) found ≡ each_shape (shapes T.its_row) (trees_in parts.now)) }
{
    let mut forms = Vec::new(alloc);
    for part in parts {
        let Some(form) = T::form_of(alloc, part)? else {
            return Ok(None);
        };
        forms.push(form)?;
    }
    Ok(Some(forms))
}

/// What has the form of a list.
fn list_form<T: Item>(alloc: Global, part: &Value) -> Result<Option<Vec<T::Form>>, NoMemory>
    ensures { IfOk result (λ found. option_map (λ v. Listed (items_of (map T.its_view v.items))) found ≡ shape (list T.its_row) (tree_of part.now)) }
{
    let Some(fields) = parts_of(part) else {
        return Ok(None);
    };
    item_forms::<T>(alloc, fields.as_slice())
}

fn all_in<T: Item>(alloc: Global, forms: &[T::Form]) -> Result<Option<Sequence<T>>, NoMemory>
    ensures { IfOk result (λ found. MatchOption found (each_within (all_fit T.its_row) (items_of (map T.its_view forms.now)) ≡ false) (λ made. (map T.its_slots made ≡ map T.its_view forms.now) × (each_within (all_fit T.its_row) (items_of (map T.its_view forms.now)) ≡ true))) }
{
    let mut made = Sequence::new(alloc);
    for form in forms {
        let Some(one) = T::in_range(alloc, form)? else {
            return Ok(None);
        };
        made.push(one)?;
    }
    Ok(Some(made))
}

/// The list, where it has at most so many items and each is in range.
fn list_in<T: Item>(alloc: Global, forms: &[T::Form]) -> Result<Option<Sequence<T>>, NoMemory>
    ensures { IfOk result (λ found. MatchOption found (fits (list T.its_row) (Listed (items_of (map T.its_view forms.now))) ≡ false) (λ made. (Listed (items_of (map T.its_slots made)) ≡ Listed (items_of (map T.its_view forms.now))) × (fits (list T.its_row) (Listed (items_of (map T.its_view forms.now))) ≡ true))) }
{
    if forms.len() > MOST_ITEMS {
        return Ok(None);
    }
    all_in::<T>(alloc, forms)
}

fn are_in_range<T: Item>(items: &[T]) -> bool
    ensures { result ≡ each_within (all_fit T.its_row) (items_of (map T.its_slots items.now)) }
{
    for item in items {
        if !item.fits() {
            return false;
        }
    }
    true
}

impl<T: Item> Parameter for Sequence<T> {
    ghost use Rattle.std.specs.Prelude.{map};
    ghost use Rattle.vf_pdu_fields.specs.Content.{Listed, items_of};
    ghost use Rattle.vf_pdu_fields.specs.Rows.{list};

    ghost form = { list T.its_row };

    ghost content = { λ items. Listed (items_of (map T.its_slots items)) };

    fn of_part(
        alloc: Global,
        part: &Value,
        place: u32,
        field: u16,
    ) -> Result<Sequence<T>, PduError> {
        let Ok(found) = list_form::<T>(alloc, part) else {
            return Err(PduError::NoMemory);
        };
        let Some(forms) = found else {
            return Err(PduError::Field { place });
        };
        match list_in::<T>(alloc, forms.as_slice()) {
            Ok(Some(made)) => Ok(made),
            Ok(None) => Err(PduError::Range { field }),
            Err(_) => Err(PduError::NoMemory),
        }
    }

    fn has_form(alloc: Global, part: &Value) -> Result<bool, NoMemory> {
        let found = list_form::<T>(alloc, part)?;
        Ok(found.is_some())
    }

    fn is_in_range(&self) -> bool {
        self.len() <= MOST_ITEMS && are_in_range(self.as_slice())
    }
}

/// An access control list, or the empty one.
#[tactic(auto, unfolding(vf_pdu_fields::specs::Reading::field_at))]
pub fn terms_or_none(
    alloc: Global,
    parts: &[Value],
    at: &mut u32,
    number: u16,
) -> Result<Terms, PduError>
    requires { length parts.now < 2 ^ 32 }
    ensures value { Gives (λ made. Some (terms_content made)) result (field_at at.old number terms_form (absence no_terms) (part_here number (rest parts.now at.old))) }
    ensures place { at.new ≡ next_place at.old (part_here number (rest parts.now at.old)) }
    ensures others { rest parts.now at.new ≡ parts_after number (rest parts.now at.old) }
{
    let place = *at;
    let Some(part) = take(parts, at, number) else {
        return Ok(Terms::new(alloc));
    };
    Terms::of_part(alloc, part, place, number)
}

/// A universal SEQUENCE for each item.
fn sequences<T: Item>(alloc: Global, items: &[T]) -> Result<Values, NoMemory>
    ensures { IfOk result (λ made. made ≡ spelled_items (fields T.its_row) (items_of (map T.its_slots items.now))) }
{
    let mut made = Values::new(alloc);
    for item in items {
        let parts = item.parts(alloc)?;
        made.push(Value::Built {
            tag: Tag {
                class: 0,
                number: 16,
            },
            parts,
        })?;
    }
    Ok(made)
}

/// An access control list, left out where it is empty.
pub fn put_terms_or_none(
    alloc: Global,
    parts: &mut Values,
    number: u16,
    terms: &Terms,
) -> Result<(), NoMemory>
    requires { number ≤ 16383 }
    ensures ok { OnOk result (parts.new ≡ parts.old ▸ part_of number terms_form no_terms (Some (terms_content terms.now))) }
    ensures err { OnErr result (parts.new ≡ parts.old) }
{
    if terms.len() == 0 {
        return Ok(());
    }
    let items = sequences(alloc, terms.as_slice())?;
    put_sequence(parts, number, items)?;
    Ok(())
}

/// A list, where there is one.
pub fn put_maybe_list<T: Item>(
    alloc: Global,
    parts: &mut Values,
    number: u16,
    items: &Option<Sequence<T>>,
) -> Result<(), NoMemory>
    requires { number ≤ 16383 }
    ensures ok { OnOk result (parts.new ≡ parts.old ▸ part_of number (list T.its_row) optional (option_map (λ given. Listed (items_of (map T.its_slots given))) items.now)) }
    ensures err { OnErr result (parts.new ≡ parts.old) }
{
    let Some(items) = items else {
        return Ok(());
    };
    let inside = sequences(alloc, items.as_slice())?;
    put_sequence(parts, number, inside)?;
    Ok(())
}
