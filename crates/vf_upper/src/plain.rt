//! Data of one string (ISO 8823, 8.2), as nearly all are by number: the octets of the string stand behind others of which each
//! place is known, so that these are put or compared at once, and no value is made of the parts around it. Data of other values,
//! of other lengths or in other spellings are written and read part by part, as all user data are.
ghost use Rattle.std.specs.Prelude.{◌≡◌, ◌<◌, ◌≤◌, ◌∷◌, ◌++◌, [], IfOk, IfSome, IsTrue, OnErr, OnOk, length, map};
ghost use Rattle.vf_ber.specs.Contents.{integer_octets};
ghost use Rattle.vf_upper.specs.Carried.{carried_of};
ghost use Rattle.vf_upper.specs.PlainData.{IsAlone, Puts, PutsFront, front as front_meant};

use crate::CarriedValue;
use vf_base::{NoMemory, Octets};
use vf_ber::{Tag, Value};

/// So many octets stand before those of the string.
const FRONT: usize = 19;

/// From so many octets to so many of the string each length is spelled in three octets.
const FEWEST: usize = 256;

const MOST: usize = 65_520;

/// The octet that an integer is spelled in, where it is one.
#[tactic(auto, using(crate::proofs::PlainStrings::small_octets))]
fn one_octet(n: i64) -> Option<u8>
    ensures { IfSome result (λ octet. integer_octets n ≡ octet ∷ []) }
{
    let octets = n.cast_unsigned();
    if octets > 127 {
        return None;
    }
    Some(octets as u8)
}

/// What stands before the octets of a string of this class in the context with this identifier.
fn front(id: u8, class: u8, count: usize) -> [u8; FRONT]
    requires { count ≤ 65520 }
    ensures { result ≡ front_meant id class count }
{
    let data = count + 15;
    let list = count + 11;
    let value = count + 4;
    [
        0x61,
        130,
        (data / 256) as u8,
        (data % 256) as u8,
        0x30,
        130,
        (list / 256) as u8,
        (list % 256) as u8,
        2,
        1,
        id,
        0xA0,
        130,
        (value / 256) as u8,
        (value % 256) as u8,
        class,
        130,
        (count / 256) as u8,
        (count % 256) as u8,
    ]
}

/// Whether octets are those that stand before so many of a string of this class.
#[tactic(auto, using(crate::proofs::PlainStrings::octets_same))]
fn is_front(octets: &[u8], id: u8, class: u8, count: usize) -> bool
    requires { count ≤ 65520 }
    ensures { IsTrue result → octets.now ≡ front_meant id class count }
{
    octets == front(id, class, count).as_slice()
}

/// Appends data of a string of this class.
fn put_string(id: u8, class: u8, octets: &[u8], out: &mut Vec<u8>) -> Result<(), NoMemory>
    requires { length octets.now ≤ 65520 }
    ensures ok { OnOk result (out.new.items ≡ out.old.items ++ (front_meant id class (length octets.now) ++ octets.now)) }
    ensures err { OnErr result (out.new.items ≡ out.old.items) }
{
    let before = out.len();
    out.reserve(FRONT + octets.len())?;
    out.extend_from_slice(&front(id, class, octets.len()))?;
    match out.extend_from_slice(octets) {
        Ok(()) => Ok(()),
        Err(_) => {
            out.truncate(before);
            Err(NoMemory)
        }
    }
}

/// A string has a tag and a length that are spelled so.
fn is_plain(class: u8, count: usize) -> bool
    ensures some { IsTrue result → 0 < class }
    ensures low { IsTrue result → class < 31 }
    ensures many { IsTrue result → 256 ≤ count }
    ensures few { IsTrue result → count ≤ 65520 }
{
    class > 0 && class < 31 && count >= FEWEST && count <= MOST
}

/// The class of a string, where its tag is universal and one octet.
fn class_of(tag: Tag) -> Option<u8>
    ensures { IfSome result (λ class. (tag.class ≡ 0) × (tag.number ≡ class)) }
{
    if tag.class == 0 && tag.number < 31 {
        return Some(tag.number as u8);
    }
    None
}

/// Appends data with this value, where it is a string that is spelled so; says whether it is. Without memory nothing is appended.
#[tactic(auto, using(crate::proofs::PlainStrings::data_spelled))]
fn put_value(carried: &CarriedValue, out: &mut Vec<u8>) -> Result<bool, NoMemory>
    ensures done { IfOk result (λ done. Puts (carried_of carried.now ∷ []) done out.old.items out.new.items) }
    ensures err { OnErr result (out.new.items ≡ out.old.items) }
{
    let Value::Plain { tag, octets } = &carried.value else {
        return Ok(false);
    };
    let Some(id) = one_octet(carried.context) else {
        return Ok(false);
    };
    let Some(class) = class_of(*tag) else {
        return Ok(false);
    };
    if !is_plain(class, octets.len()) {
        return Ok(false);
    }
    put_string(id, class, octets.as_slice(), out)?;
    Ok(true)
}

/// Appends what stands before so many octets of a string, where data of it alone are spelled so: its tag is universal and of this
/// number, and it stands in the context with this identifier. Says whether they are. Without memory nothing is appended.
#[tactic(auto, using(crate::proofs::PlainStrings::data_spelled))]
pub fn put_front(context: i64, class: u8, count: usize, out: &mut Vec<u8>) -> Result<bool, NoMemory>
    ensures done { IfOk result (λ done. PutsFront context class count done out.old.items out.new.items) }
    ensures err { OnErr result (out.new.items ≡ out.old.items) }
{
    let Some(id) = one_octet(context) else {
        return Ok(false);
    };
    if !is_plain(class, count) {
        return Ok(false);
    }
    out.extend_from_slice(&front(id, class, count))?;
    Ok(true)
}

/// Appends data with these values, where they are one string that is spelled so; says whether they are. Without memory nothing
/// is appended.
pub(crate) fn put_plain(values: &[CarriedValue], out: &mut Vec<u8>) -> Result<bool, NoMemory>
    ensures done { IfOk result (λ done. Puts (map carried_of values.now) done out.old.items out.new.items) }
    ensures err { OnErr result (out.new.items ≡ out.old.items) }
{
    let Some((carried, others)) = values.split_first() else {
        return Ok(false);
    };
    if !others.is_empty() {
        return Ok(false);
    }
    put_value(carried, out)
}

/// The value in data of one string that are spelled so, in its context; its octets are shared.
#[tactic(auto, using(crate::proofs::PlainStrings::found_alone))]
pub(crate) fn plain_in(octets: &Octets) -> Result<Option<CarriedValue>, NoMemory>
    ensures { IfOk result (λ found. IfSome found (λ carried. IsAlone octets.now (carried_of carried))) }
{
    let all = octets.as_slice();
    if all.len() < FRONT {
        return Ok(None);
    }
    let (first, string) = all.split_at(FRONT);
    let (id, class) = (first[10], first[15]);
    let context = i64::from(id);
    let Some(one) = one_octet(context) else {
        return Ok(None);
    };
    if !is_plain(class, string.len()) || !is_front(first, one, class, string.len()) {
        return Ok(None);
    }
    let octets = octets.slice(FRONT, string.len())?;
    let tag = Tag {
        class: 0,
        number: u16::from(class),
    };
    Ok(Some(CarriedValue {
        context,
        value: Value::Plain { tag, octets },
    }))
}
