//! Values with their parts, from which user data are made.
ghost use Rattle.std.specs.Prelude.{◌≡◌, ◌<◌, ◌≤◌, [], ◌∷◌, IfOk};
ghost use Rattle.vf_ber.specs.Contents.{integer_octets, oid_octets};
ghost use Rattle.vf_ber.specs.Tree.{plain};
ghost use Rattle.vf_ber.specs.Views.{tag_of, tree_of};
ghost use Rattle.vf_upper.specs.Written.{application as application_tag, context as context_tag, holding as held, integer as integer_tree, object_identifier as oid_tree, universal as universal_tag};

use std::alloc::Global;
use vf_base::{NoMemory, Oid};
use vf_ber::{Tag, Value, Values};

pub(crate) fn universal(number: u16) -> Tag
    requires some { 0 < number }
    requires within { number ≤ 30 }
    ensures { tag_of result ≡ universal_tag number }
{
    Tag { class: 0, number }
}

pub(crate) fn application(number: u16) -> Tag
    requires { number ≤ 30 }
    ensures { tag_of result ≡ application_tag number }
{
    Tag { class: 1, number }
}

pub(crate) fn context(number: u16) -> Tag
    requires { number ≤ 30 }
    ensures { tag_of result ≡ context_tag number }
{
    Tag { class: 2, number }
}

pub(crate) fn integer(alloc: Global, n: i64) -> Result<Value, NoMemory>
    ensures { IfOk result (λ made. tree_of made ≡ integer_tree n) }
{
    let made = Value::of_integer(alloc, universal(2), n)?;
    Ok(made)
}

/// An integer of context class.
pub(crate) fn number(alloc: Global, tag: u16, n: i64) -> Result<Value, NoMemory>
    requires { tag ≤ 30 }
    ensures { IfOk result (λ made. tree_of made ≡ plain (context_tag tag) (integer_octets n)) }
{
    let made = Value::of_integer(alloc, context(tag), n)?;
    Ok(made)
}

pub(crate) fn object_identifier(alloc: Global, oid: &Oid) -> Result<Value, NoMemory>
    ensures { IfOk result (λ made. tree_of made ≡ oid_tree oid.now) }
{
    let made = Value::of_oid(alloc, universal(6), oid)?;
    Ok(made)
}

/// A value with one part.
pub(crate) fn holding(alloc: Global, tag: Tag, part: Value) -> Result<Value, NoMemory>
    ensures { IfOk result (λ made. tree_of made ≡ held (tag_of tag) (tree_of part ∷ [])) }
{
    let mut parts = Values::new(alloc);
    parts.push(part)?;
    Ok(Value::Built { tag, parts })
}

/// A value with two parts.
pub(crate) fn holding_two(
    alloc: Global,
    tag: Tag,
    first: Value,
    second: Value,
) -> Result<Value, NoMemory>
    ensures { IfOk result (λ made. tree_of made ≡ held (tag_of tag) (tree_of first ∷ tree_of second ∷ [])) }
{
    let mut parts = Values::new(alloc);
    parts.push(first)?;
    parts.push(second)?;
    Ok(Value::Built { tag, parts })
}

/// A value with three parts.
pub(crate) fn holding_three(
    alloc: Global,
    tag: Tag,
    first: Value,
    second: Value,
    third: Value,
) -> Result<Value, NoMemory>
    ensures { IfOk result (λ made. tree_of made ≡ held (tag_of tag) (tree_of first ∷ tree_of second ∷ tree_of third ∷ [])) }
{
    let mut parts = Values::new(alloc);
    parts.push(first)?;
    parts.push(second)?;
    parts.push(third)?;
    Ok(Value::Built { tag, parts })
}
