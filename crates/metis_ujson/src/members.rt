//! The members of an object, taken out of it one after another.
ghost use Rattle.std.specs.Prelude.{◌≡◌, IfOk, Some, option_map};
ghost use Rattle.std.specs.String.{string_bytes};
ghost use Rattle.metis_universe.specs.Terms.{texts};
ghost use Rattle.serde_json.specs.Find.{get, as_array};
ghost use Rattle.serde_json.specs.View.{view, items_view};
ghost use Rattle.metis_ujson.specs.Terms.{KeepsOthers, list_at, object_of, text_at, texts_in, texts_or_none};

use serde_json::{Map, Value};
use std::alloc::{AllocError, Global};

/// Takes the value at the key out of the object, which has null there then.
pub fn take(members: &mut Map<String, Value>, key: &str) -> Option<Value>
    ensures value { option_map view result ≡ get key.now (object_of members.old) }
    ensures others { KeepsOthers key.now (object_of members.old) (object_of members.new) }
{
    match members.get_mut(key) {
        Some(value) => Some(value.take()),
        None => None,
    }
}

/// Takes the text at the key out of the object.
pub fn take_text(members: &mut Map<String, Value>, key: &str) -> Option<String>
    ensures text { option_map (λ t. string_bytes t) result ≡ text_at key.now (object_of members.old) }
    ensures others { KeepsOthers key.now (object_of members.old) (object_of members.new) }
{
    match take(members, key) {
        Some(Value::String(text)) => Some(text),
        _ => None,
    }
}

/// Takes the list at the key out of the object.
pub fn take_items(members: &mut Map<String, Value>, key: &str) -> Option<Vec<Value>>
    ensures items { option_map (λ list. items_view list.items) result ≡ list_at key.now (object_of members.old) }
    ensures others { KeepsOthers key.now (object_of members.old) (object_of members.new) }
{
    match take(members, key) {
        Some(list) => array_in(list),
        None => None,
    }
}

/// Takes the texts of the list at the key out of the object, none where there is no such key.
pub fn take_texts(
    alloc: Global,
    members: &mut Map<String, Value>,
    key: &str,
) -> Result<Option<Vec<String>>, AllocError>
    ensures texts { IfOk result (λ list. option_map (λ v. texts v.items) list ≡ texts_or_none (get key.now (object_of members.old))) }
    ensures others { KeepsOthers key.now (object_of members.old) (object_of members.new) }
{
    match take(members, key) {
        Some(list) => texts_of(alloc, list),
        None => Ok(Some(Vec::new(alloc))),
    }
}

fn texts_of(alloc: Global, list: Value) -> Result<Option<Vec<String>>, AllocError>
    ensures { IfOk result (λ found. option_map (λ v. texts v.items) found ≡ texts_or_none (Some (view list))) }
{
    match array_in(list) {
        Some(items) => read_texts(alloc, items),
        None => Ok(None),
    }
}

fn read_texts(alloc: Global, items: Vec<Value>) -> Result<Option<Vec<String>>, AllocError>
    ensures { IfOk result (λ list. option_map (λ v. texts v.items) list ≡ texts_in (items_view items.items)) }
{
    let mut list = Vec::with_capacity(alloc, items.len())?;
    for item in items {
        match item {
            Value::String(text) => list.push(text)?,
            _ => return Ok(None),
        }
    }
    Ok(Some(list))
}

/// The items of the value, if it is a list.
pub fn array_in(value: Value) -> Option<Vec<Value>>
    ensures { option_map (λ list. items_view list.items) result ≡ as_array (view value) }
{
    match value {
        Value::Array(items) => Some(items),
        _ => None,
    }
}
