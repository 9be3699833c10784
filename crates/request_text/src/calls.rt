//! The calls and the objects of a request that asks for several.

ghost use Rattle.std.specs.Prelude.{◌≡◌, ◌++◌, drop, map, IfOk, OnOk};
ghost use Rattle.std.specs.List.{list_all};
ghost use Rattle.request_text.specs.Shapes.{object_word};
ghost use Rattle.request_text.specs.Calls.{are_named, calls_said, has_calls, has_objects, objects_said, say_objects, says_object, said_call};

use crate::fault::RequestFault;
use crate::request::{AskedCall, ObjectWord};
use crate::shapes::object_word;
use std::alloc::{AllocError, Global};
use type_table::Name;

/// The most calls or objects of one request.
const MOST_ASKED: usize = 64;

/// That the words behind the verb are one to 64 calls; else `BadWords`, or `BadNumber` where only an object is amiss.
#[tactic(auto, unfolding(crate::specs::Calls::has_calls))]
pub fn has_calls(words: &[&[u8]]) -> Result<(), RequestFault>
    ensures { result ≡ has_calls (map (λ w. w.now) words.now) }
{
    let words = behind_verb(words);
    if words.len() < 2 || words.len() > 2 * MOST_ASKED || !are_named(words) {
        return Err(RequestFault::BadWords);
    }
    if say_objects(words) {
        Ok(())
    } else {
        Err(RequestFault::BadNumber)
    }
}

/// That they are one to 64 objects; else `BadWords`, or `BadNumber` where only an object is amiss.
#[tactic(auto, unfolding(crate::specs::Calls::has_objects))]
pub fn has_objects(words: &[&[u8]]) -> Result<(), RequestFault>
    ensures { result ≡ has_objects (map (λ w. w.now) words.now) }
{
    if words.len() < 2 || words.len() > 1 + MOST_ASKED {
        return Err(RequestFault::BadWords);
    }
    if are_objects(behind_verb(words)) {
        Ok(())
    } else {
        Err(RequestFault::BadNumber)
    }
}

/// The calls that words say, two of them each.
///
/// # Errors
///
/// Memory was refused.
pub fn calls_said(alloc: Global, words: &[&[u8]]) -> Result<Vec<AskedCall>, AllocError>
    ensures { IfOk result (λ calls. calls.items ≡ calls_said (map (λ w. w.now) words.now)) }
{
    let mut calls = Vec::new(alloc);
    let mut rest = words;
    while let [x, name, further @ ..] = rest {
        push_call(&mut calls, x, name)?;
        rest = further;
    }
    Ok(calls)
}

/// Puts the call that two words say behind others, where they say one.
///
/// # Errors
///
/// Memory was refused.
fn push_call(calls: &mut Vec<AskedCall>, x: &[u8], name: &[u8]) -> Result<(), AllocError>
    ensures { OnOk result (calls.new.items ≡ calls.old.items ++ said_call (object_word x.now) name.now) }
{
    let (Ok(x), Some(call)) = (object_word(x), Name::from_bytes(name)) else {
        return Ok(());
    };
    calls.push(AskedCall { x, call })?;
    Ok(())
}

/// The objects that words say.
///
/// # Errors
///
/// Memory was refused.
pub fn objects_said(alloc: Global, words: &[&[u8]]) -> Result<Vec<ObjectWord>, AllocError>
    ensures { IfOk result (λ objects. objects.items ≡ objects_said (map (λ w. w.now) words.now)) }
{
    let mut objects = Vec::new(alloc);
    let mut rest = words;
    while let [w, further @ ..] = rest {
        if let Ok(x) = object_word(w) {
            objects.push(x)?;
        }
        rest = further;
    }
    Ok(objects)
}

/// What comes behind the first word.
pub fn behind_verb<'a, 'b>(words: &'a [&'b [u8]]) -> &'a [&'b [u8]]
    ensures { map (λ w. w.now) result.now ≡ drop 1 (map (λ w. w.now) words.now) }
{
    match words {
        [_verb, words @ ..] => words,
        [] => words,
    }
}

/// Whether a name stands behind each object.
fn are_named(words: &[&[u8]]) -> bool
    ensures { result ≡ are_named (map (λ w. w.now) words.now) }
{
    let mut rest = words;
    while let [_x, name, further @ ..] = rest {
        if Name::from_bytes(name).is_none() {
            return false;
        }
        rest = further;
    }
    rest.is_empty()
}

/// Whether an object stands before each name.
fn say_objects(words: &[&[u8]]) -> bool
    ensures { result ≡ say_objects (map (λ w. w.now) words.now) }
{
    let mut rest = words;
    while let [x, _name, further @ ..] = rest {
        if !says_object(x) {
            return false;
        }
        rest = further;
    }
    true
}

/// Whether each word says an object.
fn are_objects(words: &[&[u8]]) -> bool
    ensures { result ≡ list_all says_object (map (λ w. w.now) words.now) }
{
    let mut rest = words;
    while let [x, further @ ..] = rest {
        if !says_object(x) {
            return false;
        }
        rest = further;
    }
    true
}

/// Whether a word says an object.
fn says_object(word: &[u8]) -> bool
    ensures { result ≡ says_object word.now }
{
    object_word(word).is_ok()
}
