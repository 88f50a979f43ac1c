//! One case of a file.
ghost use Rattle.std.specs.Prelude.{◌≡◌, ◌≢◌, ◌↔◌, IsTrue, IfNone, All, false, pos, IfOk, IfSome, option_and_then, map, unwrap_or, string_bytes, option_copied, option_map};
ghost use Rattle.std.specs.BTreeMap.{keys};
ghost use Rattle.toml.specs.Data.{string, integer, array, as_bool, no_items};
ghost use Rattle.toml.specs.View.{view, items_view, table_view};
ghost use Rattle.jn_cases.specs.Cases.{under, text_of, number_of, list_of, text_items, number_items, IsUnknown, keys_in, keys_of};

use crate::CasesFault;
use std::alloc::Global;
use toml::{Table, Value};

/// A case: its name, the line of its head in the file, and all that stands under its keys.
#[derive(Debug, Drop)]
pub struct Case {
    pub name: String,
    pub line: u32,
    pub entries: Value,
}

impl Case {
    /// The text under a key, if one stands there.
    pub fn text(&self, key: &str) -> Option<&str>
        ensures { option_copied result ≡ text_of self.now key.now }
    {
        self.entries.get(key)?.as_str()
    }

    /// The whole number under a key, if one stands there.
    pub fn number(&self, key: &str) -> Option<i64>
        ensures { result ≡ number_of self.now key.now }
    {
        self.entries.get(key)?.as_integer()
    }

    /// The list under a key, if one stands there. `Value::as_str` and `Value::as_integer` read its items.
    pub fn list(&self, key: &str) -> Option<&[Value]>
        ensures { option_map (λ values. items_view values.now) result ≡ list_of self.now key.now }
    {
        Some(self.entries.get(key)?.as_array()?.as_slice())
    }

    /// The texts of the list under a key, none where the case has no such key.
    pub fn texts(&self, alloc: Global, key: &str) -> Result<Vec<String>, CasesFault>
        ensures { IfOk result (λ v. unwrap_or (under self.now key.now) (array no_items)
            ≡ array (text_items v.items)) }
    {
        match self.entries.get(key) {
            None => Ok(Vec::new(alloc)),
            Some(Value::Array(values)) => texts_in(alloc, self.line, values.as_slice()),
            Some(_) => Err(CasesFault::NoTexts { line: self.line }),
        }
    }

    /// The numbers of the list under a key, none where the case has no such key. None is negative.
    pub fn numbers(&self, alloc: Global, key: &str) -> Result<Vec<u64>, CasesFault>
        ensures { IfOk result (λ v. unwrap_or (under self.now key.now) (array no_items)
            ≡ array (number_items v.items)) }
    {
        match self.entries.get(key) {
            None => Ok(Vec::new(alloc)),
            Some(Value::Array(values)) => numbers_in(alloc, self.line, values.as_slice()),
            Some(_) => Err(CasesFault::NoNumbers { line: self.line }),
        }
    }

    /// Whether `true` stands under a key.
    pub fn is_set(&self, key: &str) -> bool
        ensures { result ≡ unwrap_or (option_and_then as_bool (under self.now key.now)) false }
    {
        match self.entries.get(key) {
            None => false,
            Some(value) => value.as_bool().unwrap_or(false),
        }
    }

    /// A key of the case that stands neither in `known` nor is `name`.
    pub fn unknown_key(&self, known: &[&str]) -> Option<&str>
        ensures none { IfNone result (All (λ key. ¬ IsUnknown known.now key) (keys_of self.now)) }
        ensures some { IfSome result (λ key. IsUnknown known.now key.now) }
    {
        match self.entries.as_table() {
            None => None,
            Some(table) => unknown_in(table, known),
        }
    }
}

fn unknown_in<'a>(table: &'a Table, known: &[&str]) -> Option<&'a str>
    ensures none { IfNone result (All (λ key. ¬ IsUnknown known.now key) (keys_in (table_view table.now))) }
    ensures some { IfSome result (λ key. IsUnknown known.now key.now) }
{
    first_unknown(table, known)
}

fn first_unknown<'a>(table: &'a Table, known: &[&str]) -> Option<&'a str>
    ensures none { IfNone result (All (λ key. ¬ IsUnknown known.now (string_bytes key)) (keys table.now)) }
    ensures some { IfSome result (λ key. IsUnknown known.now key.now) }
{
    match table.keys().find(|key| is_unknown(known, key.as_str())) {
        None => None,
        Some(key) => Some(key.as_str()),
    }
}

fn texts_in(alloc: Global, line: u32, values: &[Value]) -> Result<Vec<String>, CasesFault>
    ensures { IfOk result (λ v. map view values.now ≡ map (λ text. string (string_bytes text)) v.items) }
{
    let mut texts = Vec::new(alloc);
    for value in values {
        match value.as_str() {
            None => return Err(CasesFault::NoTexts { line }),
            Some(text) => texts.push(String::from_str(alloc, text)?)?,
        }
    }
    Ok(texts)
}

fn numbers_in(alloc: Global, line: u32, values: &[Value]) -> Result<Vec<u64>, CasesFault>
    ensures { IfOk result (λ v. map view values.now ≡ map (λ n. integer (pos n)) v.items) }
{
    let mut numbers = Vec::new(alloc);
    for value in values {
        match number_in(value) {
            None => return Err(CasesFault::NoNumbers { line }),
            Some(number) => numbers.push(number)?,
        }
    }
    Ok(numbers)
}

fn number_in(value: &Value) -> Option<u64>
    ensures { IfSome result (λ n. view value.now ≡ integer (pos n)) }
{
    u64::try_from(value.as_integer()?).ok()
}

fn is_unknown(known: &[&str], key: &str) -> bool
    ensures { IsTrue result ↔ IsUnknown known.now key.now }
{
    key != "name" && known.iter().all(|text| *text != key)
}
