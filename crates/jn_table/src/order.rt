ghost use Rattle.std.specs.Prelude.{◌≡◌, ℕ, Some, slice_get, Contains, IfOk, map};
ghost use Rattle.std.proofs.Common.{rules};
ghost use Rattle.std.specs.Cmp.{partial_equiv_from_equiv, eq_by_cmp_equiv, partial_order_from_total};
ghost use Rattle.std.specs.Cmp.Rules.{comparing};
ghost use Rattle.std.specs.Ordering.{as_partial_cmp, eq_by_cmp};
ghost use Rattle.jn_base.specs.NameTexts.{bytes_of};
ghost use Rattle.jn_reach.specs.Each.{Each};
ghost use Rattle.jn_table.specs.Order.{spelled_cmp, spelled_total, IsOrderOf, SpelledOf, spelled_name, entry_name};

use crate::entry::Entry;
use jn_base::tree::{Name, Text};
use sqlite_items::Items;
use std::alloc::{AllocError, Global};
use std::cmp::Ordering;

/// A name with its bytes, ordered by these; names of the same bytes are ordered by their numbers.
#[derive(Drop)]
pub struct Spelled {
    pub bytes: Items<u8>,
    pub number: u32,
}

impl Spelled {
    fn compare(&self, other: &Spelled) -> Ordering
        ensures { result ≡ spelled_cmp self.now other.now }
    {
        self.bytes
            .as_slice()
            .cmp(other.bytes.as_slice())
            .then(self.number.cmp(&other.number))
    }
}

impl PartialEq for Spelled {
    ghost eq = { eq_by_cmp spelled_cmp };

    ghost laws = { partial_equiv_from_equiv (eq_by_cmp_equiv spelled_total) };

    fn eq(&self, other: &Spelled) -> bool {
        self.cmp(other) == Ordering::Equal
    }
}

impl Eq for Spelled {
    ghost laws = { eq_by_cmp_equiv spelled_total };
}

impl PartialOrd for Spelled {
    ghost partial_cmp = { as_partial_cmp spelled_cmp };

    ghost laws = { partial_order_from_total spelled_total };

    fn partial_cmp(&self, other: &Spelled) -> Option<Ordering> {
        Some(self.cmp(other))
    }
}

impl Ord for Spelled {
    ghost cmp = { spelled_cmp };

    ghost total = { spelled_total };

    ghost matches_partial_cmp = { Prim.search (comparing, rules) };

    ghost matches_eq = { Prim.search (comparing, rules) };

    fn cmp(&self, other: &Spelled) -> Ordering {
        self.compare(other)
    }
}

/// A name with its bytes, none where there is no such name.
fn spell(alloc: Global, names: &[Text], name: Name) -> Result<Spelled, AllocError>
    ensures { IfOk result (λ spelled. SpelledOf names.now name spelled) }
{
    let bytes = match names.get(name.0 as usize) {
        Some(text) => Items::from_slice(alloc, text.bytes.as_slice())?,
        None => Items::new(alloc),
    };
    Ok(Spelled {
        bytes,
        number: name.0,
    })
}

/// The names with their bytes.
fn all_spelled(alloc: Global, texts: &[Text], names: &[Name]) -> Result<Vec<Spelled>, AllocError>
    ensures { IfOk result (λ all. Each (λ name s. SpelledOf texts.now name s) names.now all.items) }
{
    let mut all = Vec::new(alloc);
    for name in names {
        let one = spell(alloc, texts, *name)?;
        all.push(one)?;
    }
    Ok(all)
}

/// The names that were spelled.
fn names_of(alloc: Global, all: &[Spelled]) -> Result<Vec<Name>, AllocError>
    ensures { IfOk result (λ order. order.items ≡ map spelled_name all.now) }
{
    let mut order = Vec::new(alloc);
    for one in all {
        order.push(Name(one.number))?;
    }
    Ok(order)
}

/// The names in the order of their bytes, each once.
pub fn in_byte_order(alloc: Global, texts: &[Text], names: &[Name]) -> Result<Vec<Name>, AllocError>
    ensures { IfOk result (λ order. IsOrderOf texts.now names.now order.items) }
{
    let mut all = all_spelled(alloc, texts, names)?;
    all.sort()?;
    all.dedup();
    let order = names_of(alloc, &all)?;
    Ok(order)
}

/// The names of the entries.
fn entry_names(alloc: Global, entries: &[Entry]) -> Result<Vec<Name>, AllocError>
    ensures { IfOk result (λ all. all.items ≡ map entry_name entries.now) }
{
    let mut all = Vec::new(alloc);
    for entry in entries {
        all.push(entry.name)?;
    }
    Ok(all)
}

/// The declared names in the order of their bytes, each once.
pub fn name_order(alloc: Global, texts: &[Text], entries: &[Entry]) -> Result<Vec<Name>, AllocError>
    ensures { IfOk result (λ order. IsOrderOf texts.now (map entry_name entries.now) order.items) }
{
    let names = entry_names(alloc, entries)?;
    let order = in_byte_order(alloc, texts, &names)?;
    Ok(order)
}

/// The same texts.
pub fn copied(alloc: Global, texts: &[Text]) -> Result<Items<Text>, AllocError>
    ensures { IfOk result (λ all. all ≡ texts.now) }
{
    let mut all = Items::new(alloc);
    for text in texts {
        let bytes = Items::from_slice(alloc, text.bytes.as_slice())?;
        all.push(Text { bytes })?;
    }
    Ok(all)
}
