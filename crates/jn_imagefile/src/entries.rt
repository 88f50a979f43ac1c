//! What the lists of a class and of the image hold.

ghost use Rattle.std.specs.Prelude.{◌<◌, length};
ghost use Rattle.jn_code.specs.Form.{ShapeInForm, GroupInForm, RowInForm, CodeInForm};
ghost use Rattle.jn_code.specs.Spells.{MemberFits, MethodFits, FieldFits, OtherFits, RowFits, CodeFits};
ghost use Rattle.jn_imagefile.specs.Gives.{Gives};
ghost use Rattle.jn_code.specs.SpellsFile.{text, shape, group, member, method, field, other, row, code};

use crate::bytes::{put_u8, put_u16, put_u32};
use crate::counted::{few_kinds_at, list_at, ordered_at, short_ordered_at, string_at};
use crate::fields::{count_at, kind_at, u8_at, u16_at, u16_from, u32_at, u32_from};
use crate::lists::{Entry, Item};
use crate::puts::{put_few_kinds, put_list, put_ordered, put_short_ordered, put_string};
use crate::stop::Stop;
use jn_code::{
    ClassRow, Code, FieldEntry, Group, MemberEntry, MethodEntry, OtherEntry, Shape, Text,
};
use sqlite_items::Items;
use std::alloc::{AllocError, Global};

impl Entry for MemberEntry {
    ghost key = { λ e. e.name };

    ghost field = { member };

    ghost fits = { MemberFits };

    fn key(&self) -> u32 {
        u32::from(self.name)
    }

    #[tactic(auto, unfolding(jn_code::specs::SpellsFile::member, jn_code::specs::SpellsFields::part, jn_code::specs::SpellsFields::last))]
    fn read(bytes: &[u8], least: u64) -> Result<(MemberEntry, &[u8]), Stop> {
        let (name, rest) = u16_from(bytes, least)?;
        let (class, rest) = u16_at(rest)?;
        Ok((MemberEntry { name, class }, rest))
    }

    #[tactic(auto, unfolding(jn_code::specs::SpellsFile::member, jn_code::specs::SpellsFields::part, jn_code::specs::SpellsFields::last))]
    fn write(&self, out: &mut Vec<u8>) -> Result<(), AllocError> {
        put_u16(out, self.name)?;
        put_u16(out, self.class)
    }
}

impl Entry for MethodEntry {
    ghost key = { λ e. e.selector };

    ghost field = { method };

    ghost fits = { MethodFits };

    fn key(&self) -> u32 {
        self.selector
    }

    #[tactic(auto, unfolding(jn_code::specs::SpellsFile::method, jn_code::specs::SpellsFields::part, jn_code::specs::SpellsFields::last))]
    fn read(bytes: &[u8], least: u64) -> Result<(MethodEntry, &[u8]), Stop> {
        let (selector, rest) = u32_from(bytes, least)?;
        let (code, rest) = u32_at(rest)?;
        Ok((MethodEntry { selector, code }, rest))
    }

    #[tactic(auto, unfolding(jn_code::specs::SpellsFile::method, jn_code::specs::SpellsFields::part, jn_code::specs::SpellsFields::last))]
    fn write(&self, out: &mut Vec<u8>) -> Result<(), AllocError> {
        put_u32(out, self.selector)?;
        put_u32(out, self.code)
    }
}

impl Entry for FieldEntry {
    ghost key = { λ e. e.selector };

    ghost field = { field };

    ghost fits = { FieldFits };

    fn key(&self) -> u32 {
        self.selector
    }

    #[tactic(auto, unfolding(jn_code::specs::SpellsFile::field, jn_code::specs::SpellsFields::part, jn_code::specs::SpellsFields::last))]
    fn read(bytes: &[u8], least: u64) -> Result<(FieldEntry, &[u8]), Stop> {
        let (selector, rest) = u32_from(bytes, least)?;
        let (slot, rest) = u8_at(rest)?;
        Ok((FieldEntry { selector, slot }, rest))
    }

    #[tactic(auto, unfolding(jn_code::specs::SpellsFile::field, jn_code::specs::SpellsFields::part, jn_code::specs::SpellsFields::last))]
    fn write(&self, out: &mut Vec<u8>) -> Result<(), AllocError> {
        put_u32(out, self.selector)?;
        put_u8(out, self.slot)
    }
}

impl Entry for OtherEntry {
    ghost key = { λ e. e.family };

    ghost field = { other };

    ghost fits = { OtherFits };

    fn key(&self) -> u32 {
        u32::from(self.family)
    }

    #[tactic(auto, unfolding(jn_code::specs::SpellsFile::other, jn_code::specs::SpellsFields::part, jn_code::specs::SpellsFields::last))]
    fn read(bytes: &[u8], least: u64) -> Result<(OtherEntry, &[u8]), Stop> {
        let (family, rest) = u16_from(bytes, least)?;
        let (class, rest) = u16_at(rest)?;
        Ok((OtherEntry { family, class }, rest))
    }

    #[tactic(auto, unfolding(jn_code::specs::SpellsFile::other, jn_code::specs::SpellsFields::part, jn_code::specs::SpellsFields::last))]
    fn write(&self, out: &mut Vec<u8>) -> Result<(), AllocError> {
        put_u16(out, self.family)?;
        put_u16(out, self.class)
    }
}

impl Item for Text {
    ghost field = { text };

    ghost form = { λ t. length t.bytes < 4294967296 };

    ghost fits = { λ _. Unit {0} };

    #[tactic(auto, unfolding(jn_code::specs::SpellsFile::text, jn_code::specs::SpellsFields::last))]
    fn read(alloc: Global, bytes: &[u8]) -> Result<(Text, &[u8]), Stop> {
        let (bytes, rest) = string_at(alloc, bytes)?;
        Ok((Text { bytes }, rest))
    }

    #[tactic(auto, unfolding(jn_code::specs::SpellsFile::text, jn_code::specs::SpellsFields::part, jn_code::specs::SpellsFields::last))]
    fn write(&self, out: &mut Vec<u8>) -> Result<(), AllocError> {
        put_string(out, &self.bytes)
    }
}

impl Item for Shape {
    ghost field = { shape };

    ghost form = { ShapeInForm };

    ghost fits = { λ _. Unit {0} };

    #[tactic(auto, unfolding(jn_code::specs::SpellsFile::shape, jn_code::specs::SpellsFields::part, jn_code::specs::SpellsFields::last))]
    fn read(alloc: Global, bytes: &[u8]) -> Result<(Shape, &[u8]), Stop> {
        let (params, rest) = few_kinds_at(alloc, bytes, 15)?;
        let (result, rest) = kind_at(rest, 0, 3)?;
        Ok((Shape { params, result }, rest))
    }

    #[tactic(auto, unfolding(jn_code::specs::SpellsFile::shape, jn_code::specs::SpellsFields::part, jn_code::specs::SpellsFields::last))]
    fn write(&self, out: &mut Vec<u8>) -> Result<(), AllocError> {
        put_few_kinds(out, &self.params)?;
        put_u8(out, self.result)
    }
}

impl Item for Group {
    ghost field = { group };

    ghost form = { GroupInForm };

    ghost fits = { λ _. Unit {0} };

    #[tactic(auto, unfolding(jn_code::specs::SpellsFile::group, jn_code::specs::SpellsFields::last))]
    fn read(alloc: Global, bytes: &[u8]) -> Result<(Group, &[u8]), Stop> {
        let (slots, rest) = few_kinds_at(alloc, bytes, 250)?;
        Ok((Group { slots }, rest))
    }

    #[tactic(auto, unfolding(jn_code::specs::SpellsFile::group, jn_code::specs::SpellsFields::part, jn_code::specs::SpellsFields::last))]
    fn write(&self, out: &mut Vec<u8>) -> Result<(), AllocError> {
        put_few_kinds(out, &self.slots)
    }
}

/// A row of nothing, into which one is read.
fn no_row(alloc: Global) -> ClassRow {
    ClassRow {
        up: 0,
        family: 0,
        group: 0,
        members: Items::new(alloc),
        methods: Items::new(alloc),
        fields: Items::new(alloc),
        others: Items::new(alloc),
    }
}

/// Reads a row, and gives the bytes behind it.
#[tactic(auto, unfolding(jn_code::specs::SpellsFile::row, jn_code::specs::SpellsFields::part, jn_code::specs::SpellsFields::last))]
fn row_into<'a>(alloc: Global, out: &mut ClassRow, bytes: &'a [u8]) -> Result<&'a [u8], Stop>
    ensures { Gives (λ rest. (out.new, rest.now)) result (row.read bytes.now) }
{
    let (up, rest) = u16_at(bytes)?;
    let (family, rest) = u16_at(rest)?;
    let (group, rest) = u16_at(rest)?;
    out.up = up;
    out.family = family;
    out.group = group;
    let (members, rest) = short_ordered_at(alloc, rest)?;
    out.members = members;
    let (methods, rest) = ordered_at(alloc, rest)?;
    out.methods = methods;
    let (fields, rest) = short_ordered_at(alloc, rest)?;
    out.fields = fields;
    let (others, rest) = short_ordered_at(alloc, rest)?;
    out.others = others;
    Ok(rest)
}

impl Item for ClassRow {
    ghost field = { row };

    ghost form = { RowInForm };

    ghost fits = { RowFits };

    fn read(alloc: Global, bytes: &[u8]) -> Result<(ClassRow, &[u8]), Stop> {
        let mut row = no_row(alloc);
        let rest = row_into(alloc, &mut row, bytes)?;
        Ok((row, rest))
    }

    #[tactic(auto, unfolding(jn_code::specs::SpellsFile::row, jn_code::specs::SpellsFields::part, jn_code::specs::SpellsFields::last))]
    fn write(&self, out: &mut Vec<u8>) -> Result<(), AllocError> {
        put_u16(out, self.up)?;
        put_u16(out, self.family)?;
        put_u16(out, self.group)?;
        put_short_ordered(out, &self.members)?;
        put_ordered(out, &self.methods)?;
        put_short_ordered(out, &self.fields)?;
        put_short_ordered(out, &self.others)
    }
}

/// A code of nothing, into which one is read.
fn no_code(alloc: Global) -> Code {
    Code {
        params: Items::new(alloc),
        result: 0,
        locals: Items::new(alloc),
        stack: 0,
        instrs: Items::new(alloc),
    }
}

/// Reads a code, and gives the bytes behind it.
#[tactic(auto, unfolding(jn_code::specs::SpellsFile::code, jn_code::specs::SpellsFields::part, jn_code::specs::SpellsFields::last))]
fn code_into<'a>(alloc: Global, out: &mut Code, bytes: &'a [u8]) -> Result<&'a [u8], Stop>
    ensures { Gives (λ rest. (out.new, rest.now)) result (code.read bytes.now) }
{
    let (params, rest) = few_kinds_at(alloc, bytes, 16)?;
    let further = 255 - params.len() as u8;
    out.params = params;
    let (result, rest) = kind_at(rest, 0, 3)?;
    out.result = result;
    let (locals, rest) = few_kinds_at(alloc, rest, further)?;
    out.locals = locals;
    let (stack, rest) = count_at(rest, 4096)?;
    out.stack = stack;
    let (instrs, rest) = list_at(alloc, rest)?;
    out.instrs = instrs;
    Ok(rest)
}

impl Item for Code {
    ghost field = { code };

    ghost form = { CodeInForm };

    ghost fits = { CodeFits };

    fn read(alloc: Global, bytes: &[u8]) -> Result<(Code, &[u8]), Stop> {
        let mut code = no_code(alloc);
        let rest = code_into(alloc, &mut code, bytes)?;
        Ok((code, rest))
    }

    #[tactic(auto, unfolding(jn_code::specs::SpellsFile::code, jn_code::specs::SpellsFields::part, jn_code::specs::SpellsFields::last))]
    fn write(&self, out: &mut Vec<u8>) -> Result<(), AllocError> {
        put_few_kinds(out, &self.params)?;
        put_u8(out, self.result)?;
        put_few_kinds(out, &self.locals)?;
        put_u16(out, self.stack)?;
        put_list(out, &self.instrs)
    }
}
