//! The line that tells a refusal.
//!
//! What it is, the definition `line_of` in specs/Line.antt says: the place, the rule's number and
//! name, then the class and the member where the refusal has them, for E04 the limit's word in their
//! place, and a line feed.
#![tactic(auto)]

ghost use Rattle.std.specs.Prelude.{◌≡◌, ◌++◌, codes, decimal, false, option_copied, IfOk, OnOk};
ghost use Rattle.jn_base.specs.Limits.{limit_word};
ghost use Rattle.jn_base.specs.NameTexts.{name_text, text_if, dotted};
ghost use Rattle.jn_words.specs.Line.{rule_text, place_text, names_of, class_text, member_text, shown_text, line_of};

pub mod examples;

use itoa::Buffer;
use jn_base::path::Path;
use jn_base::refusal::{Limit, Refusal, Rule};
use jn_base::tree::{Name, Place, Program, Text};
use std::alloc::{AllocError, Global};

/// The line of a refusal, as bytes with the line feed at its end.
///
/// The class and the member are names of the program, so a refusal that has one of them wants `p`. A
/// name that isn't there prints nothing, so that the call needs no condition.
#[tactic(auto, unfolding(crate::specs::Line::line_of))]
pub fn refusal_line(alloc: Global, p: Option<&Program>, r: &Refusal) -> Result<Vec<u8>, AllocError>
    ensures { IfOk result (λ v. v.items ≡ line_of (option_copied p.entry) r.now) }
{
    let names = names_of(p);
    let mut out = Vec::new(alloc);
    print_place(&mut out, r.at)?;
    put(&mut out, b": ")?;
    put(&mut out, rule_text(r.rule))?;
    print_shown(&mut out, names, r)?;
    put(&mut out, b"\n")?;
    Ok(out)
}

fn put(out: &mut Vec<u8>, text: &[u8]) -> Result<(), AllocError>
    ensures { OnOk result (out.new.items ≡ out.old.items ++ text.now) }
{
    out.extend_from_slice(text)
}

fn print_number(out: &mut Vec<u8>, n: u32) -> Result<(), AllocError>
    ensures { OnOk result (out.new.items ≡ out.old.items ++ decimal n) }
{
    let mut buffer = Buffer::new();
    put(out, buffer.format(n).as_bytes())
}

fn print_place(out: &mut Vec<u8>, at: Place) -> Result<(), AllocError>
    ensures { OnOk result (out.new.items ≡ out.old.items ++ place_text at) }
{
    print_number(out, at.line)?;
    put(out, b":")?;
    print_number(out, at.column)
}

fn rule_text(rule: Rule) -> &'static [u8]
    ensures { result.now ≡ rule_text rule }
{
    match rule {
        Rule::E01 => b"E01 Syntax",
        Rule::E02 => b"E02 TooLong",
        Rule::E03 => b"E03 Utf8",
        Rule::E04 => b"E04 Limit",
        Rule::E05 => b"E05 Duplicate",
        Rule::E06 => b"E06 Unknown",
        Rule::E07 => b"E07 Kind",
        Rule::E08 => b"E08 Cycle",
        Rule::E09 => b"E09 Conflict",
        Rule::E10 => b"E10 FieldClash",
        Rule::E11 => b"E11 Override",
        Rule::E12 => b"E12 NotFamily",
        Rule::E13 => b"E13 TooManyClasses",
        Rule::E14 => b"E14 NotPath",
        Rule::E15 => b"E15 BadType",
        Rule::E16 => b"E16 NoMember",
        Rule::E17 => b"E17 Arity",
        Rule::E18 => b"E18 Mismatch",
        Rule::E19 => b"E19 Masked",
        Rule::E20 => b"E20 ViewNotShared",
        Rule::E21 => b"E21 SharingFails",
        Rule::E22 => b"E22 NotAClass",
        Rule::E23 => b"E23 NoReturn",
        Rule::E24 => b"E24 FinalAssigned",
        Rule::E25 => b"E25 SuperSharing",
        Rule::E26 => b"E26 NoMain",
        Rule::E27 => b"E27 MaskName",
    }
}

fn limit_word(limit: Limit) -> &'static [u8]
    ensures { result.now ≡ limit_word limit }
{
    match limit {
        Limit::Declarations => b"declarations",
        Limit::Nesting => b"nesting",
        Limit::Parameters => b"parameters",
        Limit::Locals => b"locals",
        Limit::Atoms => b"atoms",
        Limit::Masks => b"masks",
        Limit::Names => b"names",
        Limit::Entries => b"entries",
        Limit::Slots => b"slots",
    }
}

fn names_of(p: Option<&Program>) -> &[Text]
    ensures { result.now ≡ names_of (option_copied p.entry) }
{
    match p {
        None => &[],
        Some(p) => p.names.as_slice(),
    }
}

fn print_name(out: &mut Vec<u8>, names: &[Text], x: Name) -> Result<(), AllocError>
    ensures { OnOk result (out.new.items ≡ out.old.items ++ name_text names.now x) }
{
    match names.get(x.0 as usize) {
        None => Ok(()),
        Some(text) => put(out, text.bytes.as_slice()),
    }
}

fn dot_if(out: &mut Vec<u8>, later: bool) -> Result<(), AllocError>
    ensures { OnOk result (out.new.items ≡ out.old.items ++ text_if later (codes ".")) }
{
    if later {
        return put(out, b".");
    }
    Ok(())
}

// The names with dots between them, from the outermost.
fn print_dotted(out: &mut Vec<u8>, names: &[Text], path: &[Name]) -> Result<(), AllocError>
    ensures { OnOk result (out.new.items ≡ out.old.items ++ dotted names.now false path.now) }
{
    let mut later = false;
    for x in path {
        dot_if(out, later)?;
        print_name(out, names, *x)?;
        later = true;
    }
    Ok(())
}

fn print_class(out: &mut Vec<u8>, names: &[Text], class: &Option<Path>) -> Result<(), AllocError>
    ensures { OnOk result (out.new.items ≡ out.old.items ++ class_text names.now class.now) }
{
    match class {
        None => Ok(()),
        Some(path) => {
            put(out, b" ")?;
            print_dotted(out, names, path.names.as_slice())
        }
    }
}

fn print_member(out: &mut Vec<u8>, names: &[Text], member: Option<Name>) -> Result<(), AllocError>
    ensures { OnOk result (out.new.items ≡ out.old.items ++ member_text names.now member) }
{
    match member {
        None => Ok(()),
        Some(name) => {
            put(out, b" ")?;
            print_name(out, names, name)
        }
    }
}

fn print_shown(out: &mut Vec<u8>, names: &[Text], r: &Refusal) -> Result<(), AllocError>
    ensures { OnOk result (out.new.items ≡ out.old.items ++ shown_text names.now r.now.limit r.now.class r.now.member) }
{
    match r.limit {
        Some(limit) => {
            put(out, b" ")?;
            put(out, limit_word(limit))
        }
        None => {
            print_class(out, names, &r.class)?;
            print_member(out, names, r.member)
        }
    }
}
