ghost use Rattle.std.specs.Prelude.{◌≡◌, ℕ, List, [], length, IfOk};
ghost use Rattle.jn_base.specs.Duplicates.{duplicates};
ghost use Rattle.jn_link.specs.Whole.{IsListed, IsLayout, AreCodes, IsMade, IsImageBy, ImageAsked};
ghost use Rattle.jn_link.specs.Joined.{IsImageOf};

use crate::codes::{Parts, codes_of};
use crate::groups::groups_of;
use crate::lists::{kinds_of, shapes_of, texts_of};
use crate::start::start_code;
use jn_agree::selectors::Selectors;
use jn_base::names::Resolved;
use jn_base::tree::Program;
use jn_code::image::{Group, Text};
use jn_code::{ClassRow, Code, Image, Shape};
use jn_layout::{class_rows, group_firsts, selectors};
use jn_names::Members;
use jn_share::{Groups, Slots};
use jn_table::Table;
use sqlite_items::Items;
use std::alloc::{AllocError, Global};

/// The lists of an image in which its codes and rows name things.
#[derive(Drop)]
pub struct Lists {
    pub texts: Items<Text>,
    pub methods: Items<Shape>,
    pub fields: Items<u8>,
}

/// The rows of an image, and its groups.
#[derive(Drop)]
pub struct Layout {
    pub classes: Items<ClassRow>,
    pub groups: Items<Group>,
}

/// The codes of an image, and the number of the one with which a run begins.
#[derive(Drop)]
pub struct Codes {
    pub codes: Items<Code>,
    pub start: u32,
}

/// The texts of the program, the shapes of its methods and the kinds of its fields, by their numbers.
fn lists_of(alloc: Global, p: &Program, names: &Selectors) -> Result<Lists, AllocError>
    ensures { IfOk result (IsListed p.now names.now) }
{
    let texts = texts_of(alloc, p.texts.as_slice())?;
    let methods = shapes_of(alloc, names.methods.as_slice())?;
    let fields = kinds_of(alloc, names.fields.as_slice())?;
    Ok(Lists {
        texts,
        methods,
        fields,
    })
}

/// The rows and the groups, by the selectors and the kinds of the fields.
fn layout_of(parts: &Parts, m: &Members, g: &Groups, kinds: &[u8]) -> Result<Layout, AllocError>
    ensures { IfOk result (IsLayout parts.now m.now g.now kinds.now) }
{
    let alloc = parts.alloc;
    let firsts = group_firsts(alloc, parts.t, g)?;
    let classes = class_rows(alloc, parts.p, parts.t, m, g, parts.slots, parts.names)?;
    let groups = groups_of(alloc, parts.slots, &firsts, kinds, classes.as_slice())?;
    Ok(Layout { classes, groups })
}

/// How many codes there are. A program of more than 4294967295 bodies, which none within the limits is, is refused for
/// want of memory.
fn number_of(codes: &Items<Code>) -> Result<u32, AllocError>
    ensures { IfOk result (λ n. n ≡ length codes.now) }
{
    u32::try_from(codes.len()).map_err(|_| AllocError)
}

/// The codes of the bodies in source order, and behind them the one with which a run begins.
fn all_codes(parts: &Parts) -> Result<Codes, AllocError>
    requires { duplicates parts.now.p.now ≡ [] }
    ensures { IfOk result (AreCodes parts.now) }
{
    let mut codes = codes_of(parts)?;
    let start = number_of(&codes)?;
    let names = parts.names.methods.as_slice();
    let last = start_code(parts.alloc, parts.p, parts.t, names)?;
    codes.push(last)?;
    Ok(Codes { codes, start })
}

/// The image, by its selectors.
fn image_by(parts: &Parts, m: &Members, g: &Groups) -> Result<Image, AllocError>
    requires { duplicates parts.now.p.now ≡ [] }
    ensures { IfOk result (IsMade parts.now m.now g.now) }
{
    let lists = lists_of(parts.alloc, parts.p, parts.names)?;
    let layout = layout_of(parts, m, g, lists.fields.as_slice())?;
    let all = all_codes(parts)?;
    Ok(Image {
        texts: lists.texts,
        methods: lists.methods,
        fields: lists.fields,
        groups: layout.groups,
        classes: layout.classes,
        codes: all.codes,
        start: all.start,
    })
}

/// The image, by selectors that are those of the program.
fn image_with(
    alloc: Global,
    p: &Program,
    t: &Table,
    m: &Members,
    g: &Groups,
    s: &Slots,
    names: &Selectors,
    bodies: &[Resolved],
) -> Result<Image, AllocError>
    requires { duplicates p.now ≡ [] }
    ensures { IfOk result (IsImageBy p.now t.now m.now g.now s.now names.now bodies.now) }
{
    let parts = Parts {
        alloc,
        p,
        t,
        slots: s,
        names,
        bodies,
    };
    image_by(&parts, m, g)
}

/// The image of a checked program: it is valid and in form, has the program's rows, agrees with its meaning for each
/// arena and depth, and its file is within the limit.
///
/// The parts are those of the program, in which nothing stands twice, and `bodies` has what is known of each of its
/// bodies, in source order.
pub fn image(
    alloc: Global,
    p: &Program,
    t: &Table,
    m: &Members,
    g: &Groups,
    s: &Slots,
    bodies: &[Resolved],
) -> Result<Image, AllocError>
    requires { duplicates p.now ≡ [] }
    ensures { IfOk result (λ i. (bytes : List ℕ) → ImageAsked p.now bytes t.now m.now g.now s.now bodies.now
        → IsImageOf p.now i) }
{
    let names = selectors(alloc, p, t, s)?;
    image_with(alloc, p, t, m, g, s, &names, bodies)
}
