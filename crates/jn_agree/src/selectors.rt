use jn_base::tree::Name;
use jn_code::image::Shape;
use sqlite_items::Items;

/// By what the codes of an image name methods and fields: a selector's number is its place in the list.
#[derive(Debug, Drop)]
pub struct Selectors {
    pub methods: Items<MethodSel>,
    pub fields: Items<FieldSel>,
}

/// A name with a shape. Methods of one name and of two shapes have two selectors.
#[derive(Debug, Drop)]
pub struct MethodSel {
    pub name: Name,
    pub shape: Shape,
}

/// A name with a kind: 1 a number, 2 a truth value, 3 a reference, 4 a reference that is read in the family of its
/// object's view.
#[derive(Clone, Copy, PartialEq, Eq, Debug)]
pub struct FieldSel {
    pub name: Name,
    pub kind: u8,
}
