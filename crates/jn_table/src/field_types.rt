use crate::class::ClassId;
use jn_base::tree::Name;
use jn_base::types::Ty;

/// The types of a program's declared fields, in source order.
#[derive(Debug, Drop)]
pub struct FieldTypes {
    pub list: Vec<FieldTy>,
}

/// The type of a field: the number of the declaration's path, and the field's name.
#[derive(Debug, Drop)]
pub struct FieldTy {
    pub class: ClassId,
    pub field: Name,
    pub ty: Ty,
}
