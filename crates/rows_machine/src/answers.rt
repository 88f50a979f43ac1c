//! What is answered, in words.

use jn_cases::{CasesFault, Tally};
use jn_code::{FieldKind, ImageFault};
use jn_imagefile::{read_image, write_image};
use jn_verify::verify;
use std::alloc::{AllocError, Global};

fn kind_text(kind: FieldKind) -> &'static str {
    match kind {
        FieldKind::Kind => "kind",
        FieldKind::Count => "count",
        FieldKind::Order => "order",
        FieldKind::Opcode => "opcode",
        FieldKind::Bool => "bool",
    }
}

/// A fault with its numbers and its word.
pub fn fault_text(alloc: Global, fault: ImageFault) -> Result<String, AllocError> {
    match fault {
        ImageFault::BadMagic => String::from_str(alloc, "BadMagic"),
        ImageFault::Short(at) => format!(in alloc; "Short {at}"),
        ImageFault::BadField(at, kind) => format!(in alloc; "BadField {at} {}", kind_text(kind)),
        ImageFault::Trailing(at) => format!(in alloc; "Trailing {at}"),
        ImageFault::TooLong => String::from_str(alloc, "TooLong"),
        ImageFault::BadCode(code, at, why) => format!(in alloc; "BadCode {code} {at} {why:?}"),
        ImageFault::BadRow(row, why) => format!(in alloc; "BadRow {row} {why:?}"),
        ImageFault::Memory => String::from_str(alloc, "Memory"),
    }
}

/// What reading the bytes answers.
pub fn read_answer(alloc: Global, bytes: &[u8]) -> Result<String, AllocError> {
    match read_image(alloc, bytes) {
        Ok(_) => String::from_str(alloc, "none"),
        Err(fault) => fault_text(alloc, fault),
    }
}

/// What verifying the image of the bytes answers.
pub fn verify_answer(alloc: Global, bytes: &[u8]) -> Result<String, AllocError> {
    let image = match read_image(alloc, bytes) {
        Ok(image) => image,
        Err(fault) => return fault_text(alloc, fault),
    };
    match verify(alloc, image) {
        Ok(_) => String::from_str(alloc, "none"),
        Err(fault) => fault_text(alloc, fault),
    }
}

/// The image that is read has the same bytes again.
pub fn write(alloc: Global, bytes: &[u8], tally: &mut Tally) -> Result<(), CasesFault> {
    match read_image(alloc, bytes) {
        Err(fault) => Ok(tally.fault("read", fault_text(alloc, fault)?.as_str())?),
        Ok(image) => {
            let written = write_image(alloc, &image)?;
            Ok(tally.bytes("written", bytes, written.as_slice())?)
        }
    }
}
