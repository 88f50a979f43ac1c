//! Codes in words.

use jn_cases::CasesFault;
use std::alloc::{AllocError, Global};

/// The instructions in the order of their bytes, from 1 on, and how many bytes the operand of each has.
const INSTRUCTIONS: [(&str, usize); 40] = [
    ("INT", 8),
    ("BOOL", 1),
    ("NULL", 0),
    ("CLS", 2),
    ("LOAD", 1),
    ("STORE", 1),
    ("POP", 0),
    ("ADD", 0),
    ("SUB", 0),
    ("MUL", 0),
    ("DIV", 0),
    ("REM", 0),
    ("NEG", 0),
    ("LT", 0),
    ("LE", 0),
    ("GT", 0),
    ("GE", 0),
    ("EQI", 0),
    ("EQB", 0),
    ("EQR", 0),
    ("NOT", 0),
    ("JUMP", 4),
    ("JFALSE", 4),
    ("JTRUE", 4),
    ("VIEWOF", 0),
    ("UP", 1),
    ("DOWN", 2),
    ("NEW", 0),
    ("CTOR", 4),
    ("CALL", 4),
    ("CALLAT", 4),
    ("GET", 4),
    ("PUT", 4),
    ("CONV", 0),
    ("CHECK", 0),
    ("PRINTI", 0),
    ("PRINTB", 0),
    ("PRINTT", 4),
    ("RET", 0),
    ("RETV", 0),
];

/// The byte of an instruction, and how many bytes its operand has.
fn instruction(name: &str) -> Option<(u8, usize)> {
    let mut byte: u8 = 0;
    for (known, width) in INSTRUCTIONS {
        byte = byte.wrapping_add(1);
        if known == name {
            return Some((byte, width));
        }
    }
    None
}

/// A word is a name, or a name, a colon and an operand.
fn parts_of(word: &str) -> Option<(u8, usize, i64)> {
    let (name, operand) = word.split_once(':').unwrap_or((word, "0"));
    let (byte, width) = instruction(name)?;
    Some((byte, width, operand.parse().ok()?))
}

/// The count of the instructions, and their bytes.
pub fn instructions(alloc: Global, line: u32, words: &str) -> Result<Vec<u8>, CasesFault> {
    let mut instrs = Vec::new(alloc);
    let mut count: u32 = 0;
    for word in words.split_whitespace() {
        let Some((byte, width, operand)) = parts_of(word) else {
            return Err(CasesFault::NoBytes { line });
        };
        put_instruction(&mut instrs, byte, width, operand)?;
        count = count.wrapping_add(1);
    }
    let mut bytes = Vec::new(alloc);
    bytes.extend_from_slice(&count.to_le_bytes())?;
    bytes.extend_from_slice(&instrs)?;
    Ok(bytes)
}

fn put_instruction(
    bytes: &mut Vec<u8>,
    byte: u8,
    width: usize,
    operand: i64,
) -> Result<(), AllocError> {
    bytes.push(byte)?;
    for part in operand.to_le_bytes().iter().take(width) {
        bytes.push(*part)?;
    }
    Ok(())
}
