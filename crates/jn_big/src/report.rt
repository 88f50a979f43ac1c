//! What is told of a run.
ghost use Rattle.std.specs.Prelude.{◌≡◌, ◌++◌, length, [], IfOk, OnOk};
ghost use Rattle.jn_big.specs.Summary.{lines_of, last_of, summary_line, summary};

use crate::put;
use itoa::Buffer;
use std::alloc::{AllocError, Global};

/// The four lines told of a run: how many families and classes its program has, how many lines it put out, and the last
/// of these.
#[tactic(auto, unfolding(crate::specs::Summary::summary))]
pub fn summary(
    alloc: Global,
    families: u32,
    classes: u32,
    output: &[u8],
) -> Result<Vec<u8>, AllocError>
    ensures { IfOk result (λ v. v.items ≡ summary families classes output.now) }
{
    let lines = count_lines(output);
    let mut buffer = Buffer::new();
    let mut out = Vec::new(alloc);
    put_line(&mut out, b"families ", buffer.format(families).as_bytes())?;
    put_line(&mut out, b"classes ", buffer.format(classes).as_bytes())?;
    put_line(&mut out, b"lines ", buffer.format(lines.count).as_bytes())?;
    put_line(&mut out, b"last ", lines.last)?;
    Ok(out)
}

fn put_line(out: &mut Vec<u8>, word: &[u8], text: &[u8]) -> Result<(), AllocError>
    ensures { OnOk result (out.new.items ≡ out.old.items ++ summary_line word.now text.now) }
{
    put(out, word)?;
    put(out, text)?;
    put(out, b"\n")
}

// The lines of an output: how many, and the last of them without its line feed.
#[derive(Clone, Copy)]
struct Lines<'a> {
    count: usize,
    last: &'a [u8],
}

fn count_lines(output: &[u8]) -> Lines<'_>
    ensures count { result.count ≡ length (lines_of output.now) }
    ensures last { result.last.now ≡ last_of [] (lines_of output.now) }
{
    let mut lines = Lines {
        count: 0,
        last: &[],
    };
    let mut start = 0;
    for (i, b) in output.iter().enumerate() {
        if *b == b'\n' {
            lines = Lines {
                count: lines.count + 1,
                last: &output[start..i],
            };
            start = i + 1;
        }
    }
    lines
}
