//! The command for the parser of command lines: the positional words and three options, each as often as it comes.
ghost use Rattle.std.specs.Prelude.{◌≡◌, ◌≢◌, None, Some, false, map, string_bytes, IfOk, IfErr};
ghost use Rattle.jn_jobs.specs.Parts.{parts};
ghost use Rattle.jn_jobs.specs.Command.{command, option_rule, parts_of};
ghost use Rattle.clap.specs.Words.{app_of, rule_of, found_of, rows_of};

use crate::WordsFault;
use clap::error::ErrorKind;
use clap::{Arg, ArgAction, ArgMatches, Command};
use std::alloc::{AllocError, Global};

/// An option with a value.
fn option<'a>(alloc: Global, name: &'a str) -> Arg<'a>
    ensures rule { rule_of result ≡ option_rule name.entry.now }
    ensures local { result.global ≡ false }
{
    Arg::new(alloc, name).long(name).action(ArgAction::Append)
}

/// The command.
fn command<'a>(alloc: Global) -> Result<Command<'a>, AllocError>
    ensures { IfOk result (λ c. app_of c ≡ command) }
{
    let words = Arg::new(alloc, "words").action(ArgAction::Append);
    let bare = Command::new(alloc, "jandc")
        .no_binary_name(true)
        .disable_help_flag(true);
    bare.arg(words)?
        .arg(option(alloc, "arena"))?
        .arg(option(alloc, "depth"))?
        .arg(option(alloc, "steps"))
}

/// What the parser finds in the words.
pub(crate) fn matches_of<'a>(
    alloc: Global,
    words: &'a [String],
) -> Result<ArgMatches<'a>, WordsFault>
    ensures ok { IfOk result (λ m. parts (map string_bytes words.entry.now) None
        ≡ Some (parts_of (rows_of (found_of m)))) }
    ensures usage { IfErr result (λ e. e ≡ WordsFault.Usage → parts (map string_bytes words.entry.now) None ≡ None) }
{
    match command(alloc)?.try_get_matches_from(words) {
        Ok(matches) => Ok(matches),
        Err(error) => Err(fault(error.kind())),
    }
}

/// Memory where the parser had none, and else Usage.
fn fault(kind: ErrorKind) -> WordsFault
    ensures memory { kind ≡ ErrorKind.OutOfMemory → result ≡ WordsFault.Memory }
    ensures usage { kind ≢ ErrorKind.OutOfMemory → result ≡ WordsFault.Usage }
{
    match kind {
        ErrorKind::OutOfMemory => WordsFault::Memory,
        _ => WordsFault::Usage,
    }
}
