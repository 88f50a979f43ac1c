//! What the positional words and the values of options say.
ghost use Rattle.std.specs.Prelude.{◌≡◌, ◌≤◌, [], map, option_map, unwrap_or, IfSome};
ghost use Rattle.std.specs.List.{list_all};
ghost use Rattle.std.specs.Char.{is_ascii_digit};
ghost use Rattle.jn_jobs.specs.Jobs.{is_digits, number_in, bound_in, kind_of, target_on, build_target, target_in};
ghost use Rattle.jn_jobs.specs.Views.{target_seen};

use crate::JobKind;

/// The job, its words, and the number of `big`.
#[derive(Clone, Copy)]
pub(crate) struct Target<'a> {
    pub(crate) kind: JobKind,
    pub(crate) file: &'a str,
    pub(crate) out: Option<&'a str>,
    pub(crate) count: u8,
}

/// Whether each byte is a digit.
fn all_digits(text: &[u8]) -> bool
    ensures { result ≡ list_all is_ascii_digit text.now }
{
    text.iter().all(|b| b.is_ascii_digit())
}

/// Whether the text is one to `most` digits.
fn is_digits(most: usize, text: &str) -> bool
    ensures { result ≡ is_digits most text.now }
{
    1 <= text.len() && text.len() <= most && all_digits(text.as_bytes())
}

/// The number of a text of one to `most` digits, where it lies from `low` to `high`.
fn number(most: usize, low: u64, high: u64, text: &str) -> Option<u64>
    requires { most ≤ 13 }
    ensures is { result ≡ number_in most low high text.now }
    ensures within { IfSome result (λ n. n ≤ high) }
{
    if !is_digits(most, text) {
        return None;
    }
    match text.parse::<u64>() {
        Ok(n) if low <= n && n <= high => Some(n),
        _ => None,
    }
}

/// The bound that the values of an option give, where it came.
pub(crate) fn bound(values: Option<&[&str]>, default: u64, high: u64) -> Option<u64>
    requires { default ≤ high }
    ensures is { result ≡ bound_in default high (unwrap_or (option_map (λ s. map (λ v. v.now) s.now) values.entry) []) }
    ensures within { IfSome result (λ n. n ≤ high) }
{
    let Some(values) = values else {
        return Some(default);
    };
    match values {
        [] => Some(default),
        [value] => number(13, 1, high, value),
        _ => None,
    }
}

/// The job of its word.
fn kind_of(word: &str) -> Option<JobKind>
    ensures { result ≡ kind_of word.now }
{
    if word == "check" {
        Some(JobKind::Check)
    } else if word == "show" {
        Some(JobKind::Show)
    } else if word == "mean" {
        Some(JobKind::Mean)
    } else if word == "build" {
        Some(JobKind::Build)
    } else if word == "exec" {
        Some(JobKind::Exec)
    } else if word == "run" {
        Some(JobKind::Run)
    } else if word == "big" {
        Some(JobKind::Big)
    } else {
        None
    }
}

/// A job with two words.
fn target_on<'a>(kind: JobKind, file: &'a str) -> Option<Target<'a>>
    ensures { option_map target_seen result ≡ target_on file.entry.now kind }
{
    let count = match kind {
        JobKind::Build => return None,
        JobKind::Big => number(2, 1, 64, file)? as u8,
        _ => 0,
    };
    Some(Target {
        kind,
        file,
        out: None,
        count,
    })
}

/// A job with three words, which is `build`.
fn build_target<'a>(kind: JobKind, file: &'a str, out: &'a str) -> Option<Target<'a>>
    ensures { option_map target_seen result ≡ build_target file.entry.now out.entry.now kind }
{
    if kind != JobKind::Build {
        return None;
    }
    Some(Target {
        kind,
        file,
        out: Some(out),
        count: 0,
    })
}

/// The job that the positional words say.
pub(crate) fn target_in<'a>(words: Option<&[&'a str]>) -> Option<Target<'a>>
    ensures { option_map target_seen result
        ≡ target_in (unwrap_or (option_map (λ s. map (λ v. v.now) s.now) words.entry) []) }
{
    match words? {
        [word, file] => target_on(kind_of(word)?, file),
        [word, file, out] => build_target(kind_of(word)?, file, out),
        _ => None,
    }
}
