//! The runs of characters that names, numbers and comments are made of, and what the words are.

ghost use Rattle.std.specs.Prelude.{◌≡◌, ◌≤◌, ◌<◌, ◌^◌, ◌==◌, ◌∷◌, [], length, take, not, IsTrue, ◌↔◌};
ghost use Rattle.std.specs.Char.{is_ascii_digit};
ghost use Rattle.std.specs.List.{prefix_len, AllPass, list_any};
ghost use Rattle.std.specs.Str.{bytes_eq};
ghost use Rattle.jn_base.specs.Tokens.{begins_name, continues_name, is_keyword, has_leading_zero, digits_value, greatest_number, is_good_number, is_mark, width, line_feed};

pub fn begins_name(c: char) -> bool
    ensures { result ≡ begins_name c }
{
    unicode_ident::is_xid_start(c) || c == '_'
}

/// How many characters at the front go on a name.
pub fn name_len(cs: &[char]) -> usize
    ensures value { result ≡ prefix_len continues_name cs.now }
    ensures within { result ≤ length cs.now }
{
    let mut len = 0;
    while len < cs.len() && unicode_ident::is_xid_continue(cs[len]) {
        len += 1;
    }
    len
}

/// How many characters at the front are digits.
pub fn digits_len(cs: &[char]) -> usize
    ensures value { result ≡ prefix_len is_ascii_digit cs.now }
    ensures within { result ≤ length cs.now }
{
    let mut len = 0;
    while len < cs.len() && cs[len].is_ascii_digit() {
        len += 1;
    }
    len
}

/// How many characters stand before the first line feed, or before the end.
pub fn line_len(cs: &[char]) -> usize
    ensures value { result ≡ prefix_len (λ d. not (d == line_feed)) cs.now }
    ensures within { result ≤ length cs.now }
{
    let mut len = 0;
    while len < cs.len() && cs[len] != '\n' {
        len += 1;
    }
    len
}

const KEYWORDS: [&str; 23] = [
    "adapts", "boolean", "class", "else", "extends", "false", "final", "if", "int", "is", "new",
    "null", "package", "print", "return", "shares", "sharing", "super", "this", "true", "view",
    "void", "while",
];

/// Whether the characters are these of ASCII.
fn is_spelled(word: &[char], text: &[u8]) -> bool
    ensures { result ≡ bytes_eq word.now text.now }
{
    if word.len() != text.len() {
        return false;
    }
    for (i, c) in word.iter().enumerate() {
        if *c != char::from(text[i]) {
            return false;
        }
    }
    true
}

#[tactic(auto, unfolding(jn_base::specs::Tokens::is_keyword))]
pub fn is_keyword(word: &[char]) -> bool
    ensures { result ≡ is_keyword word.now }
{
    is_among(word, &KEYWORDS)
}

fn is_among(word: &[char], texts: &[&str]) -> bool
    ensures { result ≡ list_any (λ text. bytes_eq word.now text.now) texts.now }
{
    for text in texts {
        if is_spelled(word, text.as_bytes()) {
            return true;
        }
    }
    false
}

/// Whether the digits are at most the greatest number.
#[tactic(auto, using(crate::proofs::Digits::value_grows))]
fn is_in_range(digits: &[char]) -> bool
    requires { AllPass is_ascii_digit digits.now }
    ensures { IsTrue result ↔ (digits_value digits.now ≤ greatest_number) }
{
    let greatest = i64::MAX as u64;
    let mut value: u64 = 0;
    for c in digits {
        if value > greatest / 10 {
            return false;
        }
        value = value * 10 + u64::from(*c as u32 - '0' as u32);
    }
    value <= greatest
}

pub fn is_good_number(digits: &[char]) -> bool
    requires { AllPass is_ascii_digit digits.now }
    ensures { result ≡ is_good_number digits.now }
{
    let leads_with_zero = matches!(digits, ['0', _, ..]);
    !leads_with_zero && is_in_range(digits)
}

/// Whether the character is a mark.
#[tactic(auto, unfolding(jn_base::specs::Tokens::is_mark))]
pub fn is_mark(c: char) -> bool
    ensures { result ≡ is_mark (c ∷ []) }
{
    matches!(
        c,
        '{' | '}'
            | '('
            | ')'
            | '['
            | ']'
            | '.'
            | ','
            | ';'
            | '='
            | '!'
            | '<'
            | '>'
            | '+'
            | '-'
            | '*'
            | '/'
            | '%'
            | '&'
            | '\\'
    )
}

/// Whether the two characters are one mark.
#[tactic(auto, unfolding(jn_base::specs::Tokens::is_mark))]
pub fn is_pair_mark(c: char, d: char) -> bool
    ensures { result ≡ is_mark (c ∷ d ∷ []) }
{
    matches!(
        (c, d),
        ('=' | '!' | '<' | '>', '=') | ('&', '&') | ('|', '|') | ('-', '>')
    )
}

/// How many bytes the characters take.
pub fn width(cs: &[char]) -> u32
    requires { width cs.now < 2 ^ 32 }
    ensures { result ≡ width cs.now }
{
    let mut bytes = 0;
    for c in cs {
        bytes += c.len_utf8() as u32;
    }
    bytes
}
