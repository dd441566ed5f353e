// The request line of the program `root`.
ghost use Rattle.std.specs.Prelude.{◌≡◌, nat_eq};
ghost use Rattle.std.specs.List.{starts_with};
ghost use Rattle.text.specs.Request.{asked_of, request_of};

use crate::read::read_decimal;
use values::Kind;

// What is asked: the root of one kind of one value.
#[derive(Clone, Copy, PartialEq, Eq, Debug)]
pub struct Request {
    pub kind: Kind,
    pub value: u32,
}

// Whether the first bytes of `s` are those of `word`.
pub fn starts_with(s: &[u8], word: &[u8]) -> bool
    ensures { result ≡ starts_with nat_eq s.now word.now }
{
    s.starts_with(word)
}

// The request for one kind: its word, which ends in the space, then digits and a newline.
fn asked(s: &[u8], word: &[u8], kind: Kind) -> Option<Request>
    ensures { result ≡ asked_of word.now kind s.now }
{
    if !starts_with(s, word) {
        return None;
    }
    let digits = s[word.len()..].strip_suffix(b"\n")?;
    let value = read_decimal(digits, 10, u32::MAX as u64)?;
    Some(Request {
        kind,
        value: value as u32,
    })
}

// What the whole input asks for.
#[tactic(auto, unfolding(crate::specs::Request::request_of))]
pub fn request_of(s: &[u8]) -> Option<Request>
    ensures { result ≡ request_of s.now }
{
    asked(s, b"square ", Kind::Square).or_else(|| asked(s, b"cube ", Kind::Cube))
}
