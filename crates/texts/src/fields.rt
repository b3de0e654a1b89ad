// Fields: the parts of a text between separators.

ghost use Rattle.std.specs.Prelude.{◌≡◌, ◌∷◌, ◌==◌, ◌↔◌, [], ◌++◌, IsTrue, MatchOption};
ghost use Rattle.std.specs.List.{slice_split, position};
ghost use Rattle.texts.specs.Fields.{TakesField, TakesWord, fields_in, parts_of};

use std::marker::Model;

/// The index of the first byte that is `mark`.
fn position_of(bytes: &[u8], mark: u8) -> Option<usize>
    ensures { result ≡ position (λ b. b == mark) bytes.now }
{
    bytes.iter().position(|b| *b == mark)
}

/// The bytes before the first `mark` and the bytes after it, or None without one.
pub fn split_once(bytes: &[u8], mark: u8) -> Option<(&[u8], &[u8])>
    ensures cut { MatchOption result (slice_split (λ b. b == mark) bytes.now
        ≡ bytes.now ∷ []) (λ x. bytes.now ≡ x.0.now ++ mark ∷ x.1.now) }
    ensures parts { MatchOption result (slice_split (λ b. b == mark) bytes.now
        ≡ bytes.now ∷ []) (λ x. slice_split (λ b. b == mark) bytes.now
        ≡ x.0.now ∷ slice_split (λ b. b == mark) x.1.now) }
{
    let at = position_of(bytes, mark)?;
    Some((&bytes[..at], &bytes[at + 1..]))
}

/// The parts of a text that are not read yet.
#[derive(Drop)]
pub struct Fields<'a> {
    rest: Option<&'a [u8]>,
    mark: u8,
}

impl<'a> Model for Fields<'a> {
    ghost use Rattle.std.specs.Prelude.{List, ℕ};
    ghost use Rattle.texts.specs.Fields.{fields_left};

    ghost Value = { List (List ℕ) };

    ghost view = { λ f. fields_left f.mark f.rest };
}

impl<'a> Fields<'a> {
    /// The fields of a line, separated by single spaces.
    pub fn of(line: &'a [u8]) -> Fields<'a>
        ensures { result ≡ fields_in line.now }
    {
        Fields::parted(line, b' ')
    }

    /// The parts of a text, separated by `mark`. A text without the mark is one part, even if it is empty.
    pub fn parted(text: &'a [u8], mark: u8) -> Fields<'a>
        ensures { result ≡ parts_of mark text.now }
    {
        Fields {
            rest: Some(text),
            mark,
        }
    }

    /// Takes the next field, or None if none is left.
    pub fn next(&mut self) -> Option<&'a [u8]>
        ensures { TakesField self.old result self.new }
    {
        let rest = self.rest?;
        match split_once(rest, self.mark) {
            Some((field, after)) => {
                self.rest = Some(after);
                Some(field)
            }
            None => {
                self.rest = None;
                Some(rest)
            }
        }
    }

    /// Takes the next field and answers whether it is `word`.
    pub fn skip(&mut self, word: &[u8]) -> bool
        ensures { TakesWord word.now self.old result self.new }
    {
        match self.next() {
            Some(field) => field == word,
            None => false,
        }
    }

    /// Whether no field is left.
    pub fn is_empty(&self) -> bool
        ensures { IsTrue result ↔ (self.now ≡ []) }
    {
        self.rest.is_none()
    }
}
