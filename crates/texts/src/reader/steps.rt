ghost use Rattle.std.specs.Prelude.{◌≡◌, ◌==◌, ◌+◌, ◌-◌, ◌<◌, ◌≤◌, true, false, [], ◌∷◌, length, take, drop, Some, option_map, position, IfSome, IfOk, MatchOption, MatchResult};
ghost use Rattle.texts.specs.Cut.{rows, fields};
ghost use Rattle.faults.specs.declared.LineFault.TheVariants.{Field};
ghost use Rattle.faults.specs.declared.LineWrong.TheVariants.{FieldCount};
ghost use Rattle.faults.specs.Faults.{spot as spotAt, line_fault, field_fault};
ghost use Rattle.texts.specs.Numbers.{valued, letter_in, number_in, number_or_dash_in};
ghost use Rattle.texts.specs.Means.{rows_left, fields_left, spot_of, LineStep, FieldStep, Moved};
ghost use Rattle.texts.specs.Rules.{counted};
ghost use Rattle.texts.specs.Tokens.{part_of, start_of, Sorted};

use crate::number::{Unsigned, number};
use crate::reader::{Reader, Token};
use faults::{FieldWrong, LineFault, LineWrong, Spot, Text};

// How many bytes stand before the first `b`, if there is one.
fn before(part: &[u8], b: u8) -> Option<usize>
    ensures { result ≡ position (λ x. x == b) part.now }
{
    part.iter().position(|byte| *byte == b)
}

// Where the line that starts at `start` ends, or none where its end is missing.
#[tactic(auto, using(crate::proofs::Cuts::line_closed, crate::proofs::Cuts::line_open))]
fn line_end(text: &[u8], start: usize) -> Option<usize>
    requires { start ≤ length text.now }
    ensures { MatchOption result (start < length text.now → rows (drop start text.now) ≡ (fields (drop start text.now), false) ∷ []) (λ end. (start ≤ end) × (end < length text.now) × (rows (drop start text.now) ≡ (fields (drop start (take end text.now)), true) ∷ rows (drop (end + 1) text.now))) }
{
    let length = before(&text[start..], b'\n')?;
    Some(start + length)
}

// How many fields a line has: one more than the bytes between them. A loop: `split` and `filter`, each with `count`, were tried,
// and take up to three times as long over many short fields.
#[tactic(auto, using(crate::proofs::Cuts::count_tab, crate::proofs::Cuts::count_other))]
fn count_fields(line: &[u8]) -> usize
    ensures { result ≡ length (fields line.now) }
{
    let mut n = 1;
    for b in line {
        if *b == b'\t' {
            n += 1;
        }
    }
    n
}

// How many bytes the first field of a line has, if another follows it.
#[tactic(auto, using(crate::proofs::Cuts::first_part))]
fn first_field(line: &[u8]) -> Option<usize>
    ensures { MatchOption result (fields line.now ≡ line.now ∷ []) (λ n. (n < length line.now) × (fields line.now ≡ take n line.now ∷ fields (drop (n + 1) line.now))) }
{
    before(line, b'\t')
}

impl<'a> Token<'a> {
    // A field as a dash, a number or a word.
    fn new(part: &'a [u8], start: usize) -> Token<'a>
        ensures { (part_of result ≡ part.now) × (start_of result ≡ start) × Sorted result }
    {
        match part {
            [b'-'] => Token::Dash { part, start },
            [b'0'..=b'9', ..] => Token::Number { part, start },
            _ => Token::Word { part, start },
        }
    }

    // The bytes of the field.
    pub fn part(self) -> &'a [u8]
        ensures { result.now ≡ part_of self.entry }
    {
        match self {
            Self::Word { part, .. } | Self::Dash { part, .. } | Self::Number { part, .. } => part,
        }
    }

    // Where in the text the field starts.
    pub fn start(self) -> usize
        ensures { result ≡ start_of self.entry }
    {
        match self {
            Self::Word { start, .. } | Self::Dash { start, .. } | Self::Number { start, .. } =>
                start,
        }
    }
}

impl<'a> Reader<'a> {
    // A reader before the first line of a text.
    pub fn new(which: Text, text: &'a [u8]) -> Reader<'a>
        ensures { (rows_left result ≡ rows text.now) × (fields_left result ≡ []) × (spot_of result ≡ spotAt which 0 0) }
    {
        Reader {
            text,
            which,
            next: 0,
            pos: None,
            end: 0,
            line: 0,
            field: 0,
        }
    }

    // Where the reader stands.
    pub fn spot(&self) -> Spot
        ensures { result ≡ spot_of self.now }
    {
        Spot {
            text: self.which,
            line: self.line,
            field: self.field,
        }
    }

    // Goes to the next line, and answers whether there is one. A line without its end is refused. The answer is no `Option`,
    // since nothing is handed out: the fields are asked of the reader.
    pub fn next_line(&mut self) -> Result<bool, LineFault>
        ensures { LineStep self.old self.new result }
    {
        let start = self.next;
        if start >= self.text.len() {
            return Ok(false);
        }
        let line = self.line + 1;
        let Some(end) = line_end(self.text, start) else {
            return Err(Spot {
                line,
                ..self.spot()
            }
            .line_fault(LineWrong::Unended));
        };
        self.next = end + 1;
        self.pos = Some(start);
        self.end = end;
        self.line = line;
        self.field = 0;
        Ok(true)
    }

    // The next field of the line at hand, or none past the last.
    #[tactic(auto, using(crate::proofs::Cuts::line_fields, crate::proofs::Cuts::line_on))]
    pub fn next_field(&mut self) -> Option<Token<'a>>
        ensures left { MatchOption result ((fields_left self.old ≡ []) × (self.new ≡ self.old)) (λ t. FieldStep self.old self.new (part_of t)) }
        ensures part { IfSome result (λ t. (Some (start_of t) ≡ self.old.pos) × (part_of t ≡ take (length (part_of t)) (drop (start_of t) self.old.text.now)) × Sorted t) }
    {
        let start = self.pos?;
        let rest = &self.text[start..self.end];
        let (part, next) = match first_field(rest) {
            Some(length) => (&rest[..length], Some(start + length + 1)),
            None => (rest, None),
        };
        self.pos = next;
        self.field += 1;
        Some(Token::new(part, start))
    }

    // How many fields of the line at hand are left. By cases: `map_or` was tried, and was not proved.
    #[tactic(auto, using(crate::proofs::Cuts::line_fields))]
    pub fn fields(&self) -> usize
        ensures { result ≡ length (fields_left self.now) }
    {
        match self.pos {
            Some(start) => count_fields(&self.text[start..self.end]),
            None => 0,
        }
    }

    // Refuses the line at hand unless so many of its fields are left.
    pub fn expect_fields(&self, count: usize) -> Result<(), LineFault>
        ensures { result ≡ counted count (spot_of self.now) (fields_left self.now) }
    {
        if self.fields() != count {
            return Err(self.line_fault(LineWrong::FieldCount));
        }
        Ok(())
    }

    // What is wrong with the line at hand as a whole.
    pub fn line_fault(&self, wrong: LineWrong) -> LineFault
        ensures { result ≡ line_fault wrong self.now.which self.now.line }
    {
        self.spot().line_fault(wrong)
    }

    // What is wrong with one field of the line at hand.
    pub fn field_fault(&self, wrong: FieldWrong, field: usize) -> LineFault
        ensures { result ≡ Field (field_fault wrong (spotAt self.now.which self.now.line field)) }
    {
        self.spot().fault(wrong, field)
    }

    // The byte of the next field, if that field is one byte.
    pub fn letter(&mut self) -> Option<u8>
        ensures value { result ≡ letter_in (fields_left self.old) }
        ensures moved { Moved self.old self.new }
    {
        match self.next_field()?.part() {
            [b] => Some(*b),
            _ => None,
        }
    }

    // The next field, without which the line has too few.
    fn token(&mut self) -> Result<Token<'a>, LineFault>
        ensures { MatchResult result (λ t. FieldStep self.old self.new (part_of t) × Sorted t) (λ f. (fields_left self.old ≡ []) × (self.new ≡ self.old) × (f ≡ line_fault FieldCount self.old.which self.old.line)) }
    {
        // a fault is made only where there is one: `ok_or` would make one for every field
        match self.next_field() {
            Some(token) => Ok(token),
            None => Err(self.line_fault(LineWrong::FieldCount)),
        }
    }

    // The number in the next field, at most `bound`.
    pub fn number<N: Unsigned>(&mut self, bound: N) -> Result<N, LineFault>
        ensures value { valued N.value result ≡ number_in (N.value bound) (spot_of self.old) (fields_left self.old) }
        ensures high { IfOk result (λ v. N.value v ≤ N.value bound) }
        ensures moved { Moved self.old self.new }
    {
        let token = self.token()?;
        Ok(number(token.part(), bound, self.spot())?)
    }

    // The number in the next field, at most `bound`, or none where a lone `-` stands.
    pub fn number_or_dash<N: Unsigned>(&mut self, bound: N) -> Result<Option<N>, LineFault>
        ensures value { valued (option_map N.value) result ≡ number_or_dash_in (N.value bound) (spot_of self.old) (fields_left self.old) }
        ensures high { IfOk result (λ o. IfSome o (λ v. N.value v ≤ N.value bound)) }
        ensures moved { Moved self.old self.new }
    {
        let token = self.token()?;
        if let Token::Dash { .. } = token {
            return Ok(None);
        }
        let value = number(token.part(), bound, self.spot())?;
        Ok(Some(value))
    }
}
