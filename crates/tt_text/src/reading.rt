//! Lines from text.

ghost use Rattle.std.specs.Prelude.{◌≡◌, ◌≢◌, ℕ, ◌<◌, ◌≤◌, List, [], ◌∷◌, ◌++◌, length, take, drop, slice_index, MatchOption};
ghost use Rattle.std.specs.Char.{digit_value};
ghost use Rattle.std.specs.Fmt.{decimal};
ghost use Rattle.std.specs.Str.Parse.{AllDigits};
ghost use Rattle.tt_span.specs.Interval.{Interval, IsInterval};
ghost use Rattle.tt_text.specs.Line.{space_and_number, numbers_text, line_of, ends_of};
ghost use Rattle.tt_text.specs.Reading.{ReadsNothing, Reads, ReadsUpTo, Anything, NoDigit, NoWord, IsNumber, AreNumbers, IsLineOf};

use arrayvec::ArrayVec;

/// The numbers of the line that stands at the place `at` of the text, and the place behind that line.
///
/// A line is the word, then 0 to 16 numbers, each behind one space, and one line feed at the end. A number is decimal,
/// without leading zeros, and at most 2^64 - 1. `at` counts bytes, and is at most the length of the text. `None` if no
/// such line stands there. The text behind the line is not read.
pub fn line_at(word: &[u8], text: &[u8], at: usize) -> Option<(ArrayVec<u64, 16>, usize)>
    requires { at ≤ length text.now }
    ensures read { MatchOption result (ReadsNothing (line_of word.now) AreNumbers Anything (drop at text.now))
        (λ read. ReadsUpTo (line_of word.now) AreNumbers Anything text.now at read.0.items read.1) }
{
    numbers_at(text, after(word, text, at)?)
}

/// The numbers of a line, which is given with its line feed, if the line is this word and numbers, as [`line_at`] reads
/// them. `None` for any other bytes, also if anything stands behind the line feed.
pub fn numbers_behind(word: &[u8], line: &[u8]) -> Option<ArrayVec<u64, 16>>
    ensures read { MatchOption result
        ((numbers : List ℕ) → AreNumbers numbers → line.now ≢ line_of word.now numbers)
        (λ numbers. IsLineOf word.now line.now numbers.items) }
{
    let Some((numbers, end)) = line_at(word, line, 0) else {
        return None;
    };
    if end < line.len() {
        return None;
    }
    Some(numbers)
}

/// Laws of lines that stand for one number, or for a span by its two ends.
///
/// If [`line_at`] reads no line, the line of a number or of a span does not stand there. If it reads one, the line
/// stands for the number or the span with its numbers, if there is one, and for no other. The place behind the line of
/// a span lies further on.
pub fn text_laws()
    ensures no_number { (word bytes : List ℕ) → ReadsNothing (line_of word) AreNumbers Anything bytes →
        ReadsNothing (λ n. line_of word (n ∷ [])) IsNumber Anything bytes }
    ensures other_numbers { (word bytes numbers rest : List ℕ) → Reads (line_of word) AreNumbers Anything bytes numbers rest →
        ((n : ℕ) → IsNumber n → n ∷ [] ≢ numbers) → ReadsNothing (λ n. line_of word (n ∷ [])) IsNumber Anything bytes }
    ensures number { (word bytes numbers rest : List ℕ) → Reads (line_of word) AreNumbers Anything bytes numbers rest →
        (n : ℕ) → IsNumber n → n ∷ [] ≡ numbers → Reads (λ n. line_of word (n ∷ [])) IsNumber Anything bytes n rest }
    ensures no_span { (word bytes : List ℕ) → ReadsNothing (line_of word) AreNumbers Anything bytes →
        ReadsNothing (λ span. line_of word (ends_of span)) IsInterval Anything bytes }
    ensures other_ends { (word bytes numbers rest : List ℕ) → Reads (line_of word) AreNumbers Anything bytes numbers rest →
        ((span : Interval) → IsInterval span → ends_of span ≢ numbers) →
        ReadsNothing (λ span. line_of word (ends_of span)) IsInterval Anything bytes }
    ensures span { (word bytes numbers rest : List ℕ) → Reads (line_of word) AreNumbers Anything bytes numbers rest →
        (span : Interval) → IsInterval span → ends_of span ≡ numbers →
        Reads (λ span. line_of word (ends_of span)) IsInterval Anything bytes span rest }
    ensures further { (word text : List ℕ) (at next : ℕ) (span : Interval) → at ≤ length text →
        ReadsUpTo (λ span. line_of word (ends_of span)) IsInterval Anything text at span next → at < next }
{}

/// The place behind the word, if it stands at the place `at` of the text, otherwise `None`. Places count bytes, and
/// `at` is at most the length of the text.
pub fn after(word: &[u8], text: &[u8], at: usize) -> Option<usize>
    requires { at ≤ length text.now }
    ensures found { MatchOption result (NoWord word.now (drop at text.now))
        (λ next. (next ≤ length text.now) × (drop at text.now ≡ word.now ++ drop next text.now)) }
{
    if text[at..].starts_with(word) {
        Some(at + word.len())
    } else {
        None
    }
}

/// The numbers at that place, each behind one space, up to a line feed, and what comes after it.
fn numbers_at(text: &[u8], at: usize) -> Option<(ArrayVec<u64, 16>, usize)>
    requires { at ≤ length text.now }
    ensures { MatchOption result (ReadsNothing numbers_text AreNumbers Anything (drop at text.now))
        (λ read. ReadsUpTo numbers_text AreNumbers Anything text.now at read.0.items read.1) }
{
    let mut numbers = ArrayVec::new();
    let mut place = at;
    while after(b" ", text, place).is_some() {
        let (number, next) = spaced_number_at(text, place)?;
        if numbers.is_full() {
            return None;
        }
        numbers.push(number);
        place = next;
    }
    let end = after(b"\n", text, place)?;
    Some((numbers, end))
}

/// The number at that place, behind a space, and what comes after it.
fn spaced_number_at(text: &[u8], at: usize) -> Option<(u64, usize)>
    requires { at ≤ length text.now }
    ensures { MatchOption result (ReadsNothing space_and_number IsNumber NoDigit (drop at text.now))
        (λ read. ReadsUpTo space_and_number IsNumber NoDigit text.now at read.0 read.1) }
{
    number_at(text, after(b" ", text, at)?)
}

/// The number that the digits at that place spell, and what comes after them.
fn number_at(text: &[u8], at: usize) -> Option<(u64, usize)>
    requires { at ≤ length text.now }
    ensures { MatchOption result (ReadsNothing decimal IsNumber NoDigit (drop at text.now))
        (λ read. ReadsUpTo decimal IsNumber NoDigit text.now at read.0 read.1) }
{
    let bytes = &text[at..];
    let len = digits_len(bytes);
    let number = number_of(&bytes[..len])?;
    Some((number, at + len))
}

/// How many digits stand at the beginning of the bytes.
fn digits_len(bytes: &[u8]) -> usize
    ensures within { result ≤ length bytes.now }
    ensures digits { AllDigits 10 (take result bytes.now) }
    ensures last { 10 ≤ digit_value (slice_index bytes.now result) }
{
    for (count, byte) in bytes.iter().enumerate() {
        if !byte.is_ascii_digit() {
            return count;
        }
    }
    bytes.len()
}

/// The number that these digits spell. None if they have a leading zero, or the number is above 2^64 - 1.
fn number_of(digits: &[u8]) -> Option<u64>
    requires { AllDigits 10 digits.now }
    ensures { MatchOption result ((n : ℕ) → IsNumber n → digits.now ≡ decimal n → ⊥) (λ n. IsNumber n × (digits.now ≡ decimal n)) }
{
    if digits.is_empty() || (digits[0] == b'0' && digits.len() > 1) {
        return None;
    }
    let mut number: u64 = 0;
    for digit in digits {
        number = number
            .checked_mul(10)?
            .checked_add(u64::from(*digit - b'0'))?;
    }
    Some(number)
}
