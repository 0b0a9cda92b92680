//! Reads the words of a job, one after the other.
ghost use Rattle.std.specs.Prelude.{◌≡◌, ◌∷◌, ◌+◌, ◌<◌, ◌≤◌, ◌^◌, ◌↔◌, true, false, length, map};
ghost use Rattle.std.specs.Prelude.{find};
ghost use Rattle.std.specs.Prelude.{Some, Ok, IfOk, IfErr, IfSome, MatchOption, option_map, IsTrue};
ghost use Rattle.std.specs.Str.{bytes_eq, all_ascii_digits};
ghost use Rattle.std.specs.List.{list_any};
ghost use Rattle.glb_words.specs.Rules.{Text, Number};
ghost use Rattle.glb_words.specs.Words.{value_fault, is_number, number_of, is_given, is_flag};
ghost use Rattle.glb_words.specs.Words.{before_equals, option_shown, option_named};
ghost use Rattle.glb_words.specs.Words.{keep as kept, after_option, after_word, at_end, read_from};
ghost use Rattle.glb_words.specs.Words.{start_of, texts_of, rule_named, read_words};
ghost use Rattle.glb_words.specs.OrderFaults.{IsFaultOf};
ghost use Rattle.glb_words.specs.inner.Forms.{form_rule_of, field_rule_of, rule_of, given_of};
ghost use Rattle.glb_words.specs.inner.Forms.{next_rule_of, reading_state_of, StopsBy, IsJoined};

use super::fault::{OrderFault, WordFault, WordKind};
use super::forms::{Field, Form, JOBS, JobForm};
use std::alloc::Global;

/// What is read next: the numbers that are still to come and then options, or the value of an
/// option.
#[derive(Clone, Copy)]
pub(crate) enum Next {
    Words(&'static [Field]),
    Value(Field),
}

/// What was read so far.
#[derive(Drop)]
pub(crate) struct Reading<'a> {
    pub(crate) next: Next,
    pub(crate) given: Vec<(&'static str, &'a str)>,
}

/// Why a word was not read.
pub(crate) enum Stop {
    Bad(WordKind),
    NoMemory,
}

/// Every byte is a digit.
fn are_digits(bytes: &[u8]) -> bool
    ensures { result ≡ all_ascii_digits bytes.now }
{
    for b in bytes {
        if !b.is_ascii_digit() {
            return false;
        }
    }
    true
}

/// The text has the form of a number.
pub(crate) fn has_number_form(text: &str) -> bool
    ensures { result ≡ is_number text.now }
{
    if !are_digits(text.as_bytes()) {
        return false;
    }
    let count = text.len();
    1 <= count && count <= 20
}

/// The number, where it fits.
pub(crate) fn number_in(text: &str) -> Option<u64>
    requires { all_ascii_digits text.now ≡ true }
    ensures { MatchOption result (0 < length text.now
        → 2 ^ 64 ≤ number_of text.now) (λ n. n ≡ number_of text.now) }
{
    match text.parse::<u64>() {
        Ok(n) => Some(n),
        Err(_) => None,
    }
}

/// What is wrong with a number.
pub(crate) fn number_fault(least: u64, most: u64, text: &str) -> Option<WordKind>
    ensures { result ≡ value_fault false (Number least most 0) text.now }
{
    if !has_number_form(text) {
        return Some(WordKind::NotNumber);
    }
    match number_in(text) {
        Some(n) => {
            if least <= n && n <= most {
                None
            } else {
                Some(WordKind::OutOfRange)
            }
        }
        None => Some(WordKind::OutOfRange),
    }
}

/// The text is one of the names.
fn is_one_of(names: &[&str], text: &str) -> bool
    ensures { result ≡ list_any (λ name. bytes_eq name text.now) (map (λ n. n.now) names.now) }
{
    for name in names {
        if *name == text {
            return true;
        }
    }
    false
}

/// What is wrong with a value.
fn fault_in(form: Form, calm: bool, text: &str) -> Option<WordKind>
    ensures { result ≡ value_fault calm (form_rule_of form) text.now }
{
    match form {
        Form::Number(least, most, _) => number_fault(least, most, text),
        Form::Choice(names) => {
            if !is_one_of(names, text) {
                Some(WordKind::BadChoice)
            } else if calm && text == "threads" {
                Some(WordKind::Calm)
            } else {
                None
            }
        }
        Form::Flag => None,
    }
}

/// The name was given.
fn was_given(name: &str, given: &[(&'static str, &str)]) -> bool
    ensures { result ≡ is_given name.now (given_of given.now) }
{
    for pair in given {
        if pair.0 == name {
            return true;
        }
    }
    false
}

/// The name that a word shows, which stands before the first `=`, and the value behind it.
fn split_word(word: &str) -> (&str, Option<&str>)
    ensures name { result.0.now ≡ before_equals word.now }
    ensures value { IsJoined result.1 word.now }
{
    match word.split_once('=') {
        Some((name, value)) => (name, Some(value)),
        None => (word, None),
    }
}

/// The word is two dashes and the name.
fn is_dashed(name: &str, shown: &str) -> bool
    ensures { result ≡ bytes_eq (45 ∷ 45 ∷ name.now) shown.now }
{
    match shown.as_bytes() {
        [b'-', b'-', rest @ ..] => name.as_bytes() == rest,
        _ => false,
    }
}

/// The option whose name is shown.
fn option_for(options: &'static [Field], shown: &str) -> Option<Field>
    ensures { option_map field_rule_of result
        ≡ option_shown (map field_rule_of options.now) shown.now }
{
    for field in options {
        if is_dashed(field.name, shown) {
            return Some(*field);
        }
    }
    None
}

impl<'a> Reading<'a> {
    /// Keeps a value, unless something is wrong with it.
    fn keep(
        mut self,
        calm: bool,
        field: Field,
        text: &'a str,
        left: &'static [Field],
    ) -> Result<Reading<'a>, Stop>
        ensures ok { IfOk result (λ r.
            kept calm (field_rule_of field) text.entry.now (given_of self.entry.given.items)
            (map field_rule_of left.entry.now) ≡ Ok (reading_state_of r)) }
        ensures err { IfErr result (λ e.
            StopsBy (kept calm (field_rule_of field) text.entry.now
            (given_of self.entry.given.items) (map field_rule_of left.entry.now)) e) }
    {
        if let Some(kind) = fault_in(field.form, calm, text) {
            return Err(Stop::Bad(kind));
        }
        if self.given.push((field.name, text)).is_err() {
            return Err(Stop::NoMemory);
        }
        self.next = Next::Words(left);
        Ok(self)
    }
}

/// A word at the place of an option.
fn option_word<'a>(
    options: &'static [Field],
    calm: bool,
    reading: Reading<'a>,
    word: &'a str,
) -> Result<Reading<'a>, Stop>
    ensures ok { IfOk result (λ r.
        after_option calm word.entry.now (given_of reading.entry.given.items)
        (option_named (map field_rule_of options.entry.now) word.entry.now)
        ≡ Ok (reading_state_of r)) }
    ensures err { IfErr result (λ e.
        StopsBy (after_option calm word.entry.now (given_of reading.entry.given.items)
        (option_named (map field_rule_of options.entry.now) word.entry.now)) e) }
{
    let (shown, value) = split_word(word);
    match option_for(options, shown) {
        Some(field) => known_option(field, calm, reading, value),
        None => Err(Stop::Bad(WordKind::UnknownOption)),
    }
}

/// A word that names this option, and the value that is joined to it.
fn known_option<'a>(
    field: Field,
    calm: bool,
    reading: Reading<'a>,
    value: Option<&'a str>,
) -> Result<Reading<'a>, Stop>
    ensures ok { (word : Text) → IsJoined value.entry word → IfOk result (λ r.
        after_option calm word (given_of reading.entry.given.items) (Some (field_rule_of field))
        ≡ Ok (reading_state_of r)) }
    ensures err { (word : Text) → IsJoined value.entry word → IfErr result (λ e.
        StopsBy (after_option calm word (given_of reading.entry.given.items)
        (Some (field_rule_of field))) e) }
{
    let flag = is_flag_form(field.form);
    if flag && value.is_some() {
        return Err(Stop::Bad(WordKind::UnknownOption));
    }
    if was_given(field.name, reading.given.as_slice()) {
        return Err(Stop::Bad(WordKind::Repeated));
    }
    if flag {
        return reading.keep(calm, field, "true", &[]);
    }
    match value {
        Some(value) => reading.keep(calm, field, value, &[]),
        None => Ok(Reading {
            next: Next::Value(field),
            given: reading.given,
        }),
    }
}

/// The form is that of a flag.
fn is_flag_form(form: Form) -> bool
    ensures { result ≡ is_flag (form_rule_of form) }
{
    matches!(form, Form::Flag)
}

/// One more word.
fn read_word<'a>(
    form: JobForm,
    calm: bool,
    reading: Reading<'a>,
    word: &'a str,
) -> Result<Reading<'a>, Stop>
    ensures ok { IfOk result (λ r.
        after_word (rule_of form) calm (next_rule_of reading.entry.next)
        (given_of reading.entry.given.items) word.entry.now ≡ Ok (reading_state_of r)) }
    ensures err { IfErr result (λ e.
        StopsBy (after_word (rule_of form) calm (next_rule_of reading.entry.next)
        (given_of reading.entry.given.items) word.entry.now) e) }
{
    match reading.next {
        Next::Value(field) => reading.keep(calm, field, word, &[]),
        Next::Words(left) => match left {
            [] => option_word(form.options, calm, reading, word),
            [field, rest @ ..] => reading.keep(calm, *field, word, rest),
        },
    }
}

/// The words end.
fn at_last<'a>(reading: Reading<'a>, count: u32) -> Result<Vec<(&'static str, &'a str)>, OrderFault>
    ensures ok { IfOk result (λ v.
        at_end count (next_rule_of reading.entry.next) (given_of reading.entry.given.items)
        ≡ Ok (given_of v.items)) }
    ensures err { IfErr result (λ e.
        IsFaultOf (at_end count (next_rule_of reading.entry.next)
        (given_of reading.entry.given.items)) e) }
{
    let missing = WordFault {
        kind: WordKind::Missing,
        word: count,
    };
    match reading.next {
        Next::Value(_) => Err(OrderFault::Bad(missing)),
        Next::Words(left) => match left {
            [] => Ok(reading.given),
            _ => Err(OrderFault::Bad(missing)),
        },
    }
}

/// Reads the words behind the job's.
#[tactic(auto, unfolding(crate::specs::Words::read_from))]
fn read_rest<'a>(
    alloc: Global,
    form: JobForm,
    calm: bool,
    rest: &'a [String],
) -> Result<Vec<(&'static str, &'a str)>, OrderFault>
    requires { length rest.now + 1 < 2 ^ 32 }
    ensures ok { IfOk result (λ v.
        read_from (rule_of form) calm 1 (start_of (rule_of form)) (texts_of rest.now)
        ≡ Ok (given_of v.items)) }
    ensures err { IfErr result (λ e.
        IsFaultOf (read_from (rule_of form) calm 1 (start_of (rule_of form))
        (texts_of rest.now)) e) }
{
    let mut reading = Reading {
        next: Next::Words(form.numbers),
        given: Vec::new(alloc),
    };
    let mut at = 1;
    for word in rest {
        reading = match read_word(form, calm, reading, word.as_str()) {
            Ok(reading) => reading,
            Err(Stop::Bad(kind)) => return Err(OrderFault::Bad(WordFault { kind, word: at })),
            Err(Stop::NoMemory) => return Err(OrderFault::NoMemory),
        };
        at += 1;
    }
    at_last(reading, at)
}

/// The form of the job that a word names.
fn job_for(word: &str) -> Option<JobForm>
    ensures { option_map rule_of result ≡ rule_named word.now }
{
    form_for(&JOBS, word)
}

/// The first form of this name.
fn form_for(forms: &[JobForm], word: &str) -> Option<JobForm>
    ensures { option_map rule_of result
        ≡ find (λ r. bytes_eq r.name word.now) (map rule_of forms.now) }
{
    for form in forms {
        if form.name == word {
            return Some(*form);
        }
    }
    None
}

/// What words give: the job's form, and the values by their names.
#[derive(Drop)]
pub(crate) struct Values<'a> {
    pub(crate) form: JobForm,
    pub(crate) given: Vec<(&'static str, &'a str)>,
}

/// Reads all words.
pub(crate) fn read_values<'a>(
    alloc: Global,
    words: &'a [String],
    calm: bool,
) -> Result<Values<'a>, OrderFault>
    requires { length words.now < 2 ^ 32 }
    ensures ok { IfOk result (λ v.
        read_words calm (texts_of words.entry.now) ≡ Ok (rule_of v.form, given_of v.given.items)) }
    ensures err { IfErr result (λ e. IsFaultOf (read_words calm (texts_of words.entry.now)) e) }
{
    let (first, rest) = match words {
        [] => {
            return Err(OrderFault::Bad(WordFault {
                kind: WordKind::Missing,
                word: 0,
            }));
        }
        [first, rest @ ..] => (first, rest),
    };
    let form = match job_for(first.as_str()) {
        Some(form) => form,
        None => {
            return Err(OrderFault::Bad(WordFault {
                kind: WordKind::UnknownJob,
                word: 0,
            }));
        }
    };
    let given = read_rest(alloc, form, calm, rest)?;
    Ok(Values { form, given })
}
