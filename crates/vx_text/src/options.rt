//! Options behind the name that a command serves, in any order.
ghost use Rattle.std.specs.Prelude.{◌≡◌, map, string_bytes, take, drop};
ghost use Rattle.std.specs.List.{find};
ghost use Rattle.std.specs.Option.{option_map};
ghost use Rattle.std.specs.Str.{bytes_eq};
ghost use Rattle.vx_text.specs.Options.{once, repeated, last, shape_named, values_behind, value_count, values_of as values_in};
ghost use Rattle.vx_text.specs.Options.{is_option as is_option_in, are_options as are_all_options, optional_number as optional_number_of};

use crate::numbers::number;
use std::marker::Model;

/// An option: its word, how many values stand behind it, whether it may be given again, and whether all
/// words behind it are its values.
#[derive(Drop)]
pub struct Shape {
    word: &'static str,
    values: usize,
    repeats: bool,
    is_last: bool,
}

impl Model for Shape {
    ghost use Rattle.vx_text.specs.Options.{OptionShape};

    ghost Value = { OptionShape };

    ghost view = { λ s. record { word = s.word.now; values = s.values; repeats = s.repeats; is_last = s.is_last } };
}

impl Shape {
    /// An option that has so many values and is given at most once.
    pub fn once(word: &'static str, values: usize) -> Shape
        ensures { result ≡ once word.now values }
    {
        Shape {
            word,
            values,
            repeats: false,
            is_last: false,
        }
    }

    /// An option that has so many values and may be given again.
    pub fn repeated(word: &'static str, values: usize) -> Shape
        ensures { result ≡ repeated word.now values }
    {
        Shape {
            word,
            values,
            repeats: true,
            is_last: false,
        }
    }

    /// An option whose values are all words behind it.
    pub fn last(word: &'static str) -> Shape
        ensures { result ≡ last word.now }
    {
        Shape {
            word,
            values: 0,
            repeats: false,
            is_last: true,
        }
    }

    fn is_named(&self, word: &str) -> bool
        ensures { result ≡ bytes_eq self.now.word word.now }
    {
        self.word == word
    }

    /// How many of the words behind the option are its values.
    fn values_behind(&self, words: &[String]) -> usize
        ensures { result ≡ values_behind (map string_bytes words.now) self.now }
    {
        if self.is_last {
            words.len()
        } else {
            self.values
        }
    }
}

/// The option that a word names.
fn named<'a>(shapes: &'a [Shape], word: &str) -> Option<&'a Shape>
    ensures { option_map (λ s. s.now) result ≡ shape_named shapes.now word.now }
{
    shapes.iter().find(|shape| shape.is_named(word))
}

/// How many of the words behind a word are its values.
pub fn value_count(shapes: &[Shape], word: &str, words: &[String]) -> usize
    ensures { result ≡ value_count shapes.now word.now (map string_bytes words.now) }
{
    match named(shapes, word) {
        Some(shape) => shape.values_behind(words),
        None => 0,
    }
}

/// The words behind so many.
pub fn behind(words: &[String], count: usize) -> &[String]
    ensures { result.now ≡ drop count words.now }
{
    if count < words.len() {
        return &words[count..];
    }
    &[]
}

/// So many of the first words, or all of them where there are fewer.
pub fn first(words: &[String], count: usize) -> &[String]
    ensures { result.now ≡ take count words.now }
{
    if count < words.len() {
        return &words[..count];
    }
    words
}

/// The values of the first option of this word.
#[tactic(auto, using(crate::proofs::OptionLemmas::values_none))]
pub fn values_of<'a>(shapes: &[Shape], wanted: &str, words: &'a [String]) -> Option<&'a [String]>
    ensures { option_map (λ values. map string_bytes values.now) result ≡ values_in shapes.now wanted.now (map string_bytes words.now) }
{
    let mut rest = words;
    while let Some((word, others)) = rest.split_first() {
        let text = word.as_str();
        let count = value_count(shapes, text, others);
        if text == wanted {
            return Some(first(others, count));
        }
        rest = behind(others, count);
    }
    None
}

/// Whether a word names an option, which may be given again or is not given behind its values.
#[tactic(auto, using(crate::proofs::OptionLemmas::values_behind_it))]
fn is_option(shapes: &[Shape], word: &str, words: &[String]) -> bool
    ensures { result ≡ is_option_in shapes.now word.now (map string_bytes words.now) }
{
    match named(shapes, word) {
        Some(shape) => {
            if shape.repeats {
                return true;
            }
            let count = shape.values_behind(words);
            values_of(shapes, word, behind(words, count)).is_none()
        }
        None => false,
    }
}

/// Whether words are options with all their values, each given as often as it may.
#[tactic(auto, using(crate::proofs::OptionLemmas::options_end))]
pub fn are_options(shapes: &[Shape], words: &[String]) -> bool
    ensures { result ≡ are_all_options shapes.now (map string_bytes words.now) }
{
    let mut left = words;
    while let Some((word, others)) = left.split_first() {
        let text = word.as_str();
        let count = value_count(shapes, text, others);
        if count > others.len() {
            return false;
        }
        if !is_option(shapes, text, others) {
            return false;
        }
        left = behind(others, count);
    }
    true
}

/// The number that the values of an option are, where it is given.
pub fn optional_number(values: Option<&[String]>) -> Option<Option<u64>>
    ensures { result ≡ optional_number_of (option_map (λ v. map string_bytes v.now) values.entry) }
{
    match values {
        None => Some(None),
        Some([word]) => Some(Some(number(word.as_str().as_bytes())?)),
        Some(_) => None,
    }
}
