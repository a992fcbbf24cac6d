// The options of commands: pairs of a name and a value that stand before the positional words.
ghost use Rattle.std.specs.Prelude.{◌≡◌, ◌+◌, ◌<◌, ◌≤◌, ◌^◌, [], length, option_map};
ghost use Rattle.command_line.specs.Options.{texts, is_dashed, is_option, option_text, is_required, takes, number_of, value_of, positionals, named, allowed, wrong_pair, wrong_last, wrong_option, wrong_positional, is_given, are_given, wrong_behind, begins_plain};

/// An option of a command.
#[derive(Clone, Copy, Drop)]
pub(crate) enum OptionName {
    Level,
    Guard,
    Out,
}

impl OptionName {
    /// The word that names it.
    pub(crate) fn text(self) -> &'static str
        ensures { result.now ≡ option_text self }
    {
        match self {
            OptionName::Level => "--level",
            OptionName::Guard => "--guard",
            OptionName::Out => "--out",
        }
    }

    fn is_required(self) -> bool
        ensures { result ≡ is_required self }
    {
        match self {
            OptionName::Level => false,
            OptionName::Guard => false,
            OptionName::Out => true,
        }
    }

    /// Whether it may have this value.
    fn takes(self, value: &str) -> bool
        ensures { result ≡ takes self value.now }
    {
        match self {
            OptionName::Level => number_up_to(value, 4).is_some(),
            OptionName::Guard => number_up_to(value, 100).is_some(),
            OptionName::Out => !is_dashed(value),
        }
    }
}

fn is_dashed(word: &str) -> bool
    ensures { result ≡ is_dashed word.now }
{
    match word.as_bytes() {
        [] => false,
        [c, ..] => *c == b'-',
    }
}

/// Whether the word begins with two dashes.
fn is_option(word: &str) -> bool
    ensures { result ≡ is_option word.now }
{
    match word.as_bytes() {
        [b'-', b'-', ..] => true,
        _ => false,
    }
}

/// Whether a numeral begins without a sign and without a zero before further digits.
fn begins_plain(text: &str) -> bool
    ensures { result ≡ begins_plain text.now }
{
    match text.as_bytes() {
        [] => false,
        [c] => *c != b'+',
        [c, ..] => *c != b'+' && *c != b'0',
    }
}

/// The number that the text writes in decimal, without a sign and without leading zeros, where it
/// is at most `max`.
pub(crate) fn number_up_to(text: &str, max: u32) -> Option<u32>
    ensures { result ≡ number_of max text.now }
{
    if !begins_plain(text) {
        return None;
    }
    match text.parse::<u32>() {
        Ok(number) => { if number <= max { Some(number) } else { None } }
        Err(_) => None,
    }
}

/// The value of the option of that name, which stands among the words behind the command.
pub(crate) fn value_of<'a>(words: &'a [String], name: &str) -> Option<&'a str>
    ensures { option_map (λ v. v.now) result ≡ value_of name.now (texts words.now) }
{
    let mut rest = words;
    while let [word, value, after @ ..] = rest {
        if !is_option(word.as_str()) {
            return None;
        }
        if word.as_str() == name {
            return Some(value.as_str());
        }
        rest = after;
    }
    None
}

/// The words behind the options.
pub(crate) fn positionals(words: &[String]) -> &[String]
    ensures value { texts result.now ≡ positionals (texts words.now) }
    ensures short { length result.now ≤ length words.now }
{
    let mut rest = words;
    while let [word, _, after @ ..] = rest {
        if !is_option(word.as_str()) {
            return rest;
        }
        rest = after;
    }
    rest
}

/// The option of these that the word names.
fn named(options: &[OptionName], word: &str) -> Option<OptionName>
    ensures { result ≡ named options.now word.now }
{
    for option in options {
        if option.text() == word {
            return Some(*option);
        }
    }
    None
}

/// The option of these that the word names, where it doesn't stand before.
fn allowed(options: &[OptionName], before: &[String], word: &str) -> Option<OptionName>
    ensures { result ≡ allowed options.now (texts before.now) word.now }
{
    match value_of(before, word) {
        Some(_) => None,
        None => named(options, word),
    }
}

/// The place of what is wrong with an option: the word that names it, or its value behind it.
fn wrong_pair(option: Option<OptionName>, value: &str, place: usize) -> Option<usize>
    requires { place + 1 < 2 ^ 64 }
    ensures { result ≡ wrong_pair option value.now place }
{
    match option {
        None => Some(place),
        Some(option) => {
            if option.takes(value) {
                None
            } else {
                Some(place + 1)
            }
        }
    }
}

/// The place of what is wrong with a last word that names an option: it isn't one of these, or its
/// value is missing.
fn wrong_last(option: Option<OptionName>, place: usize) -> usize
    requires { place + 1 < 2 ^ 64 }
    ensures { result ≡ wrong_last option place }
{
    match option {
        None => place,
        Some(_) => place + 1,
    }
}

/// The place of the first wrong word among the options, if one is wrong.
fn wrong_option(words: &[String], options: &[OptionName]) -> Option<usize>
    ensures { result ≡ wrong_option options.now [] 1 (texts words.now) }
{
    let mut place = 1;
    let mut rest = words;
    while let [word, value, after @ ..] = rest {
        let word = word.as_str();
        if !is_option(word) {
            return None;
        }
        let option = allowed(options, &words[..place - 1], word);
        if let Some(wrong) = wrong_pair(option, value.as_str(), place) {
            return Some(wrong);
        }
        place += 2;
        rest = after;
    }
    match rest {
        [word] => {
            let word = word.as_str();
            if !is_option(word) {
                return None;
            }
            Some(wrong_last(allowed(options, &words[..place - 1], word), place))
        }
        _ => None,
    }
}

/// The place of the first wrong word among the positionals, which begin at `place` and are to be
/// `count`, or at least as many.
fn wrong_positional(words: &[String], at_least: bool, count: usize, place: usize) -> Option<usize>
    requires { place + length words.now < 2 ^ 64 }
    ensures { result ≡ wrong_positional at_least count place (texts words.now) }
{
    let mut left = count;
    let mut at = place;
    for word in words {
        if left == 0 && !at_least || is_dashed(word.as_str()) {
            return Some(at);
        }
        left = left.saturating_sub(1);
        at += 1;
    }
    if left == 0 { None } else { Some(at) }
}

/// Whether the option is there, or needn't be.
fn is_given(words: &[String], option: OptionName) -> bool
    ensures { result ≡ is_given (texts words.now) option }
{
    !option.is_required() || value_of(words, option.text()).is_some()
}

/// Whether each of the options that is required is there.
fn are_given(words: &[String], options: &[OptionName]) -> bool
    ensures { result ≡ are_given (texts words.now) options.now }
{
    for option in options {
        if !is_given(words, *option) {
            return false;
        }
    }
    true
}

/// The place of the first wrong word behind a command that has these options and so many
/// positionals, or at least as many, or the number of words where one is missing.
pub(crate) fn wrong_behind(
    words: &[String],
    options: &[OptionName],
    at_least: bool,
    count: usize,
) -> Option<usize>
    ensures { result ≡ wrong_behind options.now at_least count (texts words.now) }
{
    if let Some(place) = wrong_option(words, options) {
        return Some(place);
    }
    let names = positionals(words);
    let behind = 1 + (words.len() - names.len());
    if let Some(place) = wrong_positional(names, at_least, count, behind) {
        return Some(place);
    }
    if are_given(words, options) {
        None
    } else {
        Some(1 + words.len())
    }
}
