// The command that the words are.
ghost use Rattle.std.specs.Prelude.{◌≡◌, ◌≤◌, ◌<◌, ℕ, List, false, true, [], ◌∷◌, IfOk, IfErr, Some, None, string_bytes, length, option_map, codes};
ghost use Rattle.command_line.specs.Options.{texts, option_text, number_of, wrong_behind, value_of, positionals};
ghost use Rattle.command_line.specs.Words.{wrong_word, rewrite_options, level_number, number_or, AreSettings, IsCommand};

use crate::options::{OptionName, number_up_to, positionals, value_of, wrong_behind};
use cil_model::{Level, Settings};

/// What is made of a file.
#[derive(Clone, Copy, Drop)]
pub enum Command {
    /// A body is rewritten.
    Body,
    /// An assembly is rewritten.
    Rewrite(Settings),
    /// The types of an assembly and their methods are listed.
    List,
}

/// A command, the names of the files that it reads in their order, and of the one that it writes,
/// if it writes one.
#[derive(Drop)]
pub struct Request<'a> {
    pub command: Command,
    pub inputs: &'a [String],
    pub output: Option<&'a str>,
}

const REWRITE_OPTIONS: [OptionName; 3] = [OptionName::Level, OptionName::Guard, OptionName::Out];

/// The level of a number up to 4.
fn level_of(number: u32) -> Level
    ensures { number ≤ 4 → level_number result ≡ number }
{
    match number {
        0 => Level::NoChecks,
        1 => Level::ReleaseRequires,
        2 => Level::Preconditions,
        3 => Level::PreAndPost,
        _ => Level::Full,
    }
}

/// The number that an option's value writes, or the default.
fn number_or(words: &[String], option: OptionName, max: u32, default: u32) -> u32
    requires { default ≤ max }
    ensures value { result ≡ number_or max default (value_of (option_text option) (texts words.now)) }
    ensures most { result ≤ max }
{
    match value_of(words, option.text()) {
        None => default,
        Some(text) => match number_up_to(text, max) {
            Some(number) => number,
            None => default,
        },
    }
}

/// The settings among the words behind the command. What has no word yet has its default.
fn settings_of(words: &[String]) -> Settings
    ensures { AreSettings (texts words.now) result }
{
    let level = number_or(words, OptionName::Level, 4, 4);
    let guard = number_or(words, OptionName::Guard, 100, 4);
    Settings {
        level: level_of(level),
        guard,
        throwing: true,
        surface: false,
        callsite: false,
    }
}

/// The names behind `body`, or the place of the first wrong word.
fn body_names(words: &[String]) -> Result<(&[String], &str), usize>
    ensures right { IfOk result (λ pair. (wrong_behind [] false 2 (texts words.now) ≡ None) × ((input : List ℕ) × (texts pair.0.now ≡ input ∷ []) × (texts words.now ≡ input ∷ pair.1.now ∷ []))) }
    ensures wrong { IfErr result (λ k. wrong_behind [] false 2 (texts words.now) ≡ Some k) }
{
    if let Some(place) = wrong_behind(words, &[], false, 2) {
        return Err(place);
    }
    match words {
        [_, output] => Ok((&words[..1], output.as_str())),
        // Right words are two.
        _ => Err(0),
    }
}

/// TARGET with the REFs behind it, and OUT, among the words behind `rewrite`, or the place of the
/// first wrong word.
fn rewrite_names(words: &[String]) -> Result<(&[String], &str), usize>
    ensures right { IfOk result (λ pair. (wrong_behind rewrite_options true 1 (texts words.now) ≡ None) × (positionals (texts words.now) ≡ texts pair.0.now) × (0 < length (texts pair.0.now)) × (value_of (codes "--out") (texts words.now) ≡ Some pair.1.now)) }
    ensures wrong { IfErr result (λ k. wrong_behind rewrite_options true 1 (texts words.now) ≡ Some k) }
{
    if let Some(place) = wrong_behind(words, &REWRITE_OPTIONS, true, 1) {
        return Err(place);
    }
    let inputs = positionals(words);
    match value_of(words, OptionName::Out.text()) {
        Some(output) => Ok((inputs, output)),
        // Right words have it.
        None => Err(0),
    }
}

/// TARGET with the REFs behind it, which are all the words behind `list`, or the place of the first
/// wrong word.
fn list_names(words: &[String]) -> Result<&[String], usize>
    ensures right { IfOk result (λ names. (names.now ≡ words.now) × (wrong_behind [] true 1 (texts words.now) ≡ None) × (0 < length words.now)) }
    ensures wrong { IfErr result (λ k. wrong_behind [] true 1 (texts words.now) ≡ Some k) }
{
    match wrong_behind(words, &[], true, 1) {
        Some(place) => Err(place),
        None => Ok(words),
    }
}

/// What the words ask for, or the place of the first wrong word.
pub fn command_of(words: &[String]) -> Result<Request, usize>
    ensures right { IfOk result (λ r. IsCommand (texts words.now) r.command (texts r.inputs.now) (option_map (λ name. name.now) r.output)) }
    ensures wrong { IfErr result (λ k. wrong_word (texts words.now) ≡ Some k) }
{
    match words {
        [] => Err(0),
        [command, behind @ ..] => {
            if command.as_str() == "body" {
                return match body_names(behind) {
                    Ok((inputs, output)) => Ok(Request {
                        command: Command::Body,
                        inputs,
                        output: Some(output),
                    }),
                    Err(place) => Err(place),
                };
            }
            if command.as_str() == "list" {
                return match list_names(behind) {
                    Ok(inputs) => Ok(Request {
                        command: Command::List,
                        inputs,
                        output: None,
                    }),
                    Err(place) => Err(place),
                };
            }
            if command.as_str() != "rewrite" {
                return Err(0);
            }
            match rewrite_names(behind) {
                Ok((inputs, output)) => Ok(Request {
                    command: Command::Rewrite(settings_of(behind)),
                    inputs,
                    output: Some(output),
                }),
                Err(place) => Err(place),
            }
        }
    }
}
