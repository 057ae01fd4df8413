// The words of a command line.

ghost use Rattle.std.specs.Prelude.{◌≡◌, ◌-◌, ◌^◌, ◌≤◌, [], ◌∷◌, codes, drop, false, length, nat_eq, true, option_and_then, option_map, IfOk, IfSome, OnErr};
ghost use Rattle.std.specs.Char.{is_ascii_digit};
ghost use Rattle.std.specs.List.{list_all};
ghost use Rattle.clap.specs.Words.{app_of, fault_of, first_of, found_of, rows_of, shape_of, subcommand_of, subcommand_rows_of, with_subcommand, new_app};
ghost use Rattle.clap.specs.declared.builder.command.Command.TheViews.{out-Command};
ghost use Rattle.command_line.specs.CommandLines.{bare_app, files_app, nesthv_app, one_word, reports_app, two_words};
ghost use Rattle.command_line.specs.Commands.{OnFiles, command_of, asked_by, is_numeral, is_plain, bounded_number, guest_number, if_within, save_of, seed_of, size_of, work_of};
ghost use Rattle.command_line.specs.CommandLines.{command_by, file_command_by};
ghost use Rattle.command_line.specs.Seen.{command_seen, file_command_seen, IsRequest};

use clap::error::ErrorKind;
use clap::{Arg, ArgMatches, Command};
use outside::{NoMemory, Word};
use std::alloc::{AllocError, Global};

/// What a command on files asks for.
#[derive(Clone, Copy)]
pub enum FileRequest<'a> {
    /// A run of the configuration in this file.
    Run { config: &'a str },
    /// The same run, whose report is compared with the one in a file.
    Replay { config: &'a str, report: &'a str },
    /// What a run of the configuration would need.
    Check { config: &'a str },
    /// The same run, after which the guest of this number, 0 to 99, is saved.
    Save { config: &'a str, guest: u32 },
}

/// What the words ask for.
#[derive(Clone, Copy)]
pub enum Request<'a> {
    OnFiles(FileRequest<'a>),
    /// A run of the guests that are generated from a seed and a size.
    Work { seed: u64, size: u64 },
}

// A command that takes one word.
fn one_word<'a>(alloc: Global, name: &'a str, id: &'a str) -> Result<Command<'a>, AllocError>
    ensures shape { IfOk result (λ c. shape_of c ≡ one_word name.entry.now id.entry.now) }
    ensures local { IfOk result (λ c. (out-Command c).has_globals ≡ false) }
{
    Command::new(alloc, name).arg(Arg::new(alloc, id).required(true))
}

// A command that takes two words.
fn two_words<'a>(
    alloc: Global,
    name: &'a str,
    first: &'a str,
    second: &'a str,
) -> Result<Command<'a>, AllocError>
    ensures shape { IfOk result (λ c.
        shape_of c ≡ two_words name.entry.now first.entry.now second.entry.now) }
    ensures local { IfOk result (λ c. (out-Command c).has_globals ≡ false) }
{
    one_word(alloc, name, first)?.arg(Arg::new(alloc, second).required(true))
}

// The program, without its commands.
fn bare<'a>(alloc: Global) -> Command<'a>
    ensures { app_of result ≡ bare_app }
{
    Command::new(alloc, "nesthv").subcommand_required(true)
}

// The program with one more command.
fn with<'a>(above: Command<'a>, command: Command<'a>) -> Result<Command<'a>, AllocError>
    requires local { (out-Command command).has_globals ≡ false }
    ensures { IfOk result (λ c. app_of c ≡ with_subcommand (app_of above.entry) (shape_of command.entry)) }
{
    above.subcommand(command)
}

// The program with its commands on a report.
fn reports_line<'a>(alloc: Global) -> Result<Command<'a>, AllocError>
    ensures { IfOk result (λ c. app_of c ≡ reports_app) }
{
    let run = with(bare(alloc), one_word(alloc, "run", "CONFIG")?)?;
    with(run, two_words(alloc, "replay", "CONFIG", "REPORT")?)
}

// The program with its commands on files.
fn files_line<'a>(alloc: Global) -> Result<Command<'a>, AllocError>
    ensures { IfOk result (λ c. app_of c ≡ files_app) }
{
    let check = with(reports_line(alloc)?, one_word(alloc, "check", "CONFIG")?)?;
    with(check, two_words(alloc, "save", "CONFIG", "GUEST")?)
}

// The program's command line.
fn command_line<'a>(alloc: Global) -> Result<Command<'a>, AllocError>
    ensures { IfOk result (λ c. app_of c ≡ nesthv_app) }
{
    with(
        files_line(alloc)?,
        two_words(alloc, "work", "SEED", "SIZE")?,
    )
}

/// Whether no word is empty or begins with a dash.
pub fn are_plain(words: &[Word]) -> bool
    ensures { result ≡ list_all is_plain words.now }
{
    words.iter().all(|word| is_plain(word.as_str()))
}

// Whether a byte is the dash that begins an option.
fn is_dash(byte: u8) -> bool
    ensures { result ≡ nat_eq byte 45 }
{
    byte == b'-'
}

fn is_plain(word: &str) -> bool
    ensures { result ≡ is_plain word.now }
{
    match word.as_bytes() {
        [] => false,
        [first, ..] => !is_dash(*first),
    }
}

/// What the words after the program's name ask for, if they are a command; or out of memory.
#[tactic(auto, unfolding(crate::specs::Commands::command_of))]
pub fn request_of<'a>(alloc: Global, words: &'a [Word]) -> Result<Option<Request<'a>>, NoMemory>
    ensures request { IfOk result (λ request. option_map command_seen request ≡ command_of words.entry.now) }
    ensures within { IfOk result (λ request. IfSome request IsRequest) }
    ensures some { OnErr result (1 ≤ length words.entry.now) }
    ensures memory { OnErr result (list_all is_plain (drop 1 words.entry.now) ≡ true) }
{
    match words {
        [_, rest @ ..] if are_plain(rest) => parsed(alloc, words),
        _ => Ok(None),
    }
}

// The same for words of which none after the first is empty or begins with a dash.
fn parsed<'a>(alloc: Global, words: &'a [Word]) -> Result<Option<Request<'a>>, NoMemory>
    requires some { 1 ≤ length words.now }
    requires plain { list_all is_plain (drop 1 words.now) ≡ true }
    ensures request { IfOk result (λ request.
        option_map command_seen request ≡ asked_by (drop 1 words.entry.now)) }
    ensures within { IfOk result (λ request. IfSome request IsRequest) }
{
    match command_line(alloc)?.try_get_matches_from(words) {
        Ok(matches) => Ok(request_by(&matches)),
        Err(error) => {
            if error.kind() == ErrorKind::OutOfMemory {
                Err(NoMemory)
            } else {
                Ok(None)
            }
        }
    }
}

// What the matches ask for.
fn request_by<'a>(matches: &ArgMatches<'a>) -> Option<Request<'a>>
    ensures request { option_map command_seen result
        ≡ option_and_then command_by (subcommand_rows_of matches.now) }
    ensures within { IfSome result IsRequest }
{
    match matches.subcommand() {
        Some((verb, values)) => request_for(verb, values),
        None => None,
    }
}

// What a command with these values asks for.
#[tactic(auto, using(crate::proofs::Words::file_rules))]
fn request_for<'a>(verb: &str, values: &ArgMatches<'a>) -> Option<Request<'a>>
    ensures request { option_map command_seen result ≡ command_by (verb.now, rows_of (found_of values.now)) }
    ensures within { IfSome result IsRequest }
{
    if verb != "work" {
        return Some(Request::OnFiles(file_request_for(verb, values)?));
    }
    let seed = values.get_str("SEED")?;
    let size = values.get_str("SIZE")?;
    work_request(seed, size)
}

// What a command on these files asks for.
#[tactic(auto, using(crate::proofs::Words::file_rules))]
fn file_request_for<'a>(verb: &str, files: &ArgMatches<'a>) -> Option<FileRequest<'a>>
    ensures { option_map (λ request. OnFiles (file_command_seen request)) result
        ≡ file_command_by (verb.now, rows_of (found_of files.now)) }
{
    let config = files.get_str("CONFIG")?;
    if verb == "run" {
        return Some(FileRequest::Run { config });
    }
    if verb == "check" {
        return Some(FileRequest::Check { config });
    }
    if verb == "save" {
        return save_request(config, files.get_str("GUEST")?);
    }
    let report = files.get_str("REPORT")?;
    Some(FileRequest::Replay { config, report })
}

// What `save` with these words asks for.
fn save_request<'a>(config: &'a str, guest: &str) -> Option<FileRequest<'a>>
    ensures { option_map (λ request. OnFiles (file_command_seen request)) result
        ≡ save_of config.entry.now guest.now }
{
    let guest = number_of(guest, 2, 0, 99)? as u32;
    Some(FileRequest::Save { config, guest })
}

// What `work` with these words asks for.
fn work_request<'a>(seed: &str, size: &str) -> Option<Request<'a>>
    ensures request { option_map command_seen result ≡ work_of seed.now size.now }
    ensures within { IfSome result IsRequest }
{
    let seed = seed_of(seed)?;
    let size = size_of(size)?;
    Some(Request::Work { seed, size })
}

// The seed that a word says.
fn seed_of(word: &str) -> Option<u64>
    ensures seed { result ≡ seed_of word.now }
    ensures most { IfSome result (λ seed. seed ≤ 2 ^ 31 - 1) }
{
    number_of(word, 10, 0, 0x7FFF_FFFF)
}

// The size that a word says.
fn size_of(word: &str) -> Option<u64>
    ensures size { result ≡ size_of word.now }
    ensures bounds { IfSome result (λ size. (1 ≤ size) × (size ≤ 10000)) }
{
    number_of(word, 5, 1, 10_000)
}

/// The number of a word of 1 to that many digits, where it is within these bounds.
#[tactic(auto, unfolding(crate::specs::Commands::bounded_number), using(crate::proofs::Numbers::numbers))]
pub fn number_of(word: &str, digits: usize, least: u64, most: u64) -> Option<u64>
    ensures number { result ≡ bounded_number digits least most word.now }
    ensures bounds { IfSome result (λ n. (least ≤ n) × (n ≤ most)) }
{
    if !is_numeral(word, digits) {
        return None;
    }
    match word.parse::<u64>() {
        Ok(number) => within(number, least, most),
        Err(_) => None,
    }
}

// Whether a word has 1 to that many bytes, each a decimal digit.
#[tactic(auto, using(crate::proofs::Numbers::numeral_is))]
fn is_numeral(word: &str, digits: usize) -> bool
    ensures { result ≡ is_numeral digits word.now }
{
    !word.is_empty() && word.len() <= digits && are_digits(word)
}

// Whether each byte of a word is a decimal digit.
fn are_digits(word: &str) -> bool
    ensures { result ≡ list_all is_ascii_digit word.now }
{
    word.as_bytes().iter().all(|byte| byte.is_ascii_digit())
}

// A number, where it is within these bounds.
fn within(number: u64, least: u64, most: u64) -> Option<u64>
    ensures number { result ≡ if_within least most number }
    ensures bounds { IfSome result (λ n. (least ≤ n) × (n ≤ most)) }
{
    if least <= number && number <= most {
        Some(number)
    } else {
        None
    }
}
