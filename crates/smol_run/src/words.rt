//! The words of the command line.
ghost use Rattle.std.specs.Prelude.{◌≡◌, ◌+◌, ◌<◌, None, IfOk, IfSome, MatchResult, drop, length, map, string_bytes, unwrap_or};
ghost use Rattle.std.specs.Result.{result_ok};
ghost use Rattle.std.specs.Option.{option_map};
ghost use Rattle.smol_run.specs.Words.{AreMolecules, AreRuns, AreWorkers, Finds, is_file_name, IsSecond, item_of_two, items_job, items_of, job_of, made_of, MakesMolecules, MakesRuns, molecules_in, NamesWord, runs_in, RunsByWorkers, seed_in, StandsAt, item_len, workers_in};

use smol_line::count_in;
use smol_num::read_digits;

/// The most workers that a run may have.
const MOST_WORKERS: u64 = 16;

/// The most runs that one call makes.
const MOST_RUNS: u64 = 1_000;

/// The most molecules for which a text is made.
const MOST_MOLECULES: u64 = 1_000_000;

/// What the words ask for.
#[derive(Clone, Copy, Debug, PartialEq, Eq)]
pub enum Job {
    /// A run of the file whose name is the word at this index, with a seed where the words give one,
    /// by this many workers. Or so many runs, 1 to 1,000, whose seeds follow one another from that seed on.
    File {
        index: usize,
        seed: Option<u64>,
        workers: u32,
        runs: Option<u32>,
    },
    /// A run of the text that is made for `n` molecules, 1 to 1,000,000.
    Make {
        n: u32,
    },
}

/// The words ask for nothing that there is.
#[derive(Clone, Copy, Debug, PartialEq, Eq)]
pub struct WordFault;

/// What a word gives, or two words that belong together.
#[derive(Clone, Copy, Debug, PartialEq, Eq)]
enum Item {
    /// The file whose name is the word at this index.
    Name(usize),
    /// The number behind `--seed`.
    Seed(u64),
    /// The number behind `--workers`.
    Workers(u32),
    /// The number behind `--runs`.
    Runs(u32),
}

/// What the words have given so far.
#[derive(Clone, Copy, Debug, PartialEq, Eq)]
struct Found {
    name: Option<usize>,
    seed: Option<u64>,
    workers: Option<u32>,
    runs: Option<u32>,
}

impl Found {
    /// Adds an item. A second of its kind is refused.
    fn add(&mut self, item: Item) -> Result<(), WordFault>
        ensures { MatchResult result (λ _. Finds item self.old self.new) (λ _. IsSecond item self.old) }
    {
        let was_given = match item {
            Item::Name(index) => self.name.replace(index).is_some(),
            Item::Seed(seed) => self.seed.replace(seed).is_some(),
            Item::Workers(workers) => self.workers.replace(workers).is_some(),
            Item::Runs(runs) => self.runs.replace(runs).is_some(),
        };
        if was_given { Err(WordFault) } else { Ok(()) }
    }

    /// What was given asks for. One worker runs it where no number of workers was given.
    fn job(self) -> Result<Job, WordFault>
        ensures { result_ok result ≡ option_map (λ index. Job.File index self.seed (unwrap_or self.workers 1) self.runs) self.name }
    {
        let index = self.name.ok_or(WordFault)?;
        Ok(Job::File {
            index,
            seed: self.seed,
            workers: self.workers.unwrap_or(1),
            runs: self.runs,
        })
    }
}

/// Reads the words after the program's name.
pub fn read_words(words: &[String]) -> Result<Job, WordFault>
    ensures job { result_ok result ≡ job_of (map (λ word. string_bytes word) words.now) }
    ensures named { IfOk result (NamesWord (length words.now)) }
    ensures workers { IfOk result RunsByWorkers }
    ensures runs { IfOk result MakesRuns }
    ensures molecules { IfOk result MakesMolecules }
{
    match made_of(words) {
        Some(n) => Ok(Job::Make { n }),
        None => items_job(words),
    }
}

// The number behind `--make`, where these are all words.
fn made_of(words: &[String]) -> Option<u32>
    ensures value { result ≡ made_of (map (λ word. string_bytes word) words.now) }
    ensures within { IfSome result AreMolecules }
{
    match words {
        [word, number] if word.as_bytes() == b"--make".as_slice() => molecules_in(
            number.as_bytes(),
        ),
        _ => None,
    }
}

// What the items that the words spell ask for.
fn items_job(words: &[String]) -> Result<Job, WordFault>
    ensures job { result_ok result ≡ items_job (map (λ word. string_bytes word) words.now) }
    ensures named { IfOk result (NamesWord (length words.now)) }
    ensures workers { IfOk result RunsByWorkers }
    ensures runs { IfOk result MakesRuns }
    ensures molecules { IfOk result MakesMolecules }
{
    let mut found = Found {
        name: None,
        seed: None,
        workers: None,
        runs: None,
    };
    let mut index = 0;
    while index < words.len() {
        let item = item_at(words, index)?;
        found.add(item)?;
        index += item_len(item);
    }
    found.job()
}

// The item that begins at the word at this index.
fn item_at(words: &[String], index: usize) -> Result<Item, WordFault>
    requires { index < length words.now }
    ensures { MatchResult result
        (λ item. StandsAt item index (map (λ word. string_bytes word) words.now))
        (λ _. items_of index (drop index (map (λ word. string_bytes word) words.now)) ≡ None) }
{
    let word = words[index].as_bytes();
    if is_file_name(word) {
        return Ok(Item::Name(index));
    }
    match words.get(index + 1) {
        Some(number) => item_of_two(word, number.as_bytes()),
        None => Err(WordFault),
    }
}

// How many words spell the item.
fn item_len(item: Item) -> usize
    ensures { result ≡ item_len item }
{
    match item {
        Item::Name(_) => 1,
        Item::Seed(_) | Item::Workers(_) | Item::Runs(_) => 2,
    }
}

fn is_file_name(word: &[u8]) -> bool
    ensures { result ≡ is_file_name word.now }
{
    !word.is_empty() && !word.starts_with(b"--")
}

// A word that says what the number behind it is.
fn item_of_two(word: &[u8], number: &[u8]) -> Result<Item, WordFault>
    ensures { result_ok result ≡ item_of_two word.now number.now }
{
    if word == b"--seed".as_slice() {
        Ok(Item::Seed(seed_in(number)?))
    } else if word == b"--workers".as_slice() {
        Ok(Item::Workers(workers_in(number)?))
    } else if word == b"--runs".as_slice() {
        Ok(Item::Runs(runs_in(number)?))
    } else {
        Err(WordFault)
    }
}

fn seed_in(word: &[u8]) -> Result<u64, WordFault>
    ensures { result_ok result ≡ seed_in word.now }
{
    read_digits(word, u64::MAX).map_err(|_| WordFault)
}

fn molecules_in(word: &[u8]) -> Option<u32>
    ensures value { result ≡ molecules_in word.now }
    ensures within { IfSome result AreMolecules }
{
    match count_in(1, MOST_MOLECULES, word) {
        Ok(n) => Some(n as u32),
        Err(_) => None,
    }
}

fn workers_in(word: &[u8]) -> Result<u32, WordFault>
    ensures value { result_ok result ≡ workers_in word.now }
    ensures within { IfOk result AreWorkers }
{
    match count_in(1, MOST_WORKERS, word) {
        Ok(workers) => Ok(workers as u32),
        Err(_) => Err(WordFault),
    }
}

fn runs_in(word: &[u8]) -> Result<u32, WordFault>
    ensures value { result_ok result ≡ runs_in word.now }
    ensures within { IfOk result AreRuns }
{
    match count_in(1, MOST_RUNS, word) {
        Ok(runs) => Ok(runs as u32),
        Err(_) => Err(WordFault),
    }
}
