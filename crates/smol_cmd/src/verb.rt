//! The word COMMAND of a command that is no test.
ghost use Rattle.std.specs.Prelude.{◌≡◌};
ghost use Rattle.smol_cmd.specs.Act.{printing_in, statistic_in, verb_in};

use smol_line::spells;
use smol_types::Kind;

/// What is to be done, by the word COMMAND.
#[derive(Clone, Copy, Debug, PartialEq, Eq)]
pub enum Verb {
    CountHeader,
    Count,
    CountIn,
    List,
    Positions,
    CountSpace,
    Moments,
    MeanSquare,
    Radial,
    Echo,
    Kill,
    KillProb,
    Replace,
    PointSource,
    Stop,
}

// The same of a word for numbers over the molecules.
#[tactic(auto, unfolding(crate::specs::Act::statistic_in))]
fn statistic_in(word: &[u8]) -> Result<Verb, Kind>
    ensures { result ≡ statistic_in word.now }
{
    if spells(word, "molcountspace") {
        Ok(Verb::CountSpace)
    } else if spells(word, "molmoments") {
        Ok(Verb::Moments)
    } else if spells(word, "meansqrdist") {
        Ok(Verb::MeanSquare)
    } else if spells(word, "radialcount") {
        Ok(Verb::Radial)
    } else {
        Err(Kind::UnknownCommand)
    }
}

// The same of a word for printing.
#[tactic(auto, unfolding(crate::specs::Act::printing_in))]
fn printing_in(word: &[u8]) -> Result<Verb, Kind>
    ensures { result ≡ printing_in word.now }
{
    if spells(word, "molcountheader") {
        Ok(Verb::CountHeader)
    } else if spells(word, "molcount") {
        Ok(Verb::Count)
    } else if spells(word, "molcountincmpt") {
        Ok(Verb::CountIn)
    } else if spells(word, "listmols") {
        Ok(Verb::List)
    } else if spells(word, "molpos") {
        Ok(Verb::Positions)
    } else if spells(word, "echo") {
        Ok(Verb::Echo)
    } else {
        statistic_in(word)
    }
}

/// What the word COMMAND says is to be done.
#[tactic(auto, unfolding(crate::specs::Act::verb_in))]
pub fn verb_in(word: &[u8]) -> Result<Verb, Kind>
    ensures { result ≡ verb_in word.now }
{
    if spells(word, "killmol") {
        Ok(Verb::Kill)
    } else if spells(word, "killmolprob") {
        Ok(Verb::KillProb)
    } else if spells(word, "replacemol") {
        Ok(Verb::Replace)
    } else if spells(word, "pointsource") {
        Ok(Verb::PointSource)
    } else if spells(word, "stop") {
        Ok(Verb::Stop)
    } else {
        printing_in(word)
    }
}
