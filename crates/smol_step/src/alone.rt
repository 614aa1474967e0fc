//! Reactions of single molecules.
ghost use Rattle.std.specs.Prelude.{◌≡◌, IfOk, map};
ghost use Rattle.smol_meaning.specs.Events.{is_free, lone_events, lone_reaction};

use crate::reacting::Reacting;
use smol_births::fired_of_one;
use smol_streams::Streams;
use smol_types::{Config, Mol};
use std::alloc::{AllocError, Global};

/// Lets each molecule react alone by the reaction that was chosen for it, or not.
pub(crate) fn react_alone(
    alloc: Global,
    config: &Config,
    streams: &mut Streams,
    k: u32,
    mols: &[Mol],
    reactions: &[Option<u16>],
) -> Result<Reacting, AllocError>
    requires { reactions.now ≡ map (lone_reaction config.now streams.old k) mols.now }
    ensures free { IfOk result (λ r. r.free.items ≡ map (is_free config.now streams.old k) mols.now) }
    ensures events { IfOk result (λ r. r.events.items ≡ lone_events config.now streams.old k mols.now) }
    ensures seed { streams.new ≡ streams.old }
{
    let mut free = Vec::with_capacity(alloc, mols.len())?;
    let mut events = Vec::new(alloc);
    for (i, m) in mols.iter().enumerate() {
        let reaction = reactions[i];
        if let Some(r) = reaction {
            events.push(fired_of_one(config, m, r, streams, k))?;
        }
        free.push(reaction.is_none())?;
    }
    Ok(Reacting { free, events })
}
