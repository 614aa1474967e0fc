//! The lines that a file gives.
ghost use Rattle.std.specs.Prelude.{◌≡◌, ◌≤◌, OnOk, IfErr, IsErrOf};
ghost use Rattle.smol_edge.specs.Faults.{Rose, Tells};
ghost use Rattle.smol_macro.specs.Refusal.{RefusesLine, UnlessReadFault};
ghost use Rattle.smol_macro.specs.Walking.{walked_of, progress_of, Reads, gives_file, gives_lines, gives_line};
ghost use Rattle.smol_macro.specs.Expanding.{part_read, next_standing, end_given};

use crate::expand_fault::{ExpandFault, MacroKind};
use crate::files::Files;
use crate::walk::Walk;
use smol_edge::Source;
use smol_text::{LineState, before_comment, first_line, first_word_of};
use std::alloc::Global;

/// What is read of a line, which stands as said, and so does the line behind it.
fn part_read(standing: LineState, next: LineState, line: &[u8]) -> &[u8]
    ensures { result.now ≡ part_read standing next line.now }
{
    if standing.is_open() && next.is_open() {
        before_comment(line)
    } else {
        &[]
    }
}

/// Gives the lines of the file of this name, while so many more may be read at once.
#[cycle(including)]
pub(crate) fn give_file<S: Source>(
    alloc: Global,
    source: &mut S,
    walk: &mut Walk,
    files: &mut Files,
    name: &str,
    room: u32,
) -> Result<(), ExpandFault>
    ensures given { Tells (S.told source.old) (S.told source.new) (Reads result (gives_file files.old.names room name.now) (progress_of walk.old files.old) (progress_of walk.new files.new)) }
    ensures names { OnOk result (files.new.names ≡ files.old.names) }
    ensures faults_stay { S.faults source.old ≤ S.faults source.new }
    ensures cause { IsErrOf result ExpandFault.ReadFault → Rose (S.faults source.old) (S.faults source.new) }
    ensures no_fault { UnlessReadFault result (S.faults source.new ≡ S.faults source.old) }
{
    let bytes = files.enter(alloc, source, name)?;
    let around = walk.enter(alloc);
    give_lines(alloc, source, walk, files, &bytes, room)?;
    walk.leave(around);
    files.leave();
    Ok(())
}

/// Gives the lines of a file of these bytes, none of whose conditions is open yet.
#[cycle(including)]
fn give_lines<S: Source>(
    alloc: Global,
    source: &mut S,
    walk: &mut Walk,
    files: &mut Files,
    bytes: &[u8],
    room: u32,
) -> Result<(), ExpandFault>
    ensures given { Tells (S.told source.old) (S.told source.new) (Reads result (gives_lines files.old.names room bytes.now) (progress_of walk.old files.old) (progress_of walk.new files.new)) }
    ensures names { OnOk result (files.new.names ≡ files.old.names) }
    ensures faults_stay { S.faults source.old ≤ S.faults source.new }
    ensures cause { IsErrOf result ExpandFault.ReadFault → Rose (S.faults source.old) (S.faults source.new) }
    ensures no_fault { UnlessReadFault result (S.faults source.new ≡ S.faults source.old) }
{
    let mut standing = LineState::Open;
    let mut at = 0;
    while at < bytes.len() && !standing.is_ended() {
        let line = first_line(&bytes[at..]);
        let next = next_standing(walk, standing, line);
        let part = part_read(standing, next, line);
        give_line(alloc, source, walk, files, part, room)?;
        standing = next;
        at = at + line.len() + 1;
    }
    end_lines(walk, standing)
}

/// Gives a line of which this is read, or the lines of the file that it asks for.
#[cycle(including)]
fn give_line<S: Source>(
    alloc: Global,
    source: &mut S,
    walk: &mut Walk,
    files: &mut Files,
    part: &[u8],
    room: u32,
) -> Result<(), ExpandFault>
    ensures given { Tells (S.told source.old) (S.told source.new) (Reads result (gives_line files.old.names room part.now) (progress_of walk.old files.old) (progress_of walk.new files.new)) }
    ensures names { OnOk result (files.new.names ≡ files.old.names) }
    ensures faults_stay { S.faults source.old ≤ S.faults source.new }
    ensures cause { IsErrOf result ExpandFault.ReadFault → Rose (S.faults source.old) (S.faults source.new) }
    ensures no_fault { UnlessReadFault result (S.faults source.new ≡ S.faults source.old) }
{
    let Some(name) = walk.take(alloc, files, part)? else {
        return Ok(());
    };
    if room == 0 {
        return Err(ExpandFault::At {
            line: walk.output.lines() + 1,
            kind: MacroKind::TooMany,
        });
    }
    walk.give(&[])?;
    give_file(alloc, source, walk, files, name, room - 1)
}

/// How the line behind a line stands.
fn next_standing(walk: &Walk, standing: LineState, line: &[u8]) -> LineState
    ensures { result ≡ next_standing standing (walked_of walk.now) line.now }
{
    let word = first_word_of(line);
    if walk.conditions.left_out() && word == b"end_file".as_slice() {
        standing
    } else {
        standing.after(walk.output.lines() + 1, word)
    }
}

/// At a file's end no comment and no condition is open.
fn end_lines(walk: &Walk, standing: LineState) -> Result<(), ExpandFault>
    ensures ended { OnOk result (end_given standing (walked_of walk.now) ≡ Ok (walked_of walk.now)) }
    ensures refused { IfErr result (λ fault. RefusesLine fault (end_given standing (walked_of walk.now))) }
{
    if let LineState::Commented { line } = standing {
        return Err(ExpandFault::At {
            line,
            kind: MacroKind::OpenComment,
        });
    }
    match walk.conditions.outermost() {
        Some(line) => Err(ExpandFault::At {
            line,
            kind: MacroKind::OpenBlock,
        }),
        None => Ok(()),
    }
}
