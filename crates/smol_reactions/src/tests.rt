//! What lines on reactions say together. `.ci/reactions.cases` holds the fault of each line that is refused.
ghost use Rattle.std.specs.Prelude.{◌+◌, ◌≤◌, length, OnOk, IfOk};
ghost use Rattle.smol_reactions.specs.Table.{IsKept};

use crate::Reactions;
use smol_geom::Step3;
use smol_line::{NameSet, Refusal, spells, word_at};
use smol_num::{Micro, Threshold};
use smol_text::{StatedLine, Text, split_lines};
use smol_types::{Kind, Placement};
use std::alloc::{AllocError, Global};
use std::test::Fail;

// The species of the tests.
const SPECIES: [&str; 5] = ["A", "B", "C", "product_1", "product_0"];

fn add_new(alloc: Global, names: &mut NameSet, name: &str) -> Result<(), AllocError>
    ensures { OnOk result (length names.new ≤ length names.old + 1) }
{
    if names.number_of(name.as_bytes()).is_none() {
        names.add(alloc, name)?;
    }
    Ok(())
}

fn species_of(alloc: Global) -> Result<NameSet, AllocError>
    ensures { IfOk result (λ names. length names ≤ 256) }
{
    let mut names = NameSet::new(alloc);
    for i in 0..5 {
        add_new(alloc, &mut names, SPECIES[i])?;
    }
    Ok(names)
}

fn read_line(
    alloc: Global,
    table: &mut Reactions,
    species: &NameSet,
    line: &StatedLine<'_>,
) -> Result<(), Refusal>
    requires species { length species.now ≤ 256 }
    requires kept { IsKept table.old }
    ensures { OnOk result (IsKept table.new) }
{
    let word = word_at(line, 0);
    if spells(word, "reaction") {
        table.read_reaction(alloc, species, line)
    } else if spells(word, "binding_radius") {
        table.read_binding_radius(line)
    } else if spells(word, "reaction_probability") {
        table.read_reaction_probability(line)
    } else {
        table.read_product_placement(alloc, Some(3), species, line)
    }
}

fn read_lines(
    alloc: Global,
    table: &mut Reactions,
    species: &NameSet,
    text: &Text,
) -> Result<(), Refusal>
    requires species { length species.now ≤ 256 }
    requires kept { IsKept table.old }
    ensures { OnOk result (IsKept table.new) }
{
    for i in 0..text.len() {
        read_line(alloc, table, species, &text.line(i))?;
    }
    Ok(())
}

// What these lines say.
fn read(alloc: Global, lines: &str) -> Result<Reactions, Refusal>
    ensures { IfOk result IsKept }
{
    if lines.len() > 4_194_304 {
        return Err(Refusal::At(Kind::TooLong));
    }
    let Ok(text) = split_lines(alloc, lines.as_bytes()) else {
        return Err(Refusal::OutOfMemory);
    };
    let species = species_of(alloc)?;
    let mut table = Reactions::new(alloc);
    read_lines(alloc, &mut table, &species, &text)?;
    Ok(table)
}

// Two reactions, and lines of which the last ones count.
const ACCEPTED: &str = "reaction split A(soln) -> B + A + product_1 + B
reaction join A + product_1(all) -> 0
reaction pair B -> A + A
binding_radius join 1
binding_radius join 0.000003
reaction_probability split 1
reaction_probability split 0.0000000015e1
product_placement split offset product_1 1 -0.5 0.000001
product_placement split offset B 2 -0.5 0.000001
product_placement split offset product_4 0 1000 -1000
product_placement split offset product_1(all) 1 1 1
product_placement pair unbindrad 1
product_placement pair unbindrad 3
";

#[test]
fn the_nearest_lines_count(rt: HostRuntime) -> Result<(), Fail> {
    let Ok(table) = read(rt.alloc(), ACCEPTED) else {
        assert!(rt; false);
        return Ok(());
    };
    let [split, join, pair] = table.list.as_slice() else {
        assert!(rt; false);
        return Ok(());
    };
    assert_eq!(rt; split.name.as_str(), "split");
    assert_eq!(rt; (split.order, join.order, pair.order), (1, 2, 1));
    assert_eq!(rt; split.reactants.as_slice(), [0].as_slice());
    assert_eq!(rt; join.reactants.as_slice(), [0, 3].as_slice());
    assert!(rt; join.products.is_empty());
    assert_eq!(rt; (split.radius, join.radius), (None, Some(Micro(3))));
    assert_eq!(rt; split.threshold, Threshold(64));
    assert_eq!(rt;
        (join.threshold, pair.threshold),
        (Threshold(4_294_967_296), Threshold(0))
    );
    assert_eq!(rt; split.placement, Placement::Offsets);
    assert_eq!(rt; pair.placement, Placement::Unbind(3_000_000));
    let [first, second, third, fourth] = split.products.as_slice() else {
        assert!(rt; false);
        return Ok(());
    };
    assert_eq!(rt;
        (first.species, first.offset),
        (1, Step3([4_000_000, -1_000_000, 2]))
    );
    assert_eq!(rt; (second.species, second.offset), (0, Step3([0, 0, 0])));
    assert_eq!(rt;
        (third.species, third.offset),
        (3, Step3([2_000_000, 2_000_000, 2_000_000]))
    );
    assert_eq!(rt;
        (fourth.species, fourth.offset),
        (1, Step3([0, 2_000_000_000, -2_000_000_000]))
    );
    assert_eq!(rt; (table.chance_sum(0), table.chance_sum(1)), (15, 0));
    Ok(())
}
