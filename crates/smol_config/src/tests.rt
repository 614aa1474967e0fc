//! What a configuration says, and that each front of a file has an answer. `.ci/statements.cases` and the tables beside it hold the
//! fault of each text that is refused.
use crate::read_config;
use smol_types::{Act, ConfigFault, When};
use std::test::Fail;

#[test]
fn a_configuration_says_what_its_lines_say(rt: HostRuntime) -> Result<(), Fail> {
    let text =
        b"dim 2\nspecies A B\nboundaries x -10 100 r\nboundaries 1 0 50\nspecies C_1\ncmd a molcount stdout\ncmd b listmols stdout\ntime_stop 0.5\ntime_step 1e-6\nrandom_seed 0\npair_order nearest";
    let config = read_config(rt.alloc(), text)?;
    assert_eq!(rt; config.dims(), 2);
    assert_eq!(rt; config.start(), 0);
    assert_eq!(rt; config.stop(), 500_000_000);
    assert_eq!(rt; config.step(), 1_000);
    assert_eq!(rt; config.max_mol(), 100_000);
    assert_eq!(rt; config.seed(), Some(0));
    assert!(rt; config.nearest());
    let species = config.species();
    assert_eq!(rt; species.len(), 3);
    assert_eq!(rt; species[0].name.as_str(), "A");
    assert_eq!(rt; species[1].name.as_str(), "B");
    assert_eq!(rt; species[2].name.as_str(), "C_1");
    let commands = config.commands();
    assert_eq!(rt; commands.len(), 2);
    assert_eq!(rt; commands[0].when, When::After);
    assert!(rt; matches!(&commands[0].act, Act::Count { out: 0 }));
    assert_eq!(rt; commands[1].when, When::Before);
    assert!(rt; matches!(&commands[1].act, Act::List { out: 0 }));
    Ok(())
}

// A file that ends in `end_file`, with a block of each kind.
const BOX: &str =
    "# binding in a box\ngraphics opengl\ndim 3\nspecies A B C\ndifc A 3\ndifc B 3\ndifc C 1\ntime_start 0\ntime_stop 1\ntime_step 0.01\nboundaries x -10 110\nboundaries y -10 110\nboundaries z -10 110\nstart_surface box\naction both all reflect\ncolor both 0 0 1\npanel rect +0 0 0 0 100 100\npanel rect -0 100 0 0 100 100\npanel rect +1 0 0 0 100 100\npanel rect -1 0 100 0 100 100\npanel rect +2 0 0 0 100 100\npanel rect -2 0 0 100 100 100\nend_surface\nstart_compartment inside\nsurface box\npoint 50 50 50\nend_compartment\ncompartment_mol 500 A inside\ncompartment_mol 500 B inside\nreaction bind A + B -> C\nbinding_radius bind 1.5\ncmd b molcountheader stdout\ncmd n 10 molcount stdout\ncmd a molcountincmpt inside stdout\nend_file\n";

// Cut off anywhere, the file is a configuration where its last line is whole, or a number in it is still one, nothing is missing
// and no block is open: at 4 places each behind the walls of z and behind the radius, and at 2 behind each of 9 other lines.
#[test]
fn each_front_of_a_file_has_an_answer(rt: HostRuntime) -> Result<(), Fail> {
    let text = BOX.as_bytes();
    let mut accepted = 0u32;
    for end in 0..text.len() + 1 {
        match read_config(rt.alloc(), &text[..end]) {
            Ok(_) => accepted = accepted.saturating_add(1),
            Err(fault) => assert!(rt; fault != ConfigFault::OutOfMemory, "{end}"),
        }
    }
    assert_eq!(rt; accepted, 26);
    Ok(())
}
