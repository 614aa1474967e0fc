use super::*;
use smol_geom::Step3;

// The numbers below are those of a ChaCha8 written apart from this crate, in Python, after the published
// block function with 8 rounds, a 64-bit block counter and a 64-bit stream number.

#[test]
fn the_largest_sums_are_scaled(rt: HostRuntime) {
    assert_eq!(rt; scale(393_210, 1_000_000), 11_999_816);
    assert_eq!(rt; scale(-393_210, 1_000_000), -11_999_816);
}

// The key of seed 258 begins with the bytes 02 01; its stream 7 has these words at places 0, 3 and 100.
#[test]
fn a_word_is_the_same_whatever_was_drawn_before(rt: HostRuntime) {
    let mut streams = Streams::of_seed(258);
    assert_eq!(rt; streams.word(7, 0), 0x4fbf_17fe);
    assert_eq!(rt; streams.word(7, 100), 0x2a88_e35c);
    assert_eq!(rt; streams.word(7, 3), 0xe8a0_8ba8);
    assert_eq!(rt; streams.word(9, 4), 0xb44d_eec5);
    assert_eq!(rt; streams.word(7, 3), 0xe8a0_8ba8);
}

// The words at places 15 and 16 of stream 7 of seed 258 stand in two blocks.
#[test]
fn a_number_below_a_bound(rt: HostRuntime) {
    let mut streams = Streams::of_seed(258);
    assert_eq!(rt; streams.below(7, 15, 100_000_000), 29_157_228);
}

// Molecule 1 of seed 7 in step 1, with a difstep of one length unit: the words at places 32 to 49 of stream 1.
#[test]
fn a_displacement(rt: HostRuntime) {
    let mut streams = Streams::of_seed(7);
    assert_eq!(rt;
        streams.displace(1, 1, 1_000_000, 3),
        Step3([982_238, 3_748_566, -2_029_358])
    );
    assert_eq!(rt;
        streams.displace(1, 1, 1_000_000, 2),
        Step3([982_238, 3_748_566, 0])
    );
}

// Molecule 1 of seed 7 in step 1, behind its displacement: the words at places 50 and 51 of stream 1.
#[test]
fn what_a_molecule_draws(rt: HostRuntime) {
    let mut streams = Streams::of_seed(7);
    let drawn = Drawn {
        by: Step3([982_238, 3_748_566, -2_029_358]),
        word: 0x4d6c_29da,
    };
    assert_eq!(rt; streams.draw(1, 1, 1_000_000, 3), drawn);
    assert_eq!(rt; streams.lone_axis(3, 1, 1), 1);
}

// Ranks 3 and 5 with reaction 4 in step 2: places 4104 and 4105 of stream 2^63 + 3 * 2^20 + 5. Command 2 in step 3 for rank 4:
// place 3 * 2^20 + 4 of stream 3 * 2^62 + 2. Molecule 1 at try 1 on axis 2: places 12 and 13 of stream 2^62 + 1.
#[test]
fn what_pairs_commands_and_placements_draw(rt: HostRuntime) {
    let mut streams = Streams::of_seed(7);
    assert_eq!(rt; streams.pair_word((3, 5), 2, 4), 0xddb5_7331);
    assert_eq!(rt; streams.pair_axis(3, (3, 5), 2, 4), 1);
    assert_eq!(rt; streams.command_word(2, 3, 4), 0x5320_f4f7);
    assert_eq!(rt; streams.coordinate(1, 1, 2, -200, 1000), -147);
}
