//! Square roots.
ghost use Rattle.std.specs.Prelude.{◌≡◌, ◌*◌, ◌+◌, ◌<◌, ◌≤◌};
ghost use Rattle.smol_num.specs.Root.{floor_root};

/// The square root, rounded down.
#[tactic(auto, using(crate::proofs::RootLemmas::root_is))]
pub fn isqrt(v: u128) -> u64
    ensures root { result ≡ floor_root v }
    ensures square_is_no_more { result * result ≤ v }
    ensures next_square_is_more { v < (result + 1) * (result + 1) }
{
    v.isqrt() as u64
}

#[cfg(test)]
mod tests {
    use super::*;

    #[test]
    fn rounds_down(rt: HostRuntime) {
        assert_eq!(rt; isqrt(0), 0);
        assert_eq!(rt; isqrt(15), 3);
        assert_eq!(rt; isqrt(16), 4);
        assert_eq!(rt; isqrt(u128::MAX), u64::MAX);
    }
}
