//! Where bytes come from.
ghost use Rattle.std.specs.Prelude.{◌≡◌, ◌<◌, ◌≤◌, [], ℕ, length, take, Option, IfOk, OnOk, OnErr, IfSome};
ghost use Rattle.smol_edge.specs.Faults.{Rose, Tells};
ghost use Rattle.smol_edge.specs.Source.{Reading, Opens, FailsToOpen, Takes};

use crate::Failed;

/// Files that are opened by name and read to their end, one at a time.
pub trait Source {
    /// What it tells of itself, or nothing where it doesn't tell: real files don't.
    ghost told: { Self → Option Reading };

    /// How often a call has failed. It never falls, and a call that answers `Ok` leaves it as it was.
    ghost faults: { Self → ℕ };

    /// Opens the file of this name, in the place of the one that is open.
    fn open(&mut self, name: &str) -> Result<(), Failed>
        ensures opened { OnOk result (Tells (told self.old) (told self.new) (Opens name.now)) }
        ensures not_opened { OnErr result (Tells (told self.old) (told self.new) (FailsToOpen name.now)) }
        ensures faults_stay { faults self.old ≤ faults self.new }
        ensures cause { OnErr result (Rose (faults self.old) (faults self.new)) }
        ensures no_fault { OnOk result (faults self.new ≡ faults self.old) };

    /// Takes bytes from the front of what is left, as many as it likes up to the length of `buf`, and
    /// answers how many. They then stand at the front of `buf`.
    fn read(&mut self, buf: &mut [u8]) -> Result<usize, Failed>
        ensures within { IfOk result (λ n. n ≤ length buf.old) }
        ensures taken { IfOk result (λ n. Tells (told self.old) (told self.new) (Takes (take n buf.new))) }
        ensures ended { IfOk result (λ n. n ≡ 0 → 0 < length buf.old → IfSome (told self.old) (λ reading. reading.left ≡ [])) }
        ensures not_taken { OnErr result (Tells (told self.old) (told self.new) (Takes [])) }
        ensures faults_stay { faults self.old ≤ faults self.new }
        ensures cause { OnErr result (Rose (faults self.old) (faults self.new)) }
        ensures no_fault { OnOk result (faults self.new ≡ faults self.old) };
}
