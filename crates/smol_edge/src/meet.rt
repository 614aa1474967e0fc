//! A gate for tests, by which two workers meet.
ghost use Rattle.std.specs.Prelude.{◌≡◌, ◌<◌, None, IfSome};
ghost use Rattle.smol_edge.specs.Meet.{IsNamed};

use crate::gate::Gate;
use std::sync::atomic::{AtomicU8, Ordering};

/// The first pair of slice 1, since a slice has 64 pairs.
const FIRST_OF_SLICE_1: usize = 64;

/// How far a meeting has come.
#[derive(Clone, Copy)]
enum Stage {
    /// Nothing was seen.
    Fresh,
    /// The worker of slice 0 has seen the first pair of slice 1 undecided.
    Undecided,
    /// And at a later look it has seen it decided.
    Decided,
    /// It was asked to look at pair 0.
    Asked,
    /// And it found pair 0 undecided.
    Met,
    /// Or it found pair 0 decided.
    Missed,
}

/// A gate for tests. It holds the worker of slice 0 until another worker has decided the first pair of slice 1, and
/// that worker until the worker of slice 0 has seen the pair undecided. Then the worker of slice 0 looks at pair 0,
/// which nobody can have decided but itself. What it is told counts only in this order.
#[derive(Drop)]
pub struct Meet {
    stage: AtomicU8,
}

impl Meet {
    /// One that has seen nothing.
    pub fn of() -> Meet {
        Meet {
            stage: AtomicU8::new(Stage::Fresh as u8),
        }
    }

    /// Whether the worker of slice 0 was asked to look at pair 0, after it had seen the first pair of slice 1
    /// undecided and then decided, and found pair 0 undecided.
    pub fn met(&self) -> bool {
        self.is_at(Stage::Met)
    }

    fn is_at(&self, stage: Stage) -> bool {
        self.stage.load(Ordering::SeqCst) == stage as u8
    }

    // Goes from one stage to another, and answers whether it was at the one.
    fn goes(&self, from: Stage, to: Stage) -> bool {
        let (from, to) = (from as u8, to as u8);
        self.stage
            .compare_exchange(from, to, Ordering::SeqCst, Ordering::SeqCst)
            .is_ok()
    }

    // What the worker of slice 0 is to look at.
    fn ask_first(&self) -> Option<usize>
        ensures { IfSome result IsNamed }
    {
        if self.is_at(Stage::Fresh) || self.is_at(Stage::Undecided) {
            return Some(FIRST_OF_SLICE_1);
        }
        if self.goes(Stage::Decided, Stage::Asked) {
            return Some(0);
        }
        None
    }

    // What the worker of slice 1 is to look at.
    fn ask_second(&self) -> Option<usize>
        ensures { IfSome result IsNamed }
    {
        if self.is_at(Stage::Fresh) {
            return Some(FIRST_OF_SLICE_1);
        }
        None
    }
}

impl Gate for Meet {
    fn ask(&self, slice: usize) -> Option<usize>
        ensures named { IfSome result IsNamed }
        ensures others { 1 < slice → result ≡ None }
    {
        match slice {
            0 => self.ask_first(),
            1 => self.ask_second(),
            _ => None,
        }
    }

    fn saw(&self, slice: usize, pair: usize, fired: Option<bool>) {
        if slice != 0 {
            return;
        }
        match (pair, fired) {
            (FIRST_OF_SLICE_1, None) => self.goes(Stage::Fresh, Stage::Undecided),
            (FIRST_OF_SLICE_1, Some(_)) => self.goes(Stage::Undecided, Stage::Decided),
            (0, None) => self.goes(Stage::Asked, Stage::Met),
            (0, Some(_)) => self.goes(Stage::Asked, Stage::Missed),
            _ => false,
        };
    }
}

#[cfg(test)]
mod tests {
    use super::Meet;
    use crate::gate::Gate;
    use std::test::Fail;

    #[test]
    fn two_workers_meet(rt: HostRuntime) -> Result<(), Fail> {
        let meet = Meet::of();
        assert_eq!(rt; meet.ask(1), Some(64));
        assert_eq!(rt; meet.ask(0), Some(64));
        meet.saw(0, 64, Some(true));
        assert_eq!(rt; meet.ask(0), Some(64));
        meet.saw(0, 64, None);
        assert_eq!(rt; meet.ask(1), None);
        assert_eq!(rt; meet.ask(0), Some(64));
        meet.saw(0, 64, Some(true));
        assert!(rt; !meet.met());
        assert_eq!(rt; meet.ask(0), Some(0));
        assert_eq!(rt; meet.ask(0), None);
        assert!(rt; !meet.met());
        meet.saw(0, 0, None);
        assert!(rt; meet.met());
        assert_eq!(rt; meet.ask(0), None);
        assert_eq!(rt; meet.ask(1), None);
        assert_eq!(rt; meet.ask(2), None);
        Ok(())
    }

    #[test]
    fn a_look_that_was_not_asked_for_is_no_meeting(rt: HostRuntime) -> Result<(), Fail> {
        let meet = Meet::of();
        meet.saw(0, 0, None);
        assert!(rt; !meet.met());
        assert_eq!(rt; meet.ask(0), Some(64));
        meet.saw(0, 64, None);
        meet.saw(0, 0, None);
        meet.saw(0, 64, Some(false));
        meet.saw(0, 0, None);
        assert!(rt; !meet.met());
        assert_eq!(rt; meet.ask(0), Some(0));
        Ok(())
    }

    #[test]
    fn a_look_at_another_pair_or_by_another_worker_is_none(rt: HostRuntime) -> Result<(), Fail> {
        let meet = Meet::of();
        meet.saw(0, 63, None);
        meet.saw(1, 64, None);
        assert_eq!(rt; meet.ask(1), Some(64));
        meet.saw(0, 64, None);
        meet.saw(0, 65, Some(true));
        meet.saw(1, 64, Some(true));
        assert_eq!(rt; meet.ask(0), Some(64));
        meet.saw(0, 64, Some(true));
        assert_eq!(rt; meet.ask(0), Some(0));
        meet.saw(0, 1, None);
        meet.saw(1, 0, None);
        assert!(rt; !meet.met());
        Ok(())
    }

    #[test]
    fn a_decided_first_pair_is_no_meeting(rt: HostRuntime) -> Result<(), Fail> {
        let meet = Meet::of();
        meet.saw(0, 64, None);
        meet.saw(0, 64, Some(true));
        assert_eq!(rt; meet.ask(0), Some(0));
        meet.saw(0, 0, Some(true));
        meet.saw(0, 0, None);
        assert!(rt; !meet.met());
        assert_eq!(rt; meet.ask(0), None);
        Ok(())
    }
}
