//! The law of moments. The function does nothing: the law is its contract.
ghost use Rattle.smol_geom.specs.declared.place.Place.{Place};
ghost use Rattle.smol_geom.specs.declared.place.Step3.{Step3};
ghost use Rattle.smol_geom.specs.Axes.{EachAxis, IsEven, IsOdd, on_axis};
ghost use Rattle.smol_geom.specs.Moments.{AreAllMoments};

/// The moments of a move from an odd place by an even displacement are all parts of it at which a coordinate is even.
pub fn moments_are_all()
    ensures { (from : Place) (by : Step3) → EachAxis (λ axis. IsOdd (on_axis from.0 axis)) → EachAxis (λ axis. IsEven (on_axis by.0 axis))
        → AreAllMoments from by }
{}
