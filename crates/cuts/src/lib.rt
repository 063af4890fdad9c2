//! Boards, splits, best cuts and reductions, as mathematics. The functions do nothing: their contracts are the theorems.
#![tactic(auto)]

ghost use Rattle.cuts.specs.Merging.{MergedWeights, MergedSound, MergedExact, MergedLighter, MergedReduces, RemovedReduces};
ghost use Rattle.cuts.specs.Reductions.{ReducesBest, BestShifted, ReducesThen, ReducesNot, ShiftBounded};
ghost use Rattle.cuts.specs.Values.{OneSide, Turning, Flipping, Bounded, BestExists, BestUnique, BestNatural, BestOfNone};

/// How a net is merged into another: it takes the other's side, or the opposite one.
#[derive(Clone, Copy, PartialEq, Eq, Debug)]
pub enum Tie {
    Joined,
    Opposed,
}

/// What the value of a split keeps to.
pub fn value_laws()
    ensures together { OneSide }
    ensures turning { Turning }
    ensures flipping { Flipping }
    ensures bounded { Bounded }
{}

/// Every board has one best cut.
pub fn best_cut_laws()
    ensures exists { BestExists }
    ensures unique { BestUnique }
    ensures natural { BestNatural }
    ensures none { BestOfNone }
{}

/// A reduction keeps the best cut, up to its shift.
pub fn reduction_laws()
    ensures best { ReducesBest }
    ensures shifted { BestShifted }
    ensures then { ReducesThen }
    ensures nothing { ReducesNot }
    ensures bounded { ShiftBounded }
{}

/// Joining and opposing are exact on every board.
pub fn merging_laws()
    ensures weights { MergedWeights }
    ensures sound { MergedSound }
    ensures exact { MergedExact }
    ensures lighter { MergedLighter }
    ensures reduces { MergedReduces }
    ensures removed { RemovedReduces }
{}
