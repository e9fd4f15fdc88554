// The laws of spots, the contract of a function with nothing to do: what keeps many spots over one `Cells` goes by these.

ghost use Rattle.std.specs.Prelude.{◌≡◌};
ghost use Rattle.te_terms.specs.Steps.{IsSettled};
ghost use Rattle.te_path.specs.declared.cells.Cells.{Cells};
ghost use Rattle.te_path.specs.declared.cells.CellMark.{CellMark};
ghost use Rattle.te_path.specs.declared.spot.Spot.{Spot};
ghost use Rattle.te_path.specs.Growth.{AreLinked, Grows, IsMarkOf, cut_to};
ghost use Rattle.te_path.specs.Origins.{Origin};
ghost use Rattle.te_path.specs.Paths.{StandsAt, HasFewFresh};
ghost use Rattle.te_path.specs.Spots.{spelled, IsSpot};

/// A spot stays one, and spells the same member, while cells are put behind the others; its stop is where its
/// term stands, and no quiet step is left there. A cut to a mark of cells gives them back, whatever has been put
/// behind them.
#[doc(hidden)]
pub fn spots_stay()
    ensures stays { (o : Origin) (old new : Cells) (s : Spot) → Grows old new → IsSpot o old s → IsSpot o new s }
    ensures spelled { (o : Origin) (old new : Cells) (s : Spot) → Grows old new → IsSpot o old s → spelled o new s ≡ spelled o old s }
    ensures stands { (o : Origin) (cells : Cells) (s : Spot) → IsSpot o cells s → StandsAt (spelled o cells s).term s.stop }
    ensures settled { (o : Origin) (cells : Cells) (s : Spot) → IsSpot o cells s → IsSettled (spelled o cells s) }
    ensures few { (o : Origin) (cells : Cells) (s : Spot) → IsSpot o cells s → HasFewFresh (spelled o cells s) }
    ensures linked { (o : Origin) (cells : Cells) (s : Spot) → IsSpot o cells s → AreLinked cells }
    ensures twice { (a b c : Cells) → Grows a b → Grows b c → Grows a c }
    ensures same { (a : Cells) → AreLinked a → Grows a a }
    ensures back { (past new : Cells) (mark : CellMark) → IsMarkOf past mark → Grows past new → cut_to mark new ≡ past }
{}
