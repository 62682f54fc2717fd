ghost use Rattle.txs_laws.specs.Answers.{SatIsTrue};
ghost use Rattle.txs_laws.specs.Cells.{AtomsDecide};

/// A conjunct ends alike at two points if its atoms do.
pub fn atoms_decide()
    ensures { AtomsDecide }
{}

/// Every point of a Sat answer makes the query True.
pub fn sat_is_true()
    ensures { SatIsTrue }
{}
