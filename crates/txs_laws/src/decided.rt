ghost use Rattle.txs_laws.specs.Answers.{SatIsPoint, UnsatIsNone};
ghost use Rattle.txs_laws.specs.Cells.{PointsHaveCells};

/// Every point of a query has a cell at which every order atom ends alike.
pub fn points_have_cells()
    ensures { PointsHaveCells }
{}

/// Every point of a Sat answer has values of the slots' types.
pub fn sat_is_point()
    ensures { SatIsPoint }
{}

/// After an Unsat answer no values of the slots' types make the query True.
pub fn unsat_is_none()
    ensures { UnsatIsNone }
{}
