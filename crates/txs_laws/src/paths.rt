ghost use Rattle.txs_laws.specs.Paths.{PathsAreBounded};

/// No path of a menu is longer than the ranks of its calls and the bodies allow.
pub fn paths_are_bounded()
    ensures { PathsAreBounded }
{}
