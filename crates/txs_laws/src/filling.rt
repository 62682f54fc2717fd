ghost use Rattle.txs_laws.specs.Filling.{FilledIsUnder, BareIsUnder};

/// Values put into an expression give what the expression gives under those values.
pub fn filled_is_under()
    ensures { FilledIsUnder }
{}

/// Without a look at types, an evaluation ends as one that looks at them, where that one is not wrong.
pub fn bare_is_under()
    ensures { BareIsUnder }
{}
