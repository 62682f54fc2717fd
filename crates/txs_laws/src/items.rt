ghost use Rattle.txs_laws.specs.Items.{RunsAreTyped, ItemsAreTyped, StepsAreTyped};

/// A well typed expression never meets a value of a wrong type, and gives one of its own.
pub fn runs_are_typed()
    ensures { RunsAreTyped }
{}

/// The items of a well typed term are well typed.
pub fn items_are_typed()
    ensures { ItemsAreTyped }
{}

/// A step of a well typed term is within its scope and leads to a well typed term.
pub fn steps_are_typed()
    ensures { StepsAreTyped }
{}
